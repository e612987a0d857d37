// The choices that pick a counter. The numbers are the codes by which settings name them.
ghost use Rattle.std.specs.Prelude.{◌≡◌};
ghost use Rattle.counter.specs.Rows.{stops};

#[derive(Clone, Copy)]
pub enum Mode {
    Endless = 0,
    Once = 1,
    Periodic = 2,
}

impl Mode {
    // Whether a crossing stops the count.
    pub(crate) fn stops(self) -> bool
        ensures { result ≡ stops self }
    {
        matches!(self, Mode::Once)
    }
}

// The main count direction: none, up or down. No Option: that there is none is a choice with a code
// of its own, as the other two have.
#[derive(Clone, Copy)]
pub enum MainDirection {
    Neither = 0,
    Up = 1,
    Down = 2,
}
