// What a counter means, as plain values.
ghost use Rattle.std.specs.Prelude.{◌≡◌};
ghost use Rattle.counter.specs.Counting.{lands_on, follows_load};

// Where a counter lands when it crosses a limit: on a reading that stays, or on the load, and then
// a new load moves it.
#[derive(Clone, Copy)]
pub enum Landing {
    Fixed(i32),
    OnLoad(i32),
}

impl Landing {
    // The reading on which it lands.
    pub fn at(self) -> i32
        ensures { result ≡ lands_on self }
    {
        match self {
            Landing::Fixed(reading) | Landing::OnLoad(reading) => reading,
        }
    }

    // Whether a new load moves it.
    pub fn follows_load(self) -> bool
        ensures { result ≡ follows_load self }
    {
        matches!(self, Landing::OnLoad(_))
    }
}

// All that a counter means: `low` and `high` are its limits, `overflow` and `underflow` its
// landings, and `stops` says whether a crossing stops the count.
#[derive(Clone, Copy)]
pub struct Meaning {
    pub reading: i32,
    pub low: i32,
    pub high: i32,
    pub load: i32,
    pub overflow: Landing,
    pub underflow: Landing,
    pub stops: bool,
}

// The limit that a pulse crossed.
#[derive(Clone, Copy, PartialEq, Eq, Debug)]
pub enum Crossing {
    Overflow,
    Underflow,
}

// A new load was refused: it lies outside the counter's limits.
#[derive(Clone, Copy, PartialEq, Eq, Debug)]
pub struct OutsideLimits;
