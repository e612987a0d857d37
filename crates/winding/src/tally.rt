// What a winding sums up.
ghost use Rattle.std.specs.Prelude.{◌+◌, ◌≤◌};

// `doubles` are the samples at which both lines changed, and `elapsed` is in microseconds. Contracts
// read it by `sums_of`: a model would hide the fields, which are public.
#[derive(Clone, Copy)]
pub struct Tally {
    pub samples: u64,
    pub up: u64,
    pub down: u64,
    pub doubles: u64,
    pub elapsed: u64,
    ghost a_pulse_a_sample: { up + down ≤ samples },
    ghost a_double_a_sample: { doubles ≤ samples },
}

// The sums have no room for another sample.
#[derive(Clone, Copy, PartialEq, Eq, Debug)]
pub struct TallyFull;
