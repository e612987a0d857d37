// The single choices from which parameters are made.
use counter::{MainDirection, Mode};
use encoder::PickedEvaluation;

// What the digital input does.
#[derive(Clone, Copy)]
pub enum DiFunction {
    Input = 0,
    HardwareGate = 1,
    LatchAndRetrigger = 2,
    Synchronisation = 3,
    Latch = 4,
}

// What a gate start does: under cancel counting begins again at the load, under interrupt it goes on.
#[derive(Clone, Copy)]
pub enum GateFunction {
    Cancel = 0,
    Interrupt = 1,
}

// Which rises of the digital input synchronise: the first, or every one.
#[derive(Clone, Copy)]
pub enum Synchronisation {
    Once = 0,
    Periodic = 1,
}

// What an output does: it follows its bit in the control word, is on from the comparison value up
// or down, or gives a pulse at the comparison value.
#[derive(Clone, Copy)]
pub enum Behaviour {
    FollowsBit = 0,
    OnAtOrAbove = 1,
    OnAtOrBelow = 2,
    Pulse = 3,
}

// The duration counts steps of 2 ms.
#[derive(Clone, Copy)]
pub struct Output {
    pub behaviour: Behaviour,
    pub hysteresis: u8,
    pub duration: u8,
    pub comparison: i32,
}

#[derive(Clone, Copy)]
pub struct Choices {
    pub mode: Mode,
    pub direction: MainDirection,
    pub end: i32,
    pub load: i32,
    pub evaluation: PickedEvaluation,
    pub b_inverted: bool,
    pub di_function: DiFunction,
    pub gate_input_inverted: bool,
    pub gate: GateFunction,
    pub synchronisation: Synchronisation,
    // Two fields of the record, each with a tag and a place of its own; in an array each would only be
    // named by an index.
    pub output1: Output,
    pub output2: Output,
}
