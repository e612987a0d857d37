// An encoder's lines become pulses.
#![tactic(auto)]

mod double;
mod evaluation;
mod inversion;
mod lines;
mod picked;
mod pulse_direction;
mod quadruple;
mod single;
#[cfg(test)]
mod tests;

pub use double::Double;
pub use evaluation::{Evaluation, Pulse, Rotary};
pub use inversion::{Inverted, Staged};
pub use lines::{Levels, NoLevelByte, Pair};
pub use picked::PickedEvaluation;
pub use pulse_direction::PulseDirection;
pub use quadruple::Quadruple;
pub use single::Single;
