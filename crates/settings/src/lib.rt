// The parameters of a channel, and their record: the reader and the writer.
#![tactic(auto)]

mod checks;
mod choices;
mod coded;
mod field;
mod fields;
mod parameters;
mod picks;
mod reader;
#[cfg(test)]
mod tests;
mod value;
mod writer;

pub use choices::{Behaviour, Choices, DiFunction, GateFunction, Output, Synchronisation};
pub use parameters::Parameters;
