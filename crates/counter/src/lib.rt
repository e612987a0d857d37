// Counters: what they mean, the kinds that there are, and the one that settings pick.
#![tactic(auto)]

mod counter;
mod downward;
mod full_range;
mod meaning;
mod mode;
mod periodic;
mod picked;
mod steps;
#[cfg(test)]
mod tests;
mod upward;

pub use counter::Counter;
pub use downward::Downward;
pub use full_range::FullRange;
pub use meaning::{Crossing, Landing, Meaning, OutsideLimits};
pub use mode::{MainDirection, Mode};
pub use periodic::Periodic;
pub use picked::PickedCounter;
pub use upward::Upward;
