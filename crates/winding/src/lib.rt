// A drum of cable is wound: lines of a capture become samples, samples a reading, and the reading a bill.
#![tactic(auto)]

mod bill;
mod capture;
mod tally;
#[cfg(test)]
mod tests;
mod wheel;
mod winding;

pub use bill::{Bill, Thousandths};
pub use capture::{LineFault, bears_data, read_wheel, record_digits, wind_line};
pub use tally::{Tally, TallyFull};
pub use wheel::Wheel;
pub use winding::{Sample, Winding};
