// The steps that the kinds with limits share.
ghost use Rattle.std.specs.Prelude.{◌≡◌};
ghost use Rattle.counter.specs.Counting.{risen, rise_crossing, fallen, fall_crossing};

use crate::meaning::Crossing;

// One up: the next reading below high, the landing at high.
pub fn step_up(reading: &mut i32, high: i32, landing: i32) -> Option<Crossing>
    ensures moved { reading.new ≡ risen reading.old high landing }
    ensures crossing { result ≡ rise_crossing reading.old high }
{
    if *reading < high {
        *reading += 1;
        None
    } else {
        *reading = landing;
        Some(Crossing::Overflow)
    }
}

// One down: the reading before above low, the landing at low.
pub fn step_down(reading: &mut i32, low: i32, landing: i32) -> Option<Crossing>
    ensures moved { reading.new ≡ fallen reading.old low landing }
    ensures crossing { result ≡ fall_crossing reading.old low }
{
    if *reading > low {
        *reading -= 1;
        None
    } else {
        *reading = landing;
        Some(Crossing::Underflow)
    }
}
