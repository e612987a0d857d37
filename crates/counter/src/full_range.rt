// Counts over the whole 32-bit range, and goes on from one end at the other.
ghost use Rattle.std.specs.Prelude.{◌≡◌};
ghost use Rattle.counter.specs.Counting.{Sound};
ghost use Rattle.counter.specs.Rows.{full_range};

use crate::counter::Counter;
use crate::meaning::{Crossing, Landing, Meaning, OutsideLimits};

#[derive(Clone, Copy)]
pub struct FullRange {
    reading: i32,
    load: i32,
    stops: bool,
    ghost sound: { Sound (full_range stops reading load) },
}

impl FullRange {
    // `stops` says whether a crossing stops the count: endless does not, once does.
    pub fn new(load: i32, stops: bool) -> FullRange
        ensures { full_range result.stops result.reading result.load ≡ full_range stops load load }
    {
        FullRange {
            reading: load,
            load,
            stops,
        }
    }
}

impl Counter for FullRange {
    ghost means = { λ c. full_range c.stops c.reading c.load };

    ghost sound = { λ c. c.sound };

    fn meaning(&self) -> Meaning {
        Meaning {
            reading: self.reading,
            low: i32::MIN,
            high: i32::MAX,
            load: self.load,
            overflow: Landing::Fixed(i32::MIN),
            underflow: Landing::Fixed(i32::MAX),
            stops: self.stops,
        }
    }

    fn up(&mut self) -> Option<Crossing> {
        let at_high = self.reading == i32::MAX;
        self.reading = self.reading.wrapping_add(1);
        at_high.then_some(Crossing::Overflow)
    }

    fn down(&mut self) -> Option<Crossing> {
        let at_low = self.reading == i32::MIN;
        self.reading = self.reading.wrapping_sub(1);
        at_low.then_some(Crossing::Underflow)
    }

    fn set_load(&mut self, load: i32) -> Result<(), OutsideLimits> {
        self.load = load;
        Ok(())
    }

    fn put(&mut self) {
        self.reading = self.load;
    }
}
