// Counts with up as its main direction: to one below the end value, and then from the load.
ghost use Rattle.std.specs.Prelude.{◌≡◌, pos, ◌-ℤ◌};
ghost use Rattle.counter.specs.Counting.{HIGH, Between, Sound};
ghost use Rattle.counter.specs.Rows.{upward, upward_fits, Makes};

use crate::counter::Counter;
use crate::meaning::{Crossing, Landing, Meaning, OutsideLimits};
use crate::steps::{step_down, step_up};

#[derive(Clone, Copy)]
pub struct Upward {
    reading: i32,
    load: i32,
    end: i32,
    stops: bool,
    ghost ends: { Between (pos 2) end HIGH },
    ghost sound: { Sound (upward stops end reading load) },
}

impl Upward {
    // `stops` says whether a crossing stops the count. The end value must be at least 2, and the load
    // within the limits.
    pub fn new(end: i32, load: i32, stops: bool) -> Option<Upward>
        ensures { Makes (λ c. upward c.stops c.end c.reading c.load) result (upward_fits end load) (upward stops end load load) }
    {
        if end < 2 || load >= end {
            return None;
        }
        Some(Upward {
            reading: load,
            load,
            end,
            stops,
        })
    }

    // The highest reading: an upward counter never reads its end value.
    fn last(&self) -> i32
        ensures { result ≡ self.now.end -ℤ pos 1 }
    {
        self.end - 1
    }
}

impl Counter for Upward {
    ghost means = { λ c. upward c.stops c.end c.reading c.load };

    ghost sound = { λ c. c.sound };

    fn meaning(&self) -> Meaning {
        Meaning {
            reading: self.reading,
            low: i32::MIN,
            high: self.last(),
            load: self.load,
            overflow: Landing::OnLoad(self.load),
            underflow: Landing::Fixed(self.last()),
            stops: self.stops,
        }
    }

    fn up(&mut self) -> Option<Crossing> {
        let last = self.last();
        step_up(&mut self.reading, last, self.load)
    }

    fn down(&mut self) -> Option<Crossing> {
        let last = self.last();
        step_down(&mut self.reading, i32::MIN, last)
    }

    fn set_load(&mut self, load: i32) -> Result<(), OutsideLimits> {
        if load > self.last() {
            return Err(OutsideLimits);
        }
        self.load = load;
        Ok(())
    }

    fn put(&mut self) {
        self.reading = self.load;
    }
}
