// Counts with down as its main direction: from the end value to 1, and then from the load.
ghost use Rattle.std.specs.Prelude.{◌≡◌, pos};
ghost use Rattle.counter.specs.Counting.{HIGH, Between, Sound};
ghost use Rattle.counter.specs.Rows.{downward, downward_fits, Makes};

use crate::counter::Counter;
use crate::meaning::{Crossing, Landing, Meaning, OutsideLimits};
use crate::steps::{step_down, step_up};

#[derive(Clone, Copy)]
pub struct Downward {
    reading: i32,
    load: i32,
    end: i32,
    stops: bool,
    ghost ends: { Between (pos 2) end HIGH },
    ghost sound: { Sound (downward stops end reading load) },
}

impl Downward {
    // `stops` says whether a crossing stops the count. The end value must be at least 2, and the load
    // within the limits.
    pub fn new(end: i32, load: i32, stops: bool) -> Option<Downward>
        ensures { Makes (λ c. downward c.stops c.end c.reading c.load) result (downward_fits end load) (downward stops end load load) }
    {
        if end < 2 || load < 1 || load > end {
            return None;
        }
        Some(Downward {
            reading: load,
            load,
            end,
            stops,
        })
    }
}

impl Counter for Downward {
    ghost means = { λ c. downward c.stops c.end c.reading c.load };

    ghost sound = { λ c. c.sound };

    fn meaning(&self) -> Meaning {
        Meaning {
            reading: self.reading,
            low: 1,
            high: self.end,
            load: self.load,
            overflow: Landing::Fixed(1),
            underflow: Landing::OnLoad(self.load),
            stops: self.stops,
        }
    }

    fn up(&mut self) -> Option<Crossing> {
        step_up(&mut self.reading, self.end, 1)
    }

    fn down(&mut self) -> Option<Crossing> {
        step_down(&mut self.reading, 1, self.load)
    }

    fn set_load(&mut self, load: i32) -> Result<(), OutsideLimits> {
        if load < 1 || load > self.end {
            return Err(OutsideLimits);
        }
        self.load = load;
        Ok(())
    }

    fn put(&mut self) {
        self.reading = self.load;
    }
}
