// Counts between the ends of the 32-bit range, and goes on from the load at either.
ghost use Rattle.std.specs.Prelude.{◌≡◌};
ghost use Rattle.counter.specs.Counting.{Sound};
ghost use Rattle.counter.specs.Rows.{periodic};

use crate::counter::Counter;
use crate::meaning::{Crossing, Landing, Meaning, OutsideLimits};
use crate::steps::{step_down, step_up};

#[derive(Clone, Copy)]
pub struct Periodic {
    reading: i32,
    load: i32,
    ghost sound: { Sound (periodic reading load) },
}

impl Periodic {
    pub fn new(load: i32) -> Periodic
        ensures { periodic result.reading result.load ≡ periodic load load }
    {
        Periodic {
            reading: load,
            load,
        }
    }
}

impl Counter for Periodic {
    ghost means = { λ c. periodic c.reading c.load };

    ghost sound = { λ c. c.sound };

    fn meaning(&self) -> Meaning {
        Meaning {
            reading: self.reading,
            low: i32::MIN,
            high: i32::MAX,
            load: self.load,
            overflow: Landing::OnLoad(self.load),
            underflow: Landing::OnLoad(self.load),
            stops: false,
        }
    }

    fn up(&mut self) -> Option<Crossing> {
        step_up(&mut self.reading, i32::MAX, self.load)
    }

    fn down(&mut self) -> Option<Crossing> {
        step_down(&mut self.reading, i32::MIN, self.load)
    }

    fn set_load(&mut self, load: i32) -> Result<(), OutsideLimits> {
        self.load = load;
        Ok(())
    }

    fn put(&mut self) {
        self.reading = self.load;
    }
}
