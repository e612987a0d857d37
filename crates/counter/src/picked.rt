// The counter that settings pick: one kind for each line of the table.
ghost use Rattle.counter.specs.Picked.{picked_means, picked_sound};
ghost use Rattle.counter.specs.Rows.{row, row_fits, Makes};

use crate::counter::Counter;
use crate::downward::Downward;
use crate::full_range::FullRange;
use crate::meaning::{Crossing, Meaning, OutsideLimits};
use crate::mode::{MainDirection, Mode};
use crate::periodic::Periodic;
use crate::upward::Upward;

// By a rule of the project (docs/DECISIONS.md) it is an enum with the data of one kind in each case,
// and each function is a match.
#[derive(Clone, Copy)]
pub enum PickedCounter {
    FullRange(FullRange),
    Periodic(Periodic),
    Upward(Upward),
    Downward(Downward),
}

impl PickedCounter {
    // A new counter, which reads its load. There is none where an endless counter is given a main
    // direction, where the end value is below 2, or where the load lies outside the limits. The four
    // stand in no struct of their own: only this function takes them.
    pub fn new(mode: Mode, direction: MainDirection, end: i32, load: i32) -> Option<PickedCounter>
        ensures { Makes picked_means result (row_fits mode direction end load) (row mode direction end load) }
    {
        if end < 2 {
            return None;
        }
        let stops = mode.stops();
        let picked = match (mode, direction) {
            (Mode::Endless, MainDirection::Up | MainDirection::Down) => return None,
            (Mode::Endless | Mode::Once, MainDirection::Neither) => {
                PickedCounter::FullRange(FullRange::new(load, stops))
            }
            (Mode::Periodic, MainDirection::Neither) => {
                PickedCounter::Periodic(Periodic::new(load))
            }
            (_, MainDirection::Up) => PickedCounter::Upward(Upward::new(end, load, stops)?),
            (_, MainDirection::Down) => PickedCounter::Downward(Downward::new(end, load, stops)?),
        };
        Some(picked)
    }
}

impl Counter for PickedCounter {
    ghost means = { picked_means };

    ghost sound = { picked_sound };

    fn meaning(&self) -> Meaning {
        match self {
            PickedCounter::FullRange(c) => c.meaning(),
            PickedCounter::Periodic(c) => c.meaning(),
            PickedCounter::Upward(c) => c.meaning(),
            PickedCounter::Downward(c) => c.meaning(),
        }
    }

    fn up(&mut self) -> Option<Crossing> {
        match self {
            PickedCounter::FullRange(c) => c.up(),
            PickedCounter::Periodic(c) => c.up(),
            PickedCounter::Upward(c) => c.up(),
            PickedCounter::Downward(c) => c.up(),
        }
    }

    fn down(&mut self) -> Option<Crossing> {
        match self {
            PickedCounter::FullRange(c) => c.down(),
            PickedCounter::Periodic(c) => c.down(),
            PickedCounter::Upward(c) => c.down(),
            PickedCounter::Downward(c) => c.down(),
        }
    }

    fn set_load(&mut self, load: i32) -> Result<(), OutsideLimits> {
        match self {
            PickedCounter::FullRange(c) => c.set_load(load),
            PickedCounter::Periodic(c) => c.set_load(load),
            PickedCounter::Upward(c) => c.set_load(load),
            PickedCounter::Downward(c) => c.set_load(load),
        }
    }

    fn put(&mut self) {
        match self {
            PickedCounter::FullRange(c) => c.put(),
            PickedCounter::Periodic(c) => c.put(),
            PickedCounter::Upward(c) => c.put(),
            PickedCounter::Downward(c) => c.put(),
        }
    }
}
