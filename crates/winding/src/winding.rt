// Samples are wound through an evaluation into a counter.
ghost use Rattle.std.specs.Prelude.{◌≡◌, false, is_ok, if◌then◌else◌};
ghost use Rattle.encoder.specs.Lines.{pair};
ghost use Rattle.winding.specs.Winding.{sums_of, no_sums, noted, has_room, state_of, wound};

use crate::tally::{Tally, TallyFull};
use counter::Counter;
use encoder::{Evaluation, Levels, Pair, Pulse};

// The levels, and the microseconds since the sample before.
#[derive(Clone, Copy)]
pub struct Sample {
    pub elapsed: u32,
    pub levels: Levels,
}

impl Tally {
    // By hand: a Default is not derived where a struct has ghost fields.
    pub fn new() -> Tally
        ensures { sums_of result ≡ no_sums }
    {
        Tally {
            samples: 0,
            up: 0,
            down: 0,
            doubles: 0,
            elapsed: 0,
        }
    }

    // Notes one sample: its pulse, whether both lines changed, and its time.
    fn note(&mut self, pulse: Option<Pulse>, both: bool, time: u32) -> Result<(), TallyFull>
        ensures accepted { is_ok result ≡ has_room (sums_of self.old) time }
        ensures sums { sums_of self.new ≡ (if is_ok result then noted pulse both time (sums_of self.old) else sums_of self.old) }
    {
        let elapsed = self.elapsed.checked_add(u64::from(time)).ok_or(TallyFull)?;
        self.samples = self.samples.checked_add(1).ok_or(TallyFull)?;
        self.elapsed = elapsed;
        match pulse {
            Some(Pulse::Up) => self.up += 1,
            Some(Pulse::Down) => self.down += 1,
            None => {}
        }
        if both {
            self.doubles += 1;
        }
        Ok(())
    }
}

// Any evaluation and any counter, the pair of the last sample, and the tally so far. Contracts read it
// by `state_of`: a model would hide the fields, which are public.
#[derive(Drop)]
pub struct Winding<E, C> {
    pub evaluation: E,
    pub counter: C,
    pub pair: Pair,
    pub tally: Tally,
}

impl<E: Evaluation, C: Counter> Winding<E, C> {
    // Starts with both lines low.
    pub fn new(evaluation: E, counter: C) -> Winding<E, C>
        ensures counter { result.counter ≡ counter }
        ensures evaluation { result.evaluation ≡ evaluation }
        ensures fresh { state_of C.Counter.means result ≡ record { counter = C.Counter.means counter; pair = pair false false; sums = no_sums } }
    {
        let pair = Pair { a: false, b: false };
        let tally = Tally::new();
        Winding {
            evaluation,
            counter,
            pair,
            tally,
        }
    }

    // One sample. Where the tally is full, nothing changes.
    pub fn wind(&mut self, sample: Sample) -> Result<(), TallyFull>
        ensures accepted { is_ok result ≡ has_room (sums_of self.old.tally) sample.elapsed }
        ensures evaluation { self.new.evaluation ≡ self.old.evaluation }
        ensures state { state_of C.Counter.means self.new ≡ (if is_ok result then wound (E.Evaluation.answers self.old.evaluation) sample (state_of C.Counter.means self.old) else state_of C.Counter.means self.old) }
    {
        let new = sample.levels.pair;
        let pulse = self.evaluation.evaluate(self.pair, new);
        let both = self.pair.both_differ(new);
        self.tally.note(pulse, both, sample.elapsed)?;
        let _ = match pulse {
            Some(Pulse::Up) => self.counter.up(),
            Some(Pulse::Down) => self.counter.down(),
            None => None,
        };
        self.pair = new;
        Ok(())
    }
}
