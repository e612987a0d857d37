// The bill of a winding.
ghost use Rattle.std.specs.Prelude.{◌≡◌, ◌/◌, ◌^◌, ◌<◌, pos, ◌*ℤ◌, Some};
ghost use Rattle.winding.specs.Bill.{pulses_per_turn, evaluation_of, millimetres, bill_of, thousandths_text, tally_text, bill_text};
ghost use Rattle.winding.specs.Winding.{sums_of};
ghost use Rattle.encoder.specs.declared.picked.PickedEvaluation.TheVariants as picked;

use crate::tally::Tally;
use crate::wheel::Wheel;
use crate::winding::Winding;
use counter::Counter;
use encoder::{Evaluation, PickedEvaluation, Quadruple, Staged};
use std::fmt;

// A number of thousandths, written with the point: millimetres as metres, milliseconds as seconds.
#[derive(Clone, Copy, PartialEq, Eq, Debug)]
pub struct Thousandths(pub i64);

impl fmt::Display for Thousandths {
    ghost output = { λ x. Some (thousandths_text x.0) };

    #[tactic(auto, using(crate::proofs::Digits::three_digits))]
    fn fmt<W: fmt::Write>(&self, f: &mut fmt::Formatter<W>) -> fmt::Result {
        let sign = if self.0 < 0 { "-" } else { "" };
        let magnitude = self.0.unsigned_abs();
        let whole = magnitude / 1000;
        let thousandths = magnitude % 1000;
        write!(f, "{sign}{whole}.{thousandths:03}")
    }
}

impl Wheel {
    // A reading times the circumference, in micrometres. It fits 64 bits at any reading.
    #[tactic(auto, using(crate::proofs::Products::products))]
    fn turned(&self, reading: i32) -> i64
        ensures { result ≡ reading *ℤ pos self.now.circumference }
    {
        i64::from(reading) * i64::from(self.circumference)
    }

    // The pulses that an evaluation counts in one turn.
    fn pulses_per_turn(&self, evaluation: PickedEvaluation) -> i64
        ensures value { result ≡ pos (pulses_per_turn self.now evaluation) }
        ensures above { 0 < pulses_per_turn self.now evaluation }
        ensures small { pulses_per_turn self.now evaluation < 2 ^ 34 }
    {
        let lines = i64::from(self.lines);
        match evaluation {
            PickedEvaluation::PulseDirection | PickedEvaluation::Single => lines,
            PickedEvaluation::Double => 2 * lines,
            PickedEvaluation::Quadruple => 4 * lines,
        }
    }

    // The length that a reading stands for where this evaluation counted its pulses, rounded down to the millimetre.
    pub fn length(&self, reading: i32, evaluation: PickedEvaluation) -> Thousandths
        ensures { result.0 ≡ millimetres self.now evaluation reading }
    {
        let divisor = 1000 * self.pulses_per_turn(evaluation);
        Thousandths(self.turned(reading).div_euclid(divisor))
    }
}

// What the cable maker reads: the winding's sums, the counter's reading, the cable's length in
// metres, and the time in seconds.
#[derive(Clone, Copy)]
pub struct Bill {
    tally: Tally,
    reading: i32,
    length: Thousandths,
    time: Thousandths,
}

impl<E: Evaluation, C: Counter> Winding<E, C> {
    // The length goes by this evaluation. Length and time are rounded down, to the millimetre and
    // the millisecond.
    pub fn bill(&self, wheel: &Wheel, evaluation: PickedEvaluation) -> Bill
        ensures { result ≡ bill_of wheel.now evaluation self.now.tally (C.Counter.means self.now.counter).reading }
    {
        let tally = self.tally;
        let reading = self.counter.meaning().reading;
        Bill {
            tally,
            reading,
            length: wheel.length(reading, evaluation),
            time: Thousandths((tally.elapsed / 1000) as i64),
        }
    }
}

impl<C: Counter> Winding<Quadruple, C> {
    // The bill of a winding through quadruple evaluation: its length goes by four pulses a line.
    pub fn bill_by_quadruple(&self, wheel: &Wheel) -> Bill
        ensures { result ≡ bill_of wheel.now picked.Quadruple self.now.tally (C.Counter.means self.now.counter).reading }
    {
        self.bill(wheel, PickedEvaluation::Quadruple)
    }
}

impl<C: Counter> Winding<Staged<PickedEvaluation>, C> {
    // The evaluation, with or without the stage before it.
    fn picked(&self) -> PickedEvaluation
        ensures { result ≡ evaluation_of self.now.evaluation }
    {
        match self.evaluation {
            Staged::Direct(evaluation) => evaluation,
            Staged::Inverted(stage) => stage.inner,
        }
    }

    // The bill of a winding whose evaluation settings picked: its length goes by that evaluation.
    pub fn bill_by_evaluation(&self, wheel: &Wheel) -> Bill
        ensures { result ≡ bill_of wheel.now (evaluation_of self.now.evaluation) self.now.tally (C.Counter.means self.now.counter).reading }
    {
        self.bill(wheel, self.picked())
    }
}

impl fmt::Display for Tally {
    ghost output = { λ t. Some (tally_text (sums_of t)) };

    fn fmt<W: fmt::Write>(&self, f: &mut fmt::Formatter<W>) -> fmt::Result {
        write!(
            f,
            "samples        {}\npulses up      {}\npulses down    {}\nsignal errors  {}",
            self.samples, self.up, self.down, self.doubles
        )
    }
}

impl fmt::Display for Bill {
    ghost output = { λ b. Some (bill_text (sums_of b.tally) b.reading b.length.0 b.time.0) };

    fn fmt<W: fmt::Write>(&self, f: &mut fmt::Formatter<W>) -> fmt::Result {
        write!(
            f,
            "{}\nreading        {}\nlength         {} m\nelapsed        {} s",
            self.tally, self.reading, self.length, self.time
        )
    }
}
