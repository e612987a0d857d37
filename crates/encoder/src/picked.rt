// The evaluation that settings pick.
ghost use Rattle.encoder.specs.Picked.{picked_answers};
ghost use Rattle.std.proofs.Common.{rules};

use crate::double::Double;
use crate::evaluation::{Evaluation, Pulse};
use crate::lines::Pair;
use crate::pulse_direction::PulseDirection;
use crate::quadruple::Quadruple;
use crate::single::Single;

// The numbers are the codes by which settings name them.
// A match for each function: the cases are four, and known, so a boxed value would only add memory.
#[derive(Clone, Copy, PartialEq, Eq, Debug)]
pub enum PickedEvaluation {
    PulseDirection = 0,
    Single = 1,
    Double = 2,
    Quadruple = 4,
}

impl Evaluation for PickedEvaluation {
    ghost answers = { picked_answers };

    ghost silent = { Prim.search rules };

    fn evaluate(&self, old: Pair, new: Pair) -> Option<Pulse> {
        match self {
            PickedEvaluation::PulseDirection => PulseDirection.evaluate(old, new),
            PickedEvaluation::Single => Single.evaluate(old, new),
            PickedEvaluation::Double => Double.evaluate(old, new),
            PickedEvaluation::Quadruple => Quadruple.evaluate(old, new),
        }
    }
}
