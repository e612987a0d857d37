// A gives the pulses, B their direction. There is no shaft behind it: A falling answers nothing.
ghost use Rattle.encoder.specs.Evaluations.{pulse_direction};
ghost use Rattle.std.proofs.Common.{rules};

use crate::evaluation::{Evaluation, Pulse};
use crate::lines::Pair;

#[derive(Clone, Copy)]
pub struct PulseDirection;

impl Evaluation for PulseDirection {
    ghost answers = { λ _. pulse_direction };

    ghost silent = { Prim.search rules };

    fn evaluate(&self, old: Pair, new: Pair) -> Option<Pulse> {
        match (old.a, new.a, old.b, new.b) {
            (false, true, false, false) => Some(Pulse::Up),
            (false, true, true, true) => Some(Pulse::Down),
            _ => None,
        }
    }
}
