// Quadruple evaluation: four pulses a turn, at every edge of A and of B.
ghost use Rattle.encoder.specs.Evaluations.{quadruple};
ghost use Rattle.encoder.specs.Places.{quadruple_height};
ghost use Rattle.std.proofs.Common.{rules};

use crate::evaluation::{Evaluation, Pulse, Rotary};
use crate::lines::Pair;

#[derive(Clone, Copy)]
pub struct Quadruple;

impl Evaluation for Quadruple {
    ghost answers = { λ _. quadruple };

    ghost silent = { Prim.search rules };

    fn evaluate(&self, old: Pair, new: Pair) -> Option<Pulse> {
        match (old.a, old.b, new.a, new.b) {
            (false, false, true, false)
            | (true, false, true, true)
            | (true, true, false, true)
            | (false, true, false, false) => Some(Pulse::Up),
            (true, false, false, false)
            | (true, true, true, false)
            | (false, true, true, true)
            | (false, false, false, true) => Some(Pulse::Down),
            _ => None,
        }
    }
}

impl Rotary for Quadruple {
    ghost height = { λ _. quadruple_height };

    fn step_law(&self) {}
}
