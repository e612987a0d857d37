// Double evaluation: two pulses a turn, at every edge of A.
ghost use Rattle.encoder.specs.Evaluations.{double};
ghost use Rattle.encoder.specs.Places.{double_height};
ghost use Rattle.std.proofs.Common.{rules};

use crate::evaluation::{Evaluation, Pulse, Rotary};
use crate::lines::Pair;

#[derive(Clone, Copy)]
pub struct Double;

impl Evaluation for Double {
    ghost answers = { λ _. double };

    ghost silent = { Prim.search rules };

    fn evaluate(&self, old: Pair, new: Pair) -> Option<Pulse> {
        match (old.a, new.a, old.b, new.b) {
            (false, true, false, false) | (true, false, true, true) => Some(Pulse::Up),
            (true, false, false, false) | (false, true, true, true) => Some(Pulse::Down),
            _ => None,
        }
    }
}

impl Rotary for Double {
    ghost height = { λ _. double_height };

    #[tactic(auto, using(crate::proofs::Steps::double_steps))]
    fn step_law(&self) {}
}
