// Single evaluation: one pulse a turn, at the edges of A with B low.
ghost use Rattle.encoder.specs.Evaluations.{single};
ghost use Rattle.encoder.specs.Places.{single_height};
ghost use Rattle.std.proofs.Common.{rules};

use crate::evaluation::{Evaluation, Pulse, Rotary};
use crate::lines::Pair;

#[derive(Clone, Copy)]
pub struct Single;

impl Evaluation for Single {
    ghost answers = { λ _. single };

    ghost silent = { Prim.search rules };

    fn evaluate(&self, old: Pair, new: Pair) -> Option<Pulse> {
        match (old.a, new.a, old.b, new.b) {
            (false, true, false, false) => Some(Pulse::Up),
            (true, false, false, false) => Some(Pulse::Down),
            _ => None,
        }
    }
}

impl Rotary for Single {
    ghost height = { λ _. single_height };

    #[tactic(auto, using(crate::proofs::Steps::single_steps))]
    fn step_law(&self) {}
}
