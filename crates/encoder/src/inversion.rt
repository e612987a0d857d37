// The stage that inverts B before an evaluation sees it.
ghost use Rattle.std.specs.Prelude.{◌≡◌};
ghost use Rattle.encoder.specs.Evaluations.{inverted, inverted_silent};
ghost use Rattle.encoder.specs.Places.{inverted_height};
ghost use Rattle.encoder.specs.Picked.{with_stage, staged_answers, staged_silent, staged_height};

use crate::evaluation::{Evaluation, Pulse, Rotary};
use crate::lines::Pair;

// Any evaluation with B inverted before it.
#[derive(Clone, Copy)]
pub struct Inverted<E> {
    pub inner: E,
}

impl<E: Evaluation> Evaluation for Inverted<E> {
    ghost answers = { λ s. inverted (E.Evaluation.answers s.inner) };

    ghost silent = { λ e. inverted_silent (E.Evaluation.answers e.inner) (E.Evaluation.silent e.inner) };

    fn evaluate(&self, old: Pair, new: Pair) -> Option<Pulse> {
        self.inner
            .evaluate(old.with_b_inverted(), new.with_b_inverted())
    }
}

impl<E: Rotary> Rotary for Inverted<E> {
    ghost height = { λ s. inverted_height (E.Rotary.height s.inner) };

    #[tactic(auto, using(crate::proofs::Mirror::mirrored))]
    fn step_law(&self) {
        self.inner.step_law()
    }
}

// Any evaluation with or without the inversion stage before it. A match for each function: a boxed
// value in place of the two cases would only add memory.
#[derive(Clone, Copy)]
pub enum Staged<E> {
    Direct(E),
    Inverted(Inverted<E>),
}

impl<E> Staged<E> {
    pub fn new(inner: E, b_inverted: bool) -> Staged<E>
        ensures { result ≡ with_stage b_inverted inner }
    {
        if b_inverted {
            Staged::Inverted(Inverted { inner })
        } else {
            Staged::Direct(inner)
        }
    }
}

impl<E: Evaluation> Evaluation for Staged<E> {
    ghost answers = { staged_answers E.Evaluation.answers };

    ghost silent = { staged_silent E.Evaluation.answers E.Evaluation.silent };

    fn evaluate(&self, old: Pair, new: Pair) -> Option<Pulse> {
        match self {
            Staged::Direct(inner) => inner.evaluate(old, new),
            Staged::Inverted(inner) => inner.evaluate(old, new),
        }
    }
}

impl<E: Rotary> Rotary for Staged<E> {
    ghost height = { staged_height E.Rotary.height };

    fn step_law(&self) {
        match self {
            Staged::Direct(inner) => inner.step_law(),
            Staged::Inverted(inner) => inner.step_law(),
        }
    }
}
