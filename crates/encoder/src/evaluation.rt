// What an evaluation is, and what makes it rotary.
ghost use Rattle.std.specs.Prelude.{◌≡◌, ℤ};
ghost use Rattle.encoder.specs.Evaluations.{Answers, Silent};
ghost use Rattle.encoder.specs.Places.{StepLaw};

use crate::lines::Pair;

// The direction of a pulse.
#[derive(Clone, Copy, PartialEq, Eq, Debug)]
pub enum Pulse {
    Up,
    Down,
}

// Answers a pulse or none from an old and a new pair, and from nothing else. The two pairs stay two
// parameters: each evaluation takes both apart, so a struct of them would be no plainer.
pub trait Evaluation {
    // what it answers to an old and a new pair
    ghost answers: { Self → Answers };

    fn evaluate(&self, old: Pair, new: Pair) -> Option<Pulse>
        ensures { result ≡ answers self.now old new };

    ghost silent: { (e : Self) → Silent (answers e) };
}

// An evaluation over a shaft: each place has a height, and the answers are its differences.
pub trait Rotary: Evaluation {
    ghost height: { Self → ℤ → ℤ };

    // Does nothing; its promise is the law between neighbouring places, which generic code gets by a
    // call. A rule of the project (docs/DECISIONS.md) wants it a function.
    fn step_law(&self)
        ensures { StepLaw (Self.Evaluation.answers self.now) (height self.now) };
}
