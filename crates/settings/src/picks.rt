// What parameters pick: the counter and the evaluation.
ghost use Rattle.std.specs.Prelude.{◌≡◌};
ghost use Rattle.counter.specs.Picked.{picked_means};
ghost use Rattle.encoder.specs.Picked.{with_stage};
ghost use Rattle.settings.specs.Checks.{picked_row};

use crate::parameters::Parameters;
use counter::PickedCounter;
use encoder::{PickedEvaluation, Staged};

impl Parameters {
    // The counter of these parameters, new: it reads its load.
    pub fn counter(&self) -> PickedCounter
        ensures { picked_means result ≡ picked_row self.now.choices }
    {
        let choices = self.choices();
        PickedCounter::new(choices.mode, choices.direction, choices.end, choices.load).unwrap()
    }

    // The evaluation of these parameters, behind the inversion stage where B is inverted.
    pub fn evaluation(&self) -> Staged<PickedEvaluation>
        ensures { result ≡ with_stage self.now.choices.b_inverted self.now.choices.evaluation }
    {
        let choices = self.choices();
        Staged::new(choices.evaluation, choices.b_inverted)
    }
}
