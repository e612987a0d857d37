// Parameters: choices that keep to every range and agree with each other.
ghost use Rattle.std.specs.Prelude.{◌≡◌, true};
ghost use Rattle.settings.specs.Checks.{keeps, checked};
ghost use Rattle.settings.specs.Record.{record_of, verdict, Gives, Holds};

use crate::choices::Choices;
use refusal::{Reason, Refusal};

// No value of this type holds a value out of its range or a conflict, so nobody has to ask again. No
// model: it would hide `kept`, which proofs read.
#[derive(Clone, Copy)]
pub struct Parameters {
    choices: Choices,
    ghost kept: { keeps choices ≡ true },
}

impl Parameters {
    // Parameters of these choices. They are refused as the record of these choices would be, with
    // the place in that record: first the ranges are judged, then the agreement.
    #[tactic(auto, using(crate::proofs::RoundTrips::verdict_record))]
    pub fn new(choices: Choices) -> Result<Parameters, Refusal>
        ensures verdict { Gives (λ p. p.choices) result (verdict (record_of choices)) }
        ensures judged { Gives (λ p. p.choices) result (checked choices) }
        ensures made { Holds (λ p. p.choices) result choices }
    {
        if let Some(field) = choices.out_of_range() {
            return Err(field.refusal(Reason::ValueOutOfRange));
        }
        if let Some(field) = choices.conflict() {
            return Err(field.refusal(Reason::FieldsConflict));
        }
        Ok(Parameters { choices })
    }

    pub fn choices(&self) -> Choices
        ensures { result ≡ self.now.choices }
    {
        self.choices
    }
}
