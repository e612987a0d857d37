// The record's fields, taken one after the other.
ghost use Rattle.std.specs.Prelude.{◌≡◌};
ghost use Rattle.settings.specs.Rule.{cut, taken, Takes};
ghost use Rattle.settings.specs.Record.{ending};

use crate::choices::Choices;
use crate::field::{Field, RECORD_SIZE};
use crate::value::Value;
use refusal::{Reason, Refusal};

// What is left of the record.
#[derive(Drop)]
pub struct Fields<'a> {
    rest: &'a [u8],
}

impl<'a> Fields<'a> {
    pub fn new(record: &'a [u8]) -> Fields<'a>
        ensures { result.rest.now ≡ «record».now }
    {
        Fields { rest: record }
    }

    // Cuts a field off, and answers the bytes of its value. By a rule of the project
    // (docs/DECISIONS.md) a let-else takes it apart where a part may be missing.
    fn cut(&mut self, field: Field) -> Result<&'a [u8], Refusal>
        ensures { Takes (λ v. v.now) (cut field self.old.rest.now) self.new.rest.now result }
    {
        let [tag, high, low, rest @ ..] = self.rest else {
            return Err(field.refusal(Reason::FieldMissing));
        };
        if *tag != field.tag() {
            return Err(field.refusal(Reason::UnexpectedTag));
        }
        if usize::from(u16::from_be_bytes([*high, *low])) != field.size() {
            return Err(field.refusal(Reason::WrongLength));
        }
        let Some((value, rest)) = rest.split_at_checked(field.size()) else {
            return Err(field.refusal(Reason::ValueCut));
        };
        self.rest = rest;
        Ok(value)
    }

    // The value of the next field.
    pub fn next<V: Value>(&mut self, field: Field) -> Result<V, Refusal>
        ensures { Takes (λ v. v) (taken field V.Value.reads self.old.rest.now) self.new.rest.now result }
    {
        let value = self.cut(field)?;
        V::from_bytes(value).ok_or(field.refusal(Reason::ValueOutOfRange))
    }

    // The choices that were read, if nothing follows the last field.
    pub fn finish(&self, choices: Choices) -> Result<Choices, Refusal>
        ensures { result ≡ ending choices self.now.rest.now }
    {
        match self.rest {
            [] => Ok(choices),
            _ => Err(Refusal::new(Reason::SurplusBytes, RECORD_SIZE)),
        }
    }
}
