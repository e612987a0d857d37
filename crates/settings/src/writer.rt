// Writes a parameter record.
ghost use Rattle.std.specs.Prelude.{◌≡◌, length};
ghost use Rattle.settings.specs.Fields.{size_of, place_of, written, overlaid};
ghost use Rattle.settings.specs.Record.{record_of, Writes, ReadsBack};

use crate::choices::Choices;
use crate::field::{Field, HEADER_SIZE, RECORD_SIZE};
use crate::parameters::Parameters;
use crate::value::Value;
use refusal::{Reason, Refusal};

impl Parameters {
    // Fills the first 66 bytes of a buffer and leaves the rest.
    pub fn write(&self, buffer: &mut [u8]) -> Result<(), Refusal>
        ensures bytes { Writes self.now.choices buffer.old buffer.new result }
        ensures back { ReadsBack self.now.choices buffer.new result }
    {
        if buffer.len() < RECORD_SIZE {
            return Err(Refusal::new(Reason::BufferTooShort, 0));
        }
        buffer[..RECORD_SIZE].copy_from_slice(&record_of(self.choices()));
        Ok(())
    }
}

// The record of some choices.
fn record_of(choices: Choices) -> [u8; RECORD_SIZE]
    ensures { result ≡ record_of choices }
{
    let mut bytes = [0; RECORD_SIZE];
    put(&mut bytes, Field::Mode, choices.mode);
    put(&mut bytes, Field::Direction, choices.direction);
    put(&mut bytes, Field::End, choices.end);
    put(&mut bytes, Field::Load, choices.load);
    put(&mut bytes, Field::Evaluation, choices.evaluation);
    put(&mut bytes, Field::BInverted, choices.b_inverted);
    put(&mut bytes, Field::DiFunction, choices.di_function);
    put(
        &mut bytes,
        Field::GateInputInverted,
        choices.gate_input_inverted,
    );
    put(&mut bytes, Field::Gate, choices.gate);
    put(&mut bytes, Field::Synchronisation, choices.synchronisation);
    put(&mut bytes, Field::Output1, choices.output1);
    put(&mut bytes, Field::Output2, choices.output2);
    bytes
}

// Puts a field to its place.
fn put<V: Value>(bytes: &mut [u8; RECORD_SIZE], field: Field, value: V)
    requires { length (V.Value.writes value) ≡ size_of field }
    ensures { bytes.new ≡ overlaid (place_of field) (written field (V.Value.writes value)) bytes.old }
{
    let place = field.place();
    let value_place = place + HEADER_SIZE;
    bytes[place..value_place].copy_from_slice(&field.header());
    value.write(&mut bytes[value_place..value_place + field.size()]);
}
