// Reads a parameter record.
ghost use Rattle.std.specs.Prelude.{◌≡◌};
ghost use Rattle.settings.specs.declared.parameters.Parameters.{Parameters};
ghost use Rattle.settings.specs.Record.{choices_read, verdict, Gives, AcceptsOwn};

use crate::choices::Choices;
use crate::field::Field;
use crate::fields::Fields;
use crate::parameters::Parameters;
use crate::value::End;
use refusal::Refusal;

// The choices that a record makes, field by field.
fn read_choices(record: &[u8]) -> Result<Choices, Refusal>
    ensures { result ≡ choices_read «record».now }
{
    let mut fields = Fields::new(record);
    let mode = fields.next(Field::Mode)?;
    let direction = fields.next(Field::Direction)?;
    let End(end) = fields.next(Field::End)?;
    let load = fields.next(Field::Load)?;
    let evaluation = fields.next(Field::Evaluation)?;
    let b_inverted = fields.next(Field::BInverted)?;
    let di_function = fields.next(Field::DiFunction)?;
    let gate_input_inverted = fields.next(Field::GateInputInverted)?;
    let gate = fields.next(Field::Gate)?;
    let synchronisation = fields.next(Field::Synchronisation)?;
    let output1 = fields.next(Field::Output1)?;
    let output2 = fields.next(Field::Output2)?;
    fields.finish(Choices {
        mode,
        direction,
        end,
        load,
        evaluation,
        b_inverted,
        di_function,
        gate_input_inverted,
        gate,
        synchronisation,
        output1,
        output2,
    })
}

impl Parameters {
    // The parameters that a record holds, whatever bytes these are.
    pub fn read(record: &[u8]) -> Result<Parameters, Refusal>
        ensures verdict { Gives (λ p. p.choices) result (verdict «record».now) }
        ensures own { AcceptsOwn {P = Parameters} (λ p. p.choices) «record».now result }
    {
        let choices = read_choices(record)?;
        Parameters::new(choices)
    }
}
