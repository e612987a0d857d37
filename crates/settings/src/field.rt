// The fields of a parameter record.
ghost use Rattle.refusal.specs.Refusals.{refusal};
ghost use Rattle.std.specs.Prelude.{◌≡◌, []};
ghost use Rattle.settings.specs.Fields.{tag_of, size_of, place_of, written};

use refusal::{Reason, Refusal};

// In the order in which they stand in the record. The numbers are the tags.
#[derive(Clone, Copy)]
pub enum Field {
    Mode = 1,
    Direction = 2,
    End = 3,
    Load = 4,
    Evaluation = 5,
    BInverted = 6,
    DiFunction = 7,
    GateInputInverted = 8,
    Gate = 9,
    Synchronisation = 10,
    Output1 = 11,
    Output2 = 12,
}

// How many bytes a whole record has, and a field's tag and length.
pub const RECORD_SIZE: usize = 66;

pub const HEADER_SIZE: usize = 3;

impl Field {
    // A field has three numbers, so none of them is its conversion to a number.
    pub fn tag(self) -> u8
        ensures { result ≡ tag_of self }
    {
        self as u8
    }

    // How many bytes its value has.
    pub fn size(self) -> usize
        ensures { result ≡ size_of self }
    {
        match self {
            Field::End | Field::Load => 4,
            Field::Output1 | Field::Output2 => 7,
            _ => 1,
        }
    }

    // Its tag and length, as they stand before its value.
    pub fn header(self) -> [u8; HEADER_SIZE]
        ensures { result ≡ written self [] }
    {
        let [high, low] = (self.size() as u16).to_be_bytes();
        [self.tag(), high, low]
    }

    // Where its first byte stands in a record.
    pub fn place(self) -> usize
        ensures { result ≡ place_of self }
    {
        match self {
            Field::Mode => 0,
            Field::Direction => 4,
            Field::End => 8,
            Field::Load => 15,
            Field::Evaluation => 22,
            Field::BInverted => 26,
            Field::DiFunction => 30,
            Field::GateInputInverted => 34,
            Field::Gate => 38,
            Field::Synchronisation => 42,
            Field::Output1 => 46,
            Field::Output2 => 56,
        }
    }

    // The refusal of a record for this field.
    pub fn refusal(self, reason: Reason) -> Refusal
        ensures { result ≡ refusal reason (place_of self) }
    {
        Refusal::new(reason, self.place())
    }
}
