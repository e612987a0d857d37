// A numbered refusal: for what reason a call was refused, by which layer, and at which place.
#![tactic(auto)]

ghost use Rattle.std.specs.Prelude.{◌≡◌, ℕ, Some};
ghost use Rattle.refusal.specs.Refusals.{number_of, layer_of, layer_name, words_of, refusal, refused_line, explained_line};

use std::error::Error;
use std::fmt;

#[derive(Clone, Copy, PartialEq, Eq, Debug)]
pub enum Layer {
    Record,
    Word,
    Run,
    Image,
}

impl Layer {
    // Stays beside how a layer prints, since it cannot fail.
    pub fn name(self) -> &'static str
        ensures { result.now ≡ layer_name self }
    {
        match self {
            Layer::Record => "record",
            Layer::Word => "word",
            Layer::Run => "run",
            Layer::Image => "image",
        }
    }
}

impl fmt::Display for Layer {
    ghost output = { λ layer. Some (layer_name layer) };

    fn fmt<W: fmt::Write>(&self, f: &mut fmt::Formatter<W>) -> fmt::Result {
        f.write_str(self.name())
    }
}

// Why a call was refused. The numbers are those by which the reasons are known outside.
#[derive(Clone, Copy, PartialEq, Eq, Debug)]
pub enum Reason {
    FieldMissing = 1,
    UnexpectedTag = 2,
    WrongLength = 3,
    ValueCut = 4,
    ValueOutOfRange = 5,
    SurplusBytes = 6,
    FieldsConflict = 7,
    BufferTooShort = 8,
    WordLength = 9,
    ReservedBit = 10,
    SeveralTransfers = 11,
    ValueOutsideLimits = 12,
    RunTooLong = 13,
    TimeTooLong = 14,
    LevelsOutOfRange = 15,
    ImageTooShort = 16,
}

impl Reason {
    // Public by this name, and a conversion to u8 would not say what its number is.
    pub fn number(self) -> u8
        ensures { result ≡ number_of self }
    {
        self as u8
    }

    pub fn layer(self) -> Layer
        ensures { result ≡ layer_of self }
    {
        match self {
            Reason::FieldMissing
            | Reason::UnexpectedTag
            | Reason::WrongLength
            | Reason::ValueCut
            | Reason::ValueOutOfRange
            | Reason::SurplusBytes
            | Reason::FieldsConflict
            | Reason::BufferTooShort => Layer::Record,
            Reason::WordLength
            | Reason::ReservedBit
            | Reason::SeveralTransfers
            | Reason::ValueOutsideLimits => Layer::Word,
            Reason::RunTooLong | Reason::TimeTooLong | Reason::LevelsOutOfRange => Layer::Run,
            Reason::ImageTooShort => Layer::Image,
        }
    }
}

// The reason for a person to read.
impl fmt::Display for Reason {
    ghost output = { λ r. Some (words_of r) };

    fn fmt<W: fmt::Write>(&self, f: &mut fmt::Formatter<W>) -> fmt::Result {
        f.write_str(match self {
            Reason::FieldMissing => "fewer than three bytes are left where a field must begin",
            Reason::UnexpectedTag => "the tag is not the next one",
            Reason::WrongLength => "the length is not that of the tag",
            Reason::ValueCut => "fewer bytes are left than the length says",
            Reason::ValueOutOfRange => "the value is outside its list or range",
            Reason::SurplusBytes => "bytes follow the last field",
            Reason::FieldsConflict => "the field conflicts with another",
            Reason::BufferTooShort => "the buffer is too short for a written record",
            Reason::WordLength => "a control word has six bytes",
            Reason::ReservedBit => "a reserved bit is set",
            Reason::SeveralTransfers => "several transfer bits are set",
            Reason::ValueOutsideLimits => "the value is outside the counter's limits",
            Reason::RunTooLong => "a run has at most 4,096 samples",
            Reason::TimeTooLong => "the sample's time is above 1,000,000 microseconds",
            Reason::LevelsOutOfRange => "the sample's level byte is above 7",
            Reason::ImageTooShort => "fewer than ten bytes of the image are left from the place on",
        })
    }
}

// A call that was refused, and so changed nothing. What the place counts depends on the reason:
// bytes of a record, a word or an image, or samples of a run.
#[derive(Clone, Copy, PartialEq, Eq, Debug)]
pub struct Refusal {
    reason: Reason,
    place: usize,
}

impl Refusal {
    pub fn new(reason: Reason, place: usize) -> Refusal
        ensures { result ≡ refusal reason place }
    {
        Refusal { reason, place }
    }

    pub fn number(self) -> u8
        ensures { result ≡ number_of self.reason }
    {
        self.reason.number()
    }

    pub fn layer(self) -> Layer
        ensures { result ≡ layer_of self.reason }
    {
        self.reason.layer()
    }

    pub fn place(self) -> usize
        ensures { result ≡ self.place }
    {
        self.place
    }

    pub fn in_words(self) -> InWords
        ensures { result.refusal ≡ self }
    {
        InWords { refusal: self }
    }
}

// `refused NUMBER LAYER PLACE`, for a program to read.
impl fmt::Display for Refusal {
    ghost output = { λ r. Some (refused_line r) };

    fn fmt<W: fmt::Write>(&self, f: &mut fmt::Formatter<W>) -> fmt::Result {
        let number = self.number();
        let layer = self.layer();
        let place = self.place;
        write!(f, "refused {number} {layer} {place}")
    }
}

impl Error for Refusal {}

// The same line with the reason in words behind it, for a person to read.
#[derive(Clone, Copy)]
pub struct InWords {
    refusal: Refusal,
}

impl fmt::Display for InWords {
    ghost output = { λ w. Some (explained_line w.refusal) };

    fn fmt<W: fmt::Write>(&self, f: &mut fmt::Formatter<W>) -> fmt::Result {
        let refusal = self.refusal;
        let reason = refusal.reason;
        write!(f, "{refusal}: {reason}")
    }
}

#[cfg(test)]
mod tests {
    use super::*;
    use std::test::Fail;

    #[test]
    fn numbers_and_layers(rt: HostRuntime) {
        let reasons = [
            (Reason::FieldMissing, Layer::Record),
            (Reason::UnexpectedTag, Layer::Record),
            (Reason::WrongLength, Layer::Record),
            (Reason::ValueCut, Layer::Record),
            (Reason::ValueOutOfRange, Layer::Record),
            (Reason::SurplusBytes, Layer::Record),
            (Reason::FieldsConflict, Layer::Record),
            (Reason::BufferTooShort, Layer::Record),
            (Reason::WordLength, Layer::Word),
            (Reason::ReservedBit, Layer::Word),
            (Reason::SeveralTransfers, Layer::Word),
            (Reason::ValueOutsideLimits, Layer::Word),
            (Reason::RunTooLong, Layer::Run),
            (Reason::TimeTooLong, Layer::Run),
            (Reason::LevelsOutOfRange, Layer::Run),
            (Reason::ImageTooShort, Layer::Image),
        ];
        for (i, (reason, layer)) in reasons.iter().enumerate() {
            let refusal = Refusal::new(*reason, i);
            assert_eq!(rt; usize::from(refusal.number()), i.saturating_add(1));
            assert_eq!(rt; refusal.layer(), *layer);
            assert_eq!(rt; refusal.place(), i);
        }
    }

    #[test]
    fn both_forms(rt: HostRuntime) -> Result<(), Fail> {
        let refusal = Refusal::new(Reason::WrongLength, 12);
        let words = refusal.in_words();
        assert_eq!(rt;
            refusal.to_string(rt.alloc())?.as_str(),
            "refused 3 record 12"
        );
        assert_eq!(rt;
            words.to_string(rt.alloc())?.as_str(),
            "refused 3 record 12: the length is not that of the tag"
        );
        Ok(())
    }
}
