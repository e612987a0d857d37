// A capture of the encoder's lines as text: the wheel on the first line, then one sample a line. A record may stand before them.
ghost use Rattle.std.specs.Prelude.{◌≡◌, ℕ, Some, MatchResult};
ghost use Rattle.winding.specs.declared.capture.LineFault.TheVariants.{NotTwoNumbers, LevelsOutOfRange, NoRoom};
ghost use Rattle.winding.specs.Capture.{fault_words, bears_data, RecordLine, TwoNumbers, sample_of, Answered, Samples, Wheels, WindsLine};
ghost use Rattle.winding.specs.Winding.{state_of};

use crate::tally::TallyFull;
use crate::wheel::Wheel;
use crate::winding::{Sample, Winding};
use counter::Counter;
use encoder::{Evaluation, Levels, NoLevelByte};
use std::error::Error;
use std::fmt;
use std::num::ParseIntError;

// What is wrong with a line of a capture.
#[derive(Clone, Copy, PartialEq, Eq, Debug)]
pub enum LineFault {
    NotTwoNumbers,
    ZeroInWheel,
    TimeTooLong,
    LevelsOutOfRange,
    NoRoom,
}

impl From<TallyFull> for LineFault {
    ghost from_gives = { λ _ r. r ≡ NoRoom };

    fn from(_full: TallyFull) -> LineFault {
        LineFault::NoRoom
    }
}

impl From<ParseIntError> for LineFault {
    ghost from_gives = { λ _ r. r ≡ NotTwoNumbers };

    fn from(_error: ParseIntError) -> LineFault {
        LineFault::NotTwoNumbers
    }
}

impl From<NoLevelByte> for LineFault {
    ghost from_gives = { λ _ r. r ≡ LevelsOutOfRange };

    fn from(_byte: NoLevelByte) -> LineFault {
        LineFault::LevelsOutOfRange
    }
}

impl fmt::Display for LineFault {
    ghost output = { λ fault. Some (fault_words fault) };

    fn fmt<W: fmt::Write>(&self, f: &mut fmt::Formatter<W>) -> fmt::Result {
        f.write_str(match self {
            LineFault::NotTwoNumbers => "not two decimal numbers with one blank between",
            LineFault::ZeroInWheel => "the circumference and the lines per turn must be above 0",
            LineFault::TimeTooLong => "the time is above 1,000,000 microseconds",
            LineFault::LevelsOutOfRange => "the level byte is above 7",
            LineFault::NoRoom => "the tally has no room for another sample",
        })
    }
}

impl Error for LineFault {}

// Empty lines and comments bear no data.
pub fn bears_data(line: &str) -> bool
    ensures { result ≡ bears_data line.now }
{
    !matches!(line.as_bytes(), [] | [b'#', ..])
}

// The digits on a line that holds a part of the parameter record.
pub fn record_digits(line: &str) -> Option<&[u8]>
    ensures { RecordLine line.now result }
{
    line.as_bytes().strip_prefix(b"record ")
}

fn two_numbers(line: &str) -> Result<(u32, u32), LineFault>
    ensures { MatchResult result (λ p. TwoNumbers line.now p.0 p.1) (λ e. (e ≡ NotTwoNumbers) × ((a b : ℕ) → TwoNumbers line.now a b → ⊥)) }
{
    let (first, second) = line.split_once(' ').ok_or(LineFault::NotTwoNumbers)?;
    Ok((first.parse()?, second.parse()?))
}

// The wheel line: the circumference in micrometres and the lines per turn.
pub fn read_wheel(line: &str) -> Result<Wheel, LineFault>
    ensures { Answered Wheels line.now result }
{
    let (circumference, lines) = two_numbers(line)?;
    Wheel::new(circumference, lines)
}

// A sample's line: the microseconds since the sample before and the level byte.
fn read_sample(line: &str) -> Result<Sample, LineFault>
    ensures { Answered Samples line.now result }
{
    let (time, byte) = two_numbers(line)?;
    Sample::new(time, byte)
}

// Winds one line. A line that cannot be wound changes nothing.
pub fn wind_line<E: Evaluation, C: Counter>(
    winding: &mut Winding<E, C>,
    line: &str,
) -> Result<(), LineFault>
    ensures { WindsLine (E.Evaluation.answers winding.old.evaluation) line.now (state_of C.Counter.means winding.old) (state_of C.Counter.means winding.new) result }
{
    let sample = read_sample(line)?;
    winding.wind(sample)?;
    Ok(())
}

impl Wheel {
    pub fn new(circumference: u32, lines: u32) -> Result<Wheel, LineFault>
        ensures { Wheels circumference lines result }
    {
        if circumference == 0 || lines == 0 {
            return Err(LineFault::ZeroInWheel);
        }
        Ok(Wheel {
            circumference,
            lines,
        })
    }
}

impl Sample {
    // A time in microseconds and a level byte, as a capture has them.
    pub fn new(time: u32, byte: u32) -> Result<Sample, LineFault>
        ensures { result ≡ sample_of time byte }
    {
        if time > 1_000_000 {
            return Err(LineFault::TimeTooLong);
        }
        let byte = u8::try_from(byte).map_err(|_| LineFault::LevelsOutOfRange)?;
        Ok(Sample {
            elapsed: time,
            levels: Levels::try_from(byte)?,
        })
    }
}
