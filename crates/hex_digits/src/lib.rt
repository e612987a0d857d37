// Bytes written as text: two hexadecimal digits for each, the higher first.
#![tactic(auto)]

ghost use Rattle.std.specs.Prelude.{◌≡◌, Some, vec_items};
ghost use Rattle.hex_digits.specs.Hex.{digit_value, byte_value, fault_words, Reads};
ghost use Rattle.hex_digits.specs.declared.HexFault.TheVariants.{NoMemory};

use std::alloc::{AllocFailed, Global};
use std::error::Error;
use std::fmt;

// Why digits are not read.
#[derive(Clone, Copy, PartialEq, Eq, Debug)]
pub enum HexFault {
    NotHex,
    NoMemory,
}

impl fmt::Display for HexFault {
    ghost output = { λ fault. Some (fault_words fault) };

    fn fmt<W: fmt::Write>(&self, f: &mut fmt::Formatter<W>) -> fmt::Result {
        f.write_str(match self {
            HexFault::NotHex => "not pairs of hexadecimal digits",
            HexFault::NoMemory => "the memory does not hold the bytes",
        })
    }
}

impl Error for HexFault {}

impl<T: Drop> From<AllocFailed<T>> for HexFault {
    ghost from_gives = { λ _ fault. fault ≡ NoMemory };

    fn from(_failed: AllocFailed<T>) -> Self {
        Self::NoMemory
    }
}

// The value of a digit. By ranges of bytes: the library's `to_digit` goes from a char to a u32, and
// both would have to be converted here.
fn digit(c: u8) -> Option<u8>
    ensures { result ≡ digit_value c }
{
    match c {
        b'0'..=b'9' => Some(c - b'0'),
        b'a'..=b'f' => Some(c - b'a' + 10),
        b'A'..=b'F' => Some(c - b'A' + 10),
        _ => None,
    }
}

// The byte of two digits.
fn byte(high: u8, low: u8) -> Option<u8>
    ensures { result ≡ byte_value (digit_value high) (digit_value low) }
{
    Some(digit(high)? * 16 + digit(low)?)
}

// The bytes that digits stand for, if these are digits and come in pairs.
#[tactic(auto, using(crate::proofs::Digits::step))]
pub fn from_hex(heap: Global, digits: &[u8]) -> Result<Vec<u8>, HexFault>
    ensures { Reads vec_items digits.now result }
{
    let mut bytes = Vec::new(heap);
    let mut rest = digits;
    // Pair by pair, since an odd digit may be left over. With `chunks_exact` or `as_chunks` the proof
    // was tried and did not close.
    while let [high, low, after @ ..] = rest {
        bytes.push(byte(*high, *low).ok_or(HexFault::NotHex)?)?;
        rest = after;
    }
    match rest {
        [] => Ok(bytes),
        _ => Err(HexFault::NotHex),
    }
}

#[cfg(test)]
mod tests {
    use super::*;
    use std::test::Fail;

    #[test]
    fn pairs_of_digits(rt: HostRuntime) -> Result<(), Fail> {
        let texts: [(&[u8], &[u8]); 4] = [
            (b"", b""),
            (b"00", b"\x00"),
            (b"0aF9", b"\x0a\xf9"),
            (b"ffFF90", b"\xff\xff\x90"),
        ];
        for (digits, bytes) in texts {
            let read = from_hex(rt.alloc(), digits)?;
            assert_eq!(rt; read.as_slice(), bytes);
        }
        Ok(())
    }

    #[test]
    fn no_pairs_of_digits(rt: HostRuntime) {
        let texts: [&[u8]; 8] = [b"0", b"000", b"0g", b"/0", b":0", b"@0", b"`0", b"G0"];
        for digits in texts {
            assert_eq!(rt; from_hex(rt.alloc(), digits).err(), Some(HexFault::NotHex));
        }
    }
}
