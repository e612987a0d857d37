// The levels of the lines A, B and DI.
ghost use Rattle.std.specs.Prelude.{◌≡◌};
ghost use Rattle.encoder.specs.Lines.{invert_b, both_differ, LevelsOf};

// The levels of A and B; true is high.
#[derive(Clone, Copy, PartialEq, Eq, Debug)]
pub struct Pair {
    pub a: bool,
    pub b: bool,
}

impl Pair {
    pub fn with_b_inverted(self) -> Pair
        ensures { result ≡ invert_b self }
    {
        Pair {
            a: self.a,
            b: !self.b,
        }
    }

    // Both lines changed between two samples, so at least one step was missed.
    pub fn both_differ(self, other: Pair) -> bool
        ensures { result ≡ both_differ self other }
    {
        self.a != other.a && self.b != other.b
    }
}

// All three levels of a sample.
#[derive(Clone, Copy, PartialEq, Eq, Debug)]
pub struct Levels {
    pub pair: Pair,
    pub di: bool,
}

// A byte with a bit set beside the three levels.
#[derive(Clone, Copy, PartialEq, Eq, Debug)]
pub struct NoLevelByte;

impl TryFrom<u8> for Levels {
    type Error = NoLevelByte;

    ghost try_from_gives = { LevelsOf };

    // A is bit 0, B bit 1, DI bit 2, and no other bit may be set.
    fn try_from(byte: u8) -> Result<Levels, NoLevelByte> {
        if byte > 7 {
            return Err(NoLevelByte);
        }
        let pair = Pair {
            a: byte % 2 == 1,
            b: byte / 2 % 2 == 1,
        };
        Ok(Levels {
            pair,
            di: byte / 4 % 2 == 1,
        })
    }
}
