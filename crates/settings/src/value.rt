// The values of fields, as bytes.
ghost use Rattle.std.specs.Prelude.{◌≡◌, ℕ, List, [], ◌∷◌, length, Option};
ghost use Rattle.settings.specs.Values.{coded, number_read, number_written, end_read, output_read, output_written};

use crate::checks::LEAST_END;
use crate::choices::{Behaviour, Output};
use crate::coded::Coded;

// A value that stands in a field of the record.
pub trait Value: Sized {
    ghost reads: { List ℕ → Option Self };

    ghost writes: { Self → List ℕ };

    // There is none where the bytes are outside the field's list or range.
    fn from_bytes(bytes: &[u8]) -> Option<Self>
        ensures { result ≡ reads bytes.now };

    // Fills a part that is as long as the value.
    fn write(self, part: &mut [u8])
        requires { length part.old ≡ length (writes self) }
        ensures { part.new ≡ writes self };
}

impl<C: Coded> Value for C {
    ghost reads = { coded C.code C.all };

    ghost writes = { λ v. C.code v ∷ [] };

    #[tactic(auto, unfolding(crate::specs::Values::coded))]
    fn from_bytes(bytes: &[u8]) -> Option<C> {
        let [code] = bytes else {
            return None;
        };
        C::from_code(*code)
    }

    fn write(self, part: &mut [u8]) {
        part.copy_from_slice(&[self.code()]);
    }
}

impl Value for i32 {
    ghost reads = { number_read };

    ghost writes = { number_written };

    fn from_bytes(bytes: &[u8]) -> Option<i32> {
        bytes.try_into().ok().map(i32::from_be_bytes)
    }

    fn write(self, part: &mut [u8]) {
        part.copy_from_slice(&self.to_be_bytes());
    }
}

// An end value, as read from its field: at least 2.
#[derive(Clone, Copy)]
pub struct End(pub i32);

impl Value for End {
    ghost reads = { end_read };

    ghost writes = { λ v. number_written v.0 };

    fn from_bytes(bytes: &[u8]) -> Option<End> {
        let end = i32::from_bytes(bytes)?;
        (end >= LEAST_END).then_some(End(end))
    }

    fn write(self, part: &mut [u8]) {
        self.0.write(part);
    }
}

impl Value for Output {
    ghost reads = { output_read };

    ghost writes = { output_written };

    #[tactic(auto, unfolding(crate::specs::Values::coded))]
    fn from_bytes(bytes: &[u8]) -> Option<Output> {
        let [behaviour, hysteresis, duration, comparison @ ..] = bytes else {
            return None;
        };
        let output = Output {
            behaviour: Behaviour::from_code(*behaviour)?,
            hysteresis: *hysteresis,
            duration: *duration,
            comparison: i32::from_bytes(comparison)?,
        };
        output.duration_fits().then_some(output)
    }

    fn write(self, part: &mut [u8]) {
        let code = self.behaviour.code();
        let [a, b, c, d] = self.comparison.to_be_bytes();
        part.copy_from_slice(&[code, self.hysteresis, self.duration, a, b, c, d]);
    }
}
