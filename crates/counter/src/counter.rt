// The interface of a counter.
ghost use Rattle.std.specs.Prelude.{◌≡◌, is_ok};
ghost use Rattle.counter.specs.declared.meaning.Meaning.{Meaning};
ghost use Rattle.counter.specs.Counting.{Sound, up, up_crossing, down, down_crossing, put, accepts, offered};

use crate::meaning::{Crossing, Meaning, OutsideLimits};

// Whoever brings a counter shows that it means what it tells, and that its changes follow the
// meaning; everything above is proved from that alone. By a rule of the project (docs/DECISIONS.md)
// each kind is a type of its own that changes its reading and load in place, so `put`, and `set_load`
// of the two kinds without an end value, stand once in each.
pub trait Counter {
    ghost means: { Self → Meaning };

    // All that it means, as plain values.
    fn meaning(&self) -> Meaning
        ensures { result ≡ means self.now };

    // One pulse up.
    fn up(&mut self) -> Option<Crossing>
        ensures moved { means self.new ≡ up (means self.old) }
        ensures crossing { result ≡ up_crossing (means self.old) };

    // One pulse down.
    fn down(&mut self) -> Option<Crossing>
        ensures moved { means self.new ≡ down (means self.old) }
        ensures crossing { result ≡ down_crossing (means self.old) };

    // A new load, accepted exactly within the limits.
    fn set_load(&mut self, load: i32) -> Result<(), OutsideLimits>
        ensures changed { means self.new ≡ offered (means self.old) load }
        ensures accepted { is_ok result ≡ accepts (means self.old) load };

    // The reading becomes the load.
    fn put(&mut self)
        ensures { means self.new ≡ put (means self.old) };

    ghost sound: { (c : Self) → Sound (means c) };
}
