// The measuring wheel: what one reading is worth in cable.
ghost use Rattle.std.specs.Prelude.{◌<◌};

// The circumference in micrometres, and the encoder's lines in one turn; neither is 0.
#[derive(Clone, Copy)]
pub struct Wheel {
    pub circumference: u32,
    pub lines: u32,
    ghost turns: { 0 < circumference },
    ghost counts: { 0 < lines },
}
