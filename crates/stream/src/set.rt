// Sets of byte values.
ghost use Rattle.std.specs.Prelude.{◌≡◌, ℕ, ◌<◌, false, ◌||◌, ◌==◌};
ghost use Rattle.stream.specs.Sets.{has};

// A set of byte values: value v is in it where bit v is one, the values from 128 on in the high half.
#[derive(Clone, Copy, PartialEq, Eq, Debug)]
pub struct ByteSet {
    pub low: u128,
    pub high: u128,
}

impl ByteSet {
    // The empty set.
    pub fn none() -> ByteSet
        ensures { (v : ℕ) → v < 256 → has result v ≡ false }
    {
        ByteSet { low: 0, high: 0 }
    }

    // The set with one value more.
    pub fn with(self, byte: u8) -> ByteSet
        ensures { (v : ℕ) → v < 256 → has result v ≡ (v == byte || has self v) }
    {
        if byte < 128 {
            return ByteSet {
                low: self.low | (1 << byte),
                ..self
            };
        }
        ByteSet {
            high: self.high | (1 << (byte - 128)),
            ..self
        }
    }
}
