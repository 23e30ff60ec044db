// The machine word: a block of 64 places in one number.

#![tactic(auto)]

ghost use Rattle.std.specs.Prelude.{◌^◌, ◌<◌};
ghost use Rattle.block.specs.Rows.{row_of};
ghost use Rattle.block.proofs.Numbers.{length_row};
ghost use Rattle.std.proofs.Common.{rules};

use block::Block;

const PLACES: usize = 64;

const GROUPS: usize = PLACES / 8;

#[derive(Clone, Copy, PartialEq, Eq, Debug)]
pub struct Word {
    pub bits: u64,
    ghost fits: { bits < 2 ^ 64 },
}

#[tactic(auto, using(crate::proofs::Words::row_laws))]
impl Block for Word {
    ghost places = { 64 };

    ghost row = { λ b. row_of 64 b.bits };

    ghost whole_bytes = { Prim.search rules };

    ghost some = { Prim.search rules };

    ghost wide = { λ b. length_row 64 b.bits };

    fn width() -> usize {
        PLACES
    }

    fn none() -> Word {
        Word { bits: 0 }
    }

    fn all() -> Word {
        Word { bits: u64::MAX }
    }

    fn and(self, other: Word) -> Word {
        Word {
            bits: self.bits & other.bits,
        }
    }

    fn or(self, other: Word) -> Word {
        Word {
            bits: self.bits | other.bits,
        }
    }

    fn xor(self, other: Word) -> Word {
        Word {
            bits: self.bits ^ other.bits,
        }
    }

    fn not(self) -> Word {
        Word { bits: !self.bits }
    }

    fn advance(self, enter: bool) -> (Word, bool) {
        let out = self.bits >> 63 == 1;
        (
            Word {
                bits: (self.bits << 1) | u64::from(enter),
            },
            out,
        )
    }

    fn add(self, other: Word, enter: bool) -> (Word, bool) {
        let (bits, out) = self.bits.carrying_add(other.bits, enter);
        (Word { bits }, out)
    }

    fn put(self, k: usize, byte: u8) -> Word {
        if k >= GROUPS {
            return self;
        }
        let s = 8 * k;
        Word {
            bits: (self.bits & !(0xff << s)) | (u64::from(byte) << s),
        }
    }

    fn read(self, k: usize) -> u8 {
        if k >= GROUPS {
            return 0;
        }
        ((self.bits >> (8 * k)) & 0xff) as u8
    }

    // The places below `i` are masked off; the next one is found from the count of trailing zeros.
    fn first(self, i: usize) -> Option<usize> {
        if i >= PLACES {
            return None;
        }
        let rest = self.bits & (u64::MAX << i);
        if rest == 0 {
            return None;
        }
        Some(rest.trailing_zeros() as usize)
    }
}
