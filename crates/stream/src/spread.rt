// Eight bytes in one number, turned so that bit n of byte j and bit j of byte n change places.
ghost use Rattle.std.specs.Prelude.{◌≡◌, ℕ, ◌+◌, ◌*◌, ◌<◌};
ghost use Rattle.block.specs.Rows.{bit_of};
ghost use Rattle.stream.specs.Swaps.{swapped};

// Each place of the mask changes places with the one `step` places on.
fn swap(x: u64, step: u32, mask: u64) -> u64
    requires { step < 64 }
    ensures { (p : ℕ) → p < 64 → bit_of result p ≡ swapped mask step (bit_of x) p }
{
    let moved = (x ^ (x >> step)) & mask;
    x ^ moved ^ (moved << step)
}

pub(crate) fn spread(x: u64) -> u64
    ensures { (j n : ℕ) → j < 8 → n < 8 → bit_of result (8 * j + n) ≡ bit_of x (8 * n + j) }
{
    let pairs = swap(x, 7, 0x00aa_00aa_00aa_00aa);
    let fours = swap(pairs, 14, 0x0000_cccc_0000_cccc);
    swap(fours, 28, 0x0000_0000_f0f0_f0f0)
}
