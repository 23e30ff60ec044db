// The sets of a form's leaves. A line feed is in none of them, even when listed or quoted.
ghost use Rattle.std.specs.Prelude.{◌≡◌, ℕ, ◌<◌, map};
ghost use Rattle.form.specs.Meaning.{inside as inside_of, listed as listed_of, outside as outside_of};
ghost use Rattle.form.specs.Positions.{only};
ghost use Rattle.stream.specs.Sets.{has};
ghost use Rattle.tree.specs.Stands.{item};

use crate::sets::{complement, range, union, without};
use limits::LINE_FEED;
use stream::ByteSet;
use tree::node::Range;

// The values that are in a range.
fn listed(ranges: &[Range]) -> ByteSet
    ensures { (v : ℕ) → v < 256 → has result v ≡ listed_of (map item ranges.now) v }
{
    let mut all = ByteSet::none();
    for r in ranges {
        all = union(all, range(r.low, r.high));
    }
    all
}

// The bytes that a set takes.
pub fn inside(ranges: &[Range]) -> ByteSet
    ensures { (v : ℕ) → v < 256 → has result v ≡ inside_of (map item ranges.now) v }
{
    without(listed(ranges), LINE_FEED)
}

// The bytes that an out takes.
pub fn outside(ranges: &[Range]) -> ByteSet
    ensures { (v : ℕ) → v < 256 → has result v ≡ outside_of (map item ranges.now) v }
{
    without(complement(listed(ranges)), LINE_FEED)
}

// The byte that a byte of a quote takes.
pub fn quoted(byte: u8) -> ByteSet
    ensures { (v : ℕ) → v < 256 → has result v ≡ only byte v }
{
    without(range(byte, byte), LINE_FEED)
}
