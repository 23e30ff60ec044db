// The run list: a block of 64 places, of which only the changes are kept, the places where a bit differs from the one
// before. Every call goes from change to change.

#![tactic(auto)]

ghost use Rattle.std.specs.Prelude.{◌≡◌, ℕ, ◌+◌, ◌<◌, ◌≤◌, Bool, true, false, ◌&&◌, ◌||◌};
ghost use Rattle.block.specs.Rows.{tab, bit_of};
ghost use Rattle.block.specs.Calls.{none_row, Least};
ghost use Rattle.block.specs.Sums.{over};
ghost use Rattle.runlist.specs.Changes.{Agree, KeepsChanges};
ghost use Rattle.runlist.specs.Lists.{lit};
ghost use Rattle.runlist.specs.Merged.{Computes, merged};
ghost use Rattle.block.proofs.Rows.{length-tab};
ghost use Rattle.std.proofs.Common.{rules};

use block::Block;
use builder::Builder;
use list::PLACES;
use runs::{Cursor, is_odd};

mod builder;
mod list;
mod runs;

pub use list::RunList;

const GROUPS: usize = PLACES / 8;

// The byte with ones at its places from `low` up to `high`.
fn with_ones(byte: u8, low: usize, high: usize) -> u8
    requires { (low ≤ high) × (high ≤ 8) }
    ensures within { (j : ℕ) → low ≤ j → j < high → bit_of result j ≡ true }
    ensures below { (j : ℕ) → j < low → bit_of result j ≡ bit_of byte j }
    ensures above { (j : ℕ) → high ≤ j → bit_of result j ≡ bit_of byte j }
{
    let ones = (1u16 << high) - (1u16 << low);
    byte | ones as u8
}

impl RunList {
    // The first place from `place` on that holds a one: the place itself, or the change that ends its zeros.
    fn next_one(&self, place: usize) -> Option<usize>
        requires { place < 64 }
        ensures { Least (lit self.now) place 64 result }
    {
        let run = Cursor::to(self, place).run();
        if run.bit() {
            return Some(place);
        }
        (run.end < PLACES).then_some(run.end)
    }

    // Eight places from `group` on as a byte. The steps are runs, as in `Builder::copy`.
    fn byte_at(&self, group: usize) -> u8
        requires { group + 8 ≤ 64 }
        ensures { (j : ℕ) → j < 8 → bit_of result j ≡ lit self.now (group + j) }
    {
        let mut cursor = Cursor::to(self, group);
        let mut byte = 0;
        while cursor.place < group + 8 {
            let run = cursor.run();
            let stop = run.end.min(group + 8);
            if run.bit() {
                byte = with_ones(byte, run.place - group, stop - group);
            }
            cursor = run.until(stop);
        }
        byte
    }
}

// The carry behind a place; a second place with the same two bits leaves it as it is.
fn carried(x: bool, y: bool, carry: bool) -> bool
    ensures { result ≡ ((x && y) || ((x || y) && carry)) }
{
    (x & y) | ((x | y) & carry)
}

// What `make` makes of each place's two bits and of the carry of their sum into it. Goes from the next change of either
// list to the next. Between them the two bits stay as they are, and the carry is settled behind the first place: so
// each stretch gives one bit for that place and one for the rest.
fn merge<F: Fn(bool, bool, bool) -> bool>(
    a: &RunList,
    b: &RunList,
    enter: bool,
    make: F,
) -> (RunList, bool)
    requires { F.IsAlwaysCallable make }
    ensures row { (f : Bool → Bool → Bool → Bool) → Computes (F.post make) f → Agree 64 (lit result.0) (merged f (lit a.now) (lit b.now) enter) }
    ensures fallen { result.1 ≡ over (lit a.now) (lit b.now) enter 64 }
{
    let mut left = Cursor::to(a, 0);
    let mut right = Cursor::to(b, 0);
    let mut builder = Builder::new();
    let mut carry = enter;
    while builder.place < PLACES {
        let left_run = left.run();
        let right_run = right.run();
        let end = left_run.end.min(right_run.end);
        let x = left_run.bit();
        let y = right_run.bit();
        let settled = carried(x, y, carry);
        let second = builder.place + 1;
        builder.push(make(x, y, carry), second);
        builder.push(make(x, y, settled), end);
        carry = settled;
        left = left_run.until(end);
        right = right_run.until(end);
    }
    (builder.list, carry)
}

impl Block for RunList {
    ghost places = { 64 };

    ghost row = { λ r. tab 64 (lit r) };

    ghost whole_bytes = { Prim.search rules };

    ghost some = { Prim.search rules };

    ghost wide = { λ r. length-tab 64 (lit r) };

    fn width() -> usize {
        PLACES
    }

    // No change.
    fn none() -> RunList
        ensures row { tab 64 (lit result) ≡ none_row 64 }
        ensures count { result.count ≡ 0 }
    {
        RunList {
            at: [0; PLACES],
            count: 0,
        }
    }

    // One change, at place 0.
    fn all() -> RunList {
        RunList {
            at: [0; PLACES],
            count: 1,
        }
    }

    fn and(self, other: RunList) -> RunList {
        merge(&self, &other, false, |x, y, _| x & y).0
    }

    fn or(self, other: RunList) -> RunList {
        merge(&self, &other, false, |x, y, _| x | y).0
    }

    fn xor(self, other: RunList) -> RunList {
        merge(&self, &other, false, |x, y, _| x ^ y).0
    }

    // Merged with a list that has no change.
    fn not(self) -> RunList {
        merge(&self, &RunList::none(), false, |x, _, _| !x).0
    }

    // Each change goes one place on, behind the entering bit; the one that would stand at 64 is left out.
    fn advance(self, enter: bool) -> (RunList, bool) {
        let mut builder = Builder::new();
        builder.push(enter, 1);
        builder.copy(Cursor::to(&self, 0), PLACES - 1);
        (builder.list, is_odd(usize::from(self.count)))
    }

    fn add(self, other: RunList, enter: bool) -> (RunList, bool) {
        merge(&self, &other, enter, |x, y, carry| x ^ y ^ carry)
    }

    // The changes before the group, those of the byte, and those behind the group.
    fn put(self, k: usize, byte: u8) -> RunList {
        if k >= GROUPS {
            return self;
        }
        let group = 8 * k;
        let mut builder = Builder::new();
        builder.copy(Cursor::to(&self, 0), group);
        builder.push_byte(byte);
        builder.copy(Cursor::to(&self, group + 8), PLACES);
        builder.list
    }

    fn read(self, k: usize) -> u8 {
        if k >= GROUPS {
            return 0;
        }
        self.byte_at(8 * k)
    }

    fn first(self, i: usize) -> Option<usize> {
        if i >= PLACES {
            return None;
        }
        self.next_one(i)
    }
}

// What a list keeps of its bits is where they change, and nothing else.
pub fn keeps_changes()
    ensures { KeepsChanges }
{}

#[cfg(test)]
mod tests {
    use super::*;

    // Ones at the even places.
    fn evens() -> RunList {
        let mut block = RunList::none();
        for k in 0..GROUPS {
            block = block.put(k, 0x55);
        }
        block
    }

    #[test]
    fn only_changes_are_kept(rt: HostRuntime) {
        assert_eq!(rt; RunList::none().count, 0);
        assert_eq!(rt; RunList::all().count, 1);
        assert_eq!(rt; evens().count, 64);
        assert_eq!(rt; evens().or(evens().not()).count, 1);
        assert_eq!(rt; evens().xor(evens()).count, 0);
    }

    #[test]
    fn a_carry_goes_through_and_falls_out(rt: HostRuntime) {
        let (sum, out) = RunList::all().add(RunList::none(), true);
        assert_eq!(rt; sum.count, 0);
        assert!(rt; out);
        let (odds, out) = evens().add(evens(), false);
        assert_eq!(rt; odds.read(7), 0xaa);
        assert!(rt; !out);
        let (moved, out) = odds.advance(true);
        assert_eq!(rt; moved.read(0), 0x55);
        assert!(rt; out);
    }

    #[test]
    fn groups_and_ones_past_the_end(rt: HostRuntime) {
        let block = RunList::none().put(2, 0x18);
        assert_eq!(rt; block.first(0), Some(19));
        assert_eq!(rt; block.first(21), None);
        assert_eq!(rt; block.first(64), None);
        assert_eq!(rt; block.read(8), 0);
        assert_eq!(rt; block.put(8, 0xff).count, block.count);
    }
}
