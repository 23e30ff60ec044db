// The doubled kind: two blocks of any lawful kind behind one another, as one block of twice the width.
//
// It is lawful again, so it can be doubled again without limit. Where its width passes 65,528 the answered width stays
// there, and put, read and first follow it.

#![tactic(auto)]

ghost use Rattle.std.specs.Prelude.{◌≡◌, ◌+◌, Bool, List, ◌++◌, length};
ghost use Rattle.block.specs.Calls.{First};
ghost use Rattle.doubled.specs.Halves.{Joined, Lies, Place};
ghost use Rattle.std.proofs.Common.{ap₂, ◌∙◌, rules};
ghost use Rattle.block.proofs.Rows.{length_joined};

use block::{Block, WIDEST};

#[derive(Clone, Copy, PartialEq, Eq, Debug)]
pub struct Doubled<B> {
    pub early: B,
    pub late: B,
}

// The half that a group of the whole lies in, with the group's number there.
enum Half {
    Early(usize),
    Late(usize),
}

// Two blocks behind one another.
fn join<B: Block>(early: B, late: B) -> Doubled<B>
    ensures { Joined B.Block.places (B.Block.row early) (B.Block.row late) (B.Block.row result.early ++ B.Block.row result.late) }
{
    Doubled { early, late }
}

// Where the group `k` of the whole lies, or none where that is beyond the answered width. The second test is the
// whole's own: a group that the later half serves may lie beyond the whole's answered width.
fn find<B: Block>(k: usize) -> Option<Half>
    ensures { Lies B.Block.places k result }
{
    let half = B::width() / 8;
    if k < half {
        return Some(Half::Early(k));
    }
    (k < Doubled::<B>::width() / 8).then(|| Half::Late(k - half))
}

// The place `p` of the later half as a place of the whole, or none where that is beyond the answered width.
fn behind<B: Block>(p: usize) -> Option<usize>
    ensures { Place B.Block.places p result }
{
    let q = B::width().saturating_add(p);
    (q < Doubled::<B>::width()).then_some(q)
}

// The first one from the place `i` of the whole on, where the earlier half has none.
fn first_late<B: Block>(late: B, i: usize) -> Option<usize>
    ensures { (early : List Bool) → length early ≡ B.Block.places → First B.Block.places early i None → First (B.Block.places + B.Block.places) (early ++ B.Block.row late) i result }
{
    let p = late.first(i.saturating_sub(B::width()))?;
    behind::<B>(p)
}

impl<B: Block> Block for Doubled<B> {
    ghost places = { B.Block.places + B.Block.places };

    ghost row = { λ d. B.Block.row d.early ++ B.Block.row d.late };

    ghost whole_bytes = { Prim.search rules };

    ghost some = { Prim.search rules };

    ghost wide = { λ d. length_joined (B.Block.row d.early) (B.Block.row d.late) ∙ ap₂ ◌+◌ (B.Block.wide d.early) (B.Block.wide d.late) };

    fn width() -> usize {
        (2 * B::width()).min(WIDEST)
    }

    fn none() -> Doubled<B> {
        join(B::none(), B::none())
    }

    fn all() -> Doubled<B> {
        join(B::all(), B::all())
    }

    fn and(self, other: Doubled<B>) -> Doubled<B> {
        join(self.early.and(other.early), self.late.and(other.late))
    }

    fn or(self, other: Doubled<B>) -> Doubled<B> {
        join(self.early.or(other.early), self.late.or(other.late))
    }

    fn xor(self, other: Doubled<B>) -> Doubled<B> {
        join(self.early.xor(other.early), self.late.xor(other.late))
    }

    fn not(self) -> Doubled<B> {
        join(self.early.not(), self.late.not())
    }

    // The bit that falls out of the earlier half enters the later.
    fn advance(self, enter: bool) -> (Doubled<B>, bool) {
        let (early, middle) = self.early.advance(enter);
        let (late, out) = self.late.advance(middle);
        (Doubled { early, late }, out)
    }

    fn add(self, other: Doubled<B>, enter: bool) -> (Doubled<B>, bool) {
        let (early, middle) = self.early.add(other.early, enter);
        let (late, out) = self.late.add(other.late, middle);
        (Doubled { early, late }, out)
    }

    fn put(self, k: usize, byte: u8) -> Doubled<B> {
        match find::<B>(k) {
            Some(Half::Early(n)) => Doubled {
                early: self.early.put(n, byte),
                ..self
            },
            Some(Half::Late(n)) => Doubled {
                late: self.late.put(n, byte),
                ..self
            },
            None => self,
        }
    }

    fn read(self, k: usize) -> u8 {
        match find::<B>(k) {
            Some(Half::Early(n)) => self.early.read(n),
            Some(Half::Late(n)) => self.late.read(n),
            None => 0,
        }
    }

    fn first(self, i: usize) -> Option<usize> {
        self.early.first(i).or_else(|| first_late(self.late, i))
    }
}
