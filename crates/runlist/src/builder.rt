ghost use Rattle.std.specs.Prelude.{◌≡◌, ℕ, ◌+◌, ◌-◌, ◌<◌, ◌≤◌, true};
ghost use Rattle.block.specs.Rows.{bit_of};
ghost use Rattle.runlist.specs.Changes.{rises, Agree};
ghost use Rattle.runlist.specs.Lists.{kept, lit};

use super::list::RunList;
use super::runs::{Cursor, is_odd};
use block::Block;

// A list that is made from place 0 on: the bits before `place` stand. That they do is said by each call, since it is about the list before
// and after it.
#[derive(Clone, Copy)]
pub(crate) struct Builder {
    pub list: RunList,
    pub place: usize,
    ghost room: { list.count ≤ place },
    ghost ends: { place ≤ 64 },
    ghost rising: { rises 0 place (kept list) ≡ true },
}

impl Builder {
    pub fn new() -> Builder
        ensures { result.place ≡ 0 }
    {
        Builder {
            list: RunList::none(),
            place: 0,
        }
    }

    // The same bit for every place up to `end`: a change where it differs from the last.
    pub fn push(&mut self, bit: bool, end: usize)
        requires { (self.old.place ≤ end) × (end ≤ 64) }
        ensures place { self.new.place ≡ end }
        ensures here { (j : ℕ) → self.old.place ≤ j → j < end → lit self.new.list j ≡ bit }
        ensures before { Agree self.old.place (lit self.new.list) (lit self.old.list) }
    {
        let mut at = self.list.at;
        let mut count = self.list.count;
        let next = usize::from(count);
        if self.place < end && is_odd(next) != bit {
            at[next] = self.place as u8;
            count += 1;
        }
        *self = Builder {
            list: RunList { at, count },
            place: end,
        };
    }

    // The bits of a list from a place up to `end`, behind those that stand. The steps are runs, which differ in length:
    // each begins where the last one ends, and the last is cut at `end`.
    pub fn copy(&mut self, from: Cursor, end: usize)
        requires { (from.place ≤ end) × ((end ≤ 64) × (self.old.place + (end - from.place) ≤ 64)) }
        ensures place { self.new.place ≡ self.old.place + (end - from.entry.place) }
        ensures here { (j : ℕ) → from.entry.place + j < end → lit self.new.list (self.old.place + j) ≡ lit from.entry.list.now (from.entry.place + j) }
        ensures before { Agree self.old.place (lit self.new.list) (lit self.old.list) }
    {
        let mut cursor = from;
        while cursor.place < end {
            let run = cursor.run();
            let stop = run.end.min(end);
            let place = self.place + (stop - cursor.place);
            self.push(run.bit(), place);
            cursor = run.until(stop);
        }
    }

    // The bits of a byte, the one worth 1 first.
    pub fn push_byte(&mut self, byte: u8)
        requires { self.old.place + 8 ≤ 64 }
        ensures place { self.new.place ≡ self.old.place + 8 }
        ensures here { (j : ℕ) → j < 8 → lit self.new.list (self.old.place + j) ≡ bit_of byte j }
        ensures before { Agree self.old.place (lit self.new.list) (lit self.old.list) }
    {
        for j in 0..8u32 {
            let place = self.place + 1;
            self.push((byte >> j) % 2 == 1, place);
        }
    }
}
