ghost use Rattle.std.specs.Prelude.{◌≡◌, ℕ, ◌+◌, ◌<◌, ◌≤◌, true, not, take};
ghost use Rattle.runlist.specs.Changes.{odd, rises};
ghost use Rattle.runlist.specs.Lists.{kept, change_at, lit};

use super::list::RunList;

// A place in a list: the first `passed` changes are before it, the others at it or after it.
//
// This is a cursor and no iterator over runs, since a merge has to stop inside of a run, where the other list's run
// ends.
#[derive(Clone, Copy)]
pub(crate) struct Cursor<'a> {
    list: &'a RunList,
    passed: usize,
    pub place: usize,
    ghost within: { passed ≤ list.now.count },
    ghost before: { rises 0 place (take passed (kept list.now)) ≡ true },
    ghost behind: { place ≤ change_at list.now passed },
}

// A run of equal bits from `place` up to `end`, the next change. Its bit is not kept: it is one where oddly many changes
// are passed.
#[derive(Clone, Copy)]
pub(crate) struct Run<'a> {
    list: &'a RunList,
    passed: usize,
    pub place: usize,
    pub end: usize,
    ghost within: { passed ≤ list.now.count },
    ghost some: { place < end },
    ghost ends: { end ≤ 64 },
    ghost before: { rises 0 (place + 1) (take passed (kept list.now)) ≡ true },
    ghost behind: { end ≡ change_at list.now passed },
}

pub(crate) fn is_odd(n: usize) -> bool
    ensures { result ≡ odd n }
{
    n % 2 == 1
}

impl<'a> Cursor<'a> {
    pub fn to(list: &'a RunList, place: usize) -> Cursor<'a>
        requires { place ≤ 64 }
        ensures list { result.list.now ≡ list.now }
        ensures place { result.place ≡ place }
    {
        let passed = list
            .changes()
            .partition_point(|change| usize::from(*change) < place);
        Cursor {
            list,
            passed,
            place,
        }
    }

    // The run that the place is in, from there on.
    pub fn run(self) -> Run<'a>
        requires { self.place < 64 }
        ensures list { result.list.now ≡ self.entry.list.now }
        ensures place { result.place ≡ self.entry.place }
    {
        let mut passed = self.passed;
        if self.list.change(passed) == self.place {
            passed += 1;
        }
        Run {
            list: self.list,
            passed,
            place: self.place,
            end: self.list.change(passed),
        }
    }
}

impl<'a> Run<'a> {
    pub fn bit(self) -> bool
        ensures within { (j : ℕ) → self.entry.place ≤ j → j < self.entry.end → lit self.entry.list.now j ≡ result }
        ensures behind { self.entry.end < 64 → lit self.entry.list.now self.entry.end ≡ not result }
    {
        is_odd(self.passed)
    }

    pub fn until(self, place: usize) -> Cursor<'a>
        requires { (self.place < place) × (place ≤ self.end) }
        ensures list { result.list.now ≡ self.entry.list.now }
        ensures place { result.place ≡ place }
    {
        Cursor {
            list: self.list,
            passed: self.passed,
            place,
        }
    }
}
