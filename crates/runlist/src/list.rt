ghost use Rattle.std.specs.Prelude.{◌≡◌, ◌≤◌, true, length, take};
ghost use Rattle.runlist.specs.Changes.{rises};

// How many places a block has.
pub const PLACES: usize = 64;

// The changes are the first `count` of `at`, in rising order; what stands behind them means nothing. An array with a
// count, and no list of the heap: a block is copied as a machine word is, and asks for no memory.
#[derive(Clone, Copy)]
pub struct RunList {
    pub(crate) at: [u8; PLACES],
    pub(crate) count: u8,
    ghost long: { length at ≡ 64 },
    ghost fits: { count ≤ 64 },
    ghost rising: { rises 0 64 (take count at) ≡ true },
}

impl RunList {
    ghost use Rattle.runlist.specs.Lists.{kept, change_at};

    pub(crate) fn changes(&self) -> &[u8]
        ensures { result.now ≡ kept self.now }
    {
        &self.at[..usize::from(self.count)]
    }

    // The place of a change by its number. Behind the last it is 64, the end of the last run.
    pub(crate) fn change(&self, n: usize) -> usize
        ensures { result ≡ change_at self.now n }
    {
        self.changes()
            .get(n)
            .map_or(PLACES, |place| usize::from(*place))
    }
}
