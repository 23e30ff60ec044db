// How the counting of lines goes on.
ghost use Rattle.std.specs.Prelude.{◌≡◌, ℕ, ◌+◌, ◌≤◌, max, is_ok, IfErr};
ghost use Rattle.block.specs.Calls.{answered};
ghost use Rattle.refusal.specs.declared.Refusal.TheVariants.{RecordingTooLong};
ghost use Rattle.marks.specs.Counting.{FeedsAt, Counts, AtFirst, Begins, Moves, Placed, Nexts};

use crate::count::{FARTHEST, Lines};
use crate::line::{Line, Spot};
use crate::ones::ones_between;
use block::Block;
use refusal::{End, Refusal};

impl<B: Block> Lines<B> {
    // At the first place of a recording's first block, which has these line feeds.
    pub fn first(feeds: B) -> Lines<B>
        ensures fields { AtFirst feeds result }
        ensures counts { (t : ℕ → ℕ) → FeedsAt t 0 (answered B.places) (B.Block.row feeds) → Counts B.Block.row (answered B.places) t result }
    {
        Lines {
            feeds,
            base: 0,
            at: 0,
            line: Line::FIRST,
        }
    }

    // At the first place of a block that begins here, with these line feeds. Refused where that is behind `FARTHEST`.
    pub fn at(feeds: B, here: Spot) -> Result<Lines<B>, Refusal>
        ensures { Begins B.Block.row feeds here result }
    {
        if here.position > FARTHEST {
            return Err(Refusal::RecordingTooLong);
        }
        Ok(Lines {
            feeds,
            base: here.position,
            at: 0,
            line: here.line,
        })
    }

    // Where the lines stand.
    pub fn here(&self) -> Spot
        ensures position { result.position ≡ self.now.base + self.now.at }
        ensures line { result.line ≡ self.now.line }
    {
        Spot {
            position: self.base + self.at,
            line: self.line,
        }
    }

    // Moves on to place `to`, where the lines do not stand behind it: one line more for each line feed between.
    pub(crate) fn reach(&mut self, to: usize)
        requires seen { to ≤ answered B.places }
        ensures { (w : ℕ) → to ≤ w → Moves B.Block.row w self.old self.new (max self.old.at to) }
    {
        if to <= self.at {
            return;
        }
        let mut line = self.line;
        for p in ones_between(self.feeds, self.at, to) {
            line = Line {
                number: line.number + 1,
                start: self.base + p + 1,
            };
        }
        self.at = to;
        self.line = line;
    }

    // Moves on to place `p`, and answers the end there. A place that is passed, or none of the block's, is answered by None, and
    // then nothing moves.
    pub fn place(&mut self, p: usize) -> Option<End>
        ensures { Placed B.Block.row (answered B.places) self.old self.new p result }
    {
        if p < self.at || p >= B::width() {
            return None;
        }
        self.reach(p);
        Some(self.here().end())
    }

    // Moves on to the next block, which has these line feeds. Where that would begin behind `FARTHEST`, or the lines stand behind
    // the places of this kind, that is refused, and nothing moves.
    pub fn next(&mut self, feeds: B) -> Result<(), Refusal>
        ensures next { Nexts B.Block.row (answered B.places) feeds self.old self.new (is_ok result) }
        ensures why { IfErr result (λ e. e ≡ RecordingTooLong) }
    {
        let width = B::width();
        if self.at > width || self.base + width > FARTHEST {
            return Err(Refusal::RecordingTooLong);
        }
        self.reach(width);
        self.feeds = feeds;
        self.base += width;
        self.at = 0;
        Ok(())
    }
}
