// How bytes enter a search.
ghost use Rattle.std.specs.Prelude.{◌≡◌, ℕ, ◌+◌, ◌<◌, ◌≤◌, true, [], length};
ghost use Rattle.block.specs.Calls.{answered};
ghost use Rattle.form.specs.Positions.{opens, tape};
ghost use Rattle.limits.specs.Limits.{widest_kind};
ghost use Rattle.search.specs.Entering.{Closes, EndsLine, Enters, Gathers, MatchesGathered, Takes};
ghost use Rattle.search.specs.Telling.{WhereRuns, gathered_of};

use crate::state::Search;
use block::Block;
use limits::LINE_FEED;
use refusal::Refusal;

impl<B: Block> Search<B> {
    // How many bytes the next block still takes. It is one at least, so that every part makes the piece shorter.
    fn room(&self) -> usize
        ensures some { 0 < result }
        ensures fits { B.places ≤ widest_kind → length (gathered_of self.now) < B.places → length (gathered_of self.now) + result ≡ B.places }
    {
        B::width().saturating_sub(self.gathered.len()).max(1)
    }

    // Keeps bytes that do not fill a block yet.
    fn gather(&mut self, part: &[u8])
        ensures { Gathers self.old self.new part.now }
    {
        // they fit wherever the kind is narrow enough to be loaded
        let _ = self.gathered.try_extend_from_slice(part);
    }

    // Whether so many bytes are a block of their own, with none gathered before them.
    fn alone(&self, bytes: usize) -> bool
        ensures { result ≡ true → (gathered_of self.now ≡ []) × (bytes ≡ answered B.places) }
    {
        self.gathered.is_empty() && bytes == B::width()
    }

    // Matches the gathered bytes.
    fn match_gathered(&mut self, blocks: &mut [B]) -> Result<bool, Refusal>
        ensures { MatchesGathered B.Block.row B.places self.old self.new (length blocks.old) result }
    {
        let ends = self.finder.match_more(self.gathered.as_slice(), blocks);
        self.gathered.clear();
        ends
    }

    // Takes bytes that the next block has room for, and answers whether they fill one that holds an end. Every byte enters here.
    fn enter(&mut self, part: &[u8], blocks: &mut [B]) -> Result<bool, Refusal>
        ensures { Enters B.Block.row B.places self.old self.new part.now (length blocks.old) result }
    {
        self.taken = self.taken.saturating_add(part.len());
        if self.alone(part.len()) {
            // they are matched where they stand
            return self.finder.match_more(part, blocks);
        }
        self.gather(part);
        if self.gathered.len() < B::width() {
            return Ok(false);
        }
        self.match_gathered(blocks)
    }

    // Takes the piece up to the byte that fills a block holding an end, or the whole of it; answers how many bytes.
    pub(super) fn take(&mut self, piece: &[u8], blocks: &mut [B]) -> Result<usize, Refusal>
        ensures { Takes B.Block.row B.places self.old self.new piece.now (length blocks.old) result }
    {
        // These are no chunks of one length: the first part fills up the block that is begun.
        let mut rest = piece;
        while !rest.is_empty() {
            let (part, behind) = rest.split_at(self.room().min(rest.len()));
            rest = behind;
            if self.enter(part, blocks)? {
                return Ok(piece.len() - rest.len());
            }
        }
        Ok(piece.len())
    }

    // Whether a line starts behind the bytes taken.
    fn at_line_start(&self) -> bool
        ensures { WhereRuns B.Block.row B.places self.now (λ F bytes ws. result ≡ opens (tape bytes) (length bytes)) }
    {
        match self.gathered.last() {
            Some(byte) => *byte == LINE_FEED,
            None => self.finder.at_line_start(),
        }
    }

    // Gathers a line feed behind a last line that has none.
    fn end_line(&mut self)
        ensures { EndsLine B.Block.row B.places self.old self.new }
    {
        if !self.at_line_start() {
            self.gather(&[LINE_FEED]);
        }
    }

    // Matches what is gathered, with a line feed behind a last line that has none.
    pub(super) fn match_rest(&mut self, blocks: &mut [B]) -> Result<(), Refusal>
        ensures { Closes B.Block.row B.places self.old self.new (length blocks.old) result }
    {
        self.end_line();
        if self.gathered.is_empty() {
            return Ok(());
        }
        self.match_gathered(blocks)?;
        Ok(())
    }
}
