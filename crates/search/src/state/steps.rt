// What each call does in the state that it finds.
ghost use Rattle.std.specs.Prelude.{◌≡◌, [], length, IfOk, ◌≢◌};
ghost use Rattle.form.specs.Form.{weight as weight_of};
ghost use Rattle.history.specs.Calls as history;
ghost use Rattle.history.specs.Rules.{close_refusal, feed_refusal, some};
ghost use Rattle.search.specs.Telling.{Serves, ServesIdly, Tells, WhereRuns, as_result, gathered_of, said, told};

use crate::calls::{Answer, State};
use crate::finder::Finder;
use crate::state::Search;
use arrayvec::ArrayVec;
use block::Block;
use limits::{LONGEST_PIECE, LONGEST_RECORDING, blocks_needed};
use refusal::Refusal;
use std::alloc::{AllocError, Global};

impl<B: Block> Search<B> {
    // An empty search; only this can want memory.
    pub fn new(heap: Global) -> Result<Search<B>, AllocError>
        ensures { IfOk result (λ s. Tells B.Block.row B.places s []) }
    {
        let finder = Finder::new(heap)?;
        Ok(Search {
            state: State::Empty,
            finder,
            gathered: ArrayVec::new(),
            taken: 0,
        })
    }

    // At the start of a recording.
    fn open(&mut self)
        ensures state { self.new.state ≡ State.Open }
        ensures finder { self.new.finder ≡ self.old.finder }
        ensures gathered { gathered_of self.new ≡ [] }
        ensures taken { self.new.taken ≡ 0 }
    {
        self.gathered.clear();
        self.taken = 0;
        self.state = State::Open;
    }

    // Load, in every state.
    pub(super) fn take_text(&mut self, text: &[u8]) -> Result<Answer<B>, Refusal>
        ensures { ServesIdly B.Block.row B.places self.old self.new (history.load text.now) (told B.Block.row result) }
    {
        self.finder.load(text)?;
        self.open();
        Ok(Answer::Done)
    }

    // Rewind, where a text was loaded.
    pub(super) fn back(&mut self) -> Answer<B>
        requires { self.old.state ≢ State.Empty }
        ensures { ServesIdly B.Block.row B.places self.old self.new history.rewind (said B.Block.row result) }
    {
        self.finder.rewind();
        self.open();
        Answer::Done
    }

    // Why an open search refuses the working blocks: ends wait, or the blocks are too few.
    fn may_match(&self, blocks: usize) -> Result<(), Refusal>
        ensures { WhereRuns B.Block.row B.places self.now (λ F bytes ws. result ≡ as_result (close_refusal history.Open (some ws) (weight_of F) blocks)) }
    {
        if self.finder.waits() {
            return Err(Refusal::EndsWaiting);
        }
        if blocks < blocks_needed(self.finder.weight()) {
            return Err(Refusal::TooFewBlocks);
        }
        Ok(())
    }

    // Why an open search refuses a piece.
    fn may_feed(&self, piece: usize, blocks: usize) -> Result<(), Refusal>
        ensures { WhereRuns B.Block.row B.places self.now (λ F bytes ws. result ≡ as_result (feed_refusal history.Open (some ws) (weight_of F) (length bytes) piece blocks)) }
    {
        self.may_match(blocks)?;
        if piece > LONGEST_PIECE {
            return Err(Refusal::TooManyBytes);
        }
        if self.taken.saturating_add(piece) > LONGEST_RECORDING {
            return Err(Refusal::RecordingTooLong);
        }
        Ok(())
    }

    // Feed, of an open search.
    pub(super) fn take_piece(
        &mut self,
        piece: &[u8],
        blocks: &mut [B],
    ) -> Result<Answer<B>, Refusal>
        requires { self.old.state ≡ State.Open }
        ensures { Serves B.Block.row B.places self.old self.new blocks.old blocks.new (history.feed piece.now (length blocks.old)) (told B.Block.row result) }
    {
        self.may_feed(piece.len(), blocks.len())?;
        let n = self.take(piece, blocks)?;
        Ok(Answer::Took(n))
    }

    // Close, of an open search.
    pub(super) fn end(&mut self, blocks: &mut [B]) -> Result<Answer<B>, Refusal>
        requires { self.old.state ≡ State.Open }
        ensures { Serves B.Block.row B.places self.old self.new blocks.old blocks.new (history.close (length blocks.old)) (told B.Block.row result) }
    {
        self.may_match(blocks.len())?;
        self.match_rest(blocks)?;
        self.state = State::Closed;
        Ok(Answer::Done)
    }

    // Draw, in every state.
    pub(super) fn next_end(&mut self) -> Answer<B>
        ensures { ServesIdly B.Block.row B.places self.old self.new history.draw (said B.Block.row result) }
    {
        Answer::Drawn(self.finder.draw())
    }

    // The loaded weight.
    pub(super) fn loaded_weight(&self) -> usize
        ensures { ServesIdly B.Block.row B.places self.now self.now history.weight (history.count result) }
    {
        match self.state {
            State::Empty => 0,
            State::Open | State::Closed => self.finder.weight(),
        }
    }

    // The block matched last, with the ends that wait.
    pub(super) fn last_block(&self) -> B
        ensures { ServesIdly B.Block.row B.places self.now self.now history.waiting (history.shown (B.Block.row result)) }
    {
        self.finder.waiting()
    }

    // The bytes taken.
    pub(super) fn taken_bytes(&self) -> usize
        ensures { ServesIdly B.Block.row B.places self.now self.now history.taken (history.count result) }
    {
        self.taken
    }
}
