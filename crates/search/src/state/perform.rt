// Every call of a search, in one place: the state and the call together decide what is done.
ghost use Rattle.std.specs.Prelude.{length};
ghost use Rattle.search.specs.Telling.{Serves, asked, told};

use crate::calls::{Answer, Call, State};
use crate::state::Search;
use block::Block;
use refusal::Refusal;

impl<B: Block> Search<B> {
    // Performs a call with these working blocks, which may hold anything.
    pub fn perform(&mut self, call: Call<'_>, blocks: &mut [B]) -> Result<Answer<B>, Refusal>
        ensures { Serves B.Block.row B.places self.old self.new blocks.old blocks.new (asked call.entry (length blocks.old)) (told B.Block.row result) }
    {
        match (self.state, call) {
            (_, Call::Load(text)) => self.take_text(text),
            (State::Empty, Call::Rewind) => Err(Refusal::SearchEmpty),
            (State::Open | State::Closed, Call::Rewind) => Ok(self.back()),
            (State::Empty, Call::Feed(_)) => Err(Refusal::SearchEmpty),
            (State::Open, Call::Feed(piece)) => self.take_piece(piece, blocks),
            (State::Closed, Call::Feed(_)) => Err(Refusal::SearchClosed),
            (State::Empty, Call::Close) => Err(Refusal::SearchEmpty),
            (State::Open, Call::Close) => self.end(blocks),
            (State::Closed, Call::Close) => Err(Refusal::SearchClosed),
            (_, Call::Draw) => Ok(self.next_end()),
            (_, Call::Taken) => Ok(Answer::Count(self.taken_bytes())),
            (_, Call::Weight) => Ok(Answer::Count(self.loaded_weight())),
            (_, Call::Waiting) => Ok(Answer::Block(self.last_block())),
        }
    }
}
