// A list of calls on a newborn search, and the answers that they get.

#![tactic(auto)]

ghost use Rattle.std.specs.Prelude.{IfOk, length};
ghost use Rattle.replay.specs.Recorded.{Recorded};

use block::Block;
use refusal::Refusal;
use search::{Answer, Call, Search};
use std::alloc::{AllocError, Global};

// A call, and how many of the lent working blocks it gets, if there are as many.
#[derive(Clone, Copy)]
pub struct Request<'a> {
    pub call: Call<'a>,
    pub blocks: usize,
}

// Performs the calls in order on a newborn search, and records their answers. The working blocks may hold anything.
pub fn replay<B: Block>(
    heap: Global,
    requests: &[Request<'_>],
    blocks: &mut [B],
) -> Result<Vec<Result<Answer<B>, Refusal>>, AllocError>
    ensures { IfOk result (λ answers. Recorded B.Block.row B.places (length blocks.old) requests.now answers.items) }
{
    let mut search = Search::new(heap)?;
    let mut answers = Vec::with_capacity(heap, requests.len())?;
    for request in requests {
        let lent = request.blocks.min(blocks.len());
        answers.push(search.perform(request.call, &mut blocks[..lent]))?;
    }
    Ok(answers)
}
