// The working blocks by number.
ghost use Rattle.std.specs.Prelude.{◌≡◌, ◌<◌, length, slice_index_or, slice_set};
ghost use Rattle.machine.specs.Lending.{Lent};

use block::Block;

// One block of a slice. The register file hands its slice to this and to `store`, whose proofs know nothing of who lent it.
fn at<B: Block>(blocks: &[B], i: usize) -> B
    requires { i < length blocks.now }
    ensures { result ≡ slice_index_or blocks.now i result }
{
    blocks[i]
}

fn store<B: Block>(blocks: &mut [B], i: usize, block: B)
    requires { i < length blocks.old }
    ensures { blocks.new ≡ slice_set blocks.old i block }
{
    blocks[i] = block;
}

// A numbered table over blocks that are lent. Each call that may write says that the reference to them is still the lender's, by the
// name that the proof has for it: so the lender knows what the blocks hold afterwards.
#[derive(Drop)]
pub struct Registers<'a, B> {
    blocks: &'a mut [B],
}

impl<'a, B: Block> Registers<'a, B> {
    pub fn over(blocks: &'a mut [B]) -> Self
        ensures value { result.blocks.now ≡ blocks.old }
        ensures lender { result.blocks.ghost_name ≡ blocks.entry.ghost_name }
    {
        Registers { blocks }
    }

    pub(crate) fn get(&self, i: usize) -> B
        requires { i < length self.now.blocks.now }
        ensures { result ≡ slice_index_or self.now.blocks.now i result }
    {
        at(self.blocks, i)
    }

    // Who calls it has tested how many blocks there are.
    pub(crate) fn put(&mut self, i: usize, block: B)
        requires { i < length self.old.blocks.now }
        ensures value { self.new.blocks.now ≡ slice_set self.old.blocks.now i block }
        ensures lent { Lent self.old self.new }
    {
        store(self.blocks, i, block);
    }
}
