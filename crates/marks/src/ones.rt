// The ones of a block, one after the other, and blocks that hold a one at a single place, or at all places below one.
ghost use Rattle.std.specs.Prelude.{◌≡◌, ◌-◌, ◌<◌, ◌≤◌, min, nat_eq, nat_lt};
ghost use Rattle.std.specs.Iterator.{at_most};
ghost use Rattle.block.specs.Rows.{tab};
ghost use Rattle.block.specs.Calls.{widest, answered, none_row};
ghost use Rattle.marks.specs.Ones.{StepsOn};

use block::Block;

// The places of a block's ones from `from` on and before `to`, in order.
#[derive(Clone, Copy)]
pub(crate) struct Ones<B> {
    block: B,
    from: usize,
    to: usize,
}

pub(crate) fn ones_between<B: Block>(block: B, from: usize, to: usize) -> Ones<B>
    ensures { result ≡ record { block = block; from = from; to = to } }
{
    Ones { block, from, to }
}

impl<B: Block> Iterator for Ones<B> {
    type Item = usize;

    ghost next_gives = { StepsOn B.Block.row (answered B.places) };

    ghost remaining = { λ s. at_most (s.to - s.from) };

    fn next(&mut self) -> Option<usize> {
        match self.block.first(self.from) {
            Some(p) if p < self.to => {
                self.from = p + 1;
                Some(p)
            }
            _ => None,
        }
    }
}

// A one at place `p` and nowhere else; all zeros where `p` is not below the answered width.
pub fn one<B: Block>(p: usize) -> B
    ensures within { p < answered B.places → B.Block.row result ≡ tab B.places (λ i. nat_eq i p) }
    ensures past { answered B.places ≤ p → B.Block.row result ≡ none_row B.places }
{
    B::none().put(p / 8, 1 << (p % 8))
}

// Ones at the places below `n`, and below the answered width.
pub fn below<B: Block>(n: usize) -> B
    ensures within { B.Block.row result ≡ tab B.places (λ i. nat_lt i (min n (answered B.places))) }
    ensures whole { B.places ≤ widest → B.Block.row result ≡ tab B.places (λ i. nat_lt i n) }
{
    let end = n.min(B::width());
    let mut ones = B::none();
    for k in 0..end / 8 {
        ones = ones.put(k, 0xff);
    }
    // The last group takes what is left of a byte; behind the last place there is none.
    ones.put(end / 8, (1 << (end % 8)) - 1)
}
