// MatchStar: any number of steps through a class, by one sum.
ghost use Rattle.std.specs.Prelude.{◌≡◌};
ghost use Rattle.stream.specs.MatchStar.{star_row, star_out, Star, Examples};

use block::Block;

// The places that the marks, and the carry from the block before, reach through places of the class, the marks' own
// included; the bit says whether the place behind the block is reached, and is the next block's carry.
pub fn match_star<B: Block>(marks: B, class: B, carry: bool) -> (B, bool)
    ensures formula { (B.Block.row result.0 ≡ star_row B.places (B.Block.row marks) (B.Block.row class) carry) × (result.1 ≡ star_out B.places (B.Block.row marks) (B.Block.row class) carry) }
    ensures meaning { Star B.places (B.Block.row marks) (B.Block.row class) carry (B.Block.row result.0) result.1 }
{
    let (sum, out) = marks.and(class).add(class, carry);
    (sum.xor(class).or(marks), out)
}

// The worked examples on eight places.
pub fn match_star_examples()
    ensures { Examples }
{}
