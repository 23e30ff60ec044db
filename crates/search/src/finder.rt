// Ends found block after block, and handed out one by one.
ghost use Rattle.std.specs.Prelude.{◌≡◌, vec_len};

use machine::Matcher;
use marks::Lines;

#[derive(Drop)]
pub struct Finder<B> {
    matcher: Matcher,
    // The ends of the block matched last that are not drawn yet, a block for each text that is sought. A list, and no block alone, as
    // the search is laid out for several texts; so far it is one.
    ends: Vec<B>,
    // The lines of that block; none before the first.
    lines: Option<Lines<B>>,
    ghost one: { vec_len ends ≡ 1 },
}

mod find;
