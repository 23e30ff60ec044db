// How ends are found and handed out.
ghost use Rattle.std.specs.Prelude.{◌≡◌, ◌≤◌, [], length, IfOk};
ghost use Rattle.block.specs.Calls.{answered};
ghost use Rattle.history.specs.Rules.{some};
ghost use Rattle.limits.specs.Limits.{heaviest};
ghost use Rattle.marks.specs.declared.count.Lines.{Lines};
ghost use Rattle.search.specs.Finding.{Blank, Draws, Finds, Goes, Lined, LoadsText, MatchesMore, WhereFinds, ends_in};

use crate::finder::Finder;
use block::Block;
use limits::WIDEST_KIND;
use machine::{Matcher, Shown};
use marks::{Lines, one};
use refusal::{End, Refusal};
use std::alloc::{AllocError, Global};

// How many texts are sought together.
const TEXTS: usize = 1;

// The lines of the next block, which has these line feeds, behind the block with those lines.
fn lines_after<B: Block>(lines: Option<Lines<B>>, feeds: B) -> Lines<B>
    ensures { Lined B.Block.row (answered B.places) feeds lines result }
{
    let Some(mut lines) = lines else {
        return Lines::first(feeds);
    };
    // no recording is so long that this is refused
    let _ = lines.next(feeds);
    lines
}

impl<B: Block> Finder<B> {
    // Without a text; only this can want memory.
    pub(crate) fn new(heap: Global) -> Result<Finder<B>, AllocError>
        ensures { IfOk result (λ x. Blank B.Block.row B.places x) }
    {
        let matcher = Matcher::new(heap)?;
        let mut ends = Vec::with_capacity(heap, TEXTS)?;
        ends.push_reserved(B::none());
        Ok(Finder {
            matcher,
            ends,
            lines: None,
        })
    }

    // Forgets what was matched, but for the text.
    fn forget(&mut self)
        ensures blank { Blank B.Block.row B.places self.new }
        ensures matcher { self.new.matcher ≡ self.old.matcher }
    {
        self.ends[0] = B::none();
        self.lines = None;
    }

    // Takes a text, and stands at the start of a recording.
    pub(crate) fn load(&mut self, text: &[u8]) -> Result<(), Refusal>
        ensures { LoadsText B.Block.row B.places text.now self.old self.new result }
    {
        if B::width() > WIDEST_KIND {
            return Err(Refusal::KindTooWide);
        }
        self.matcher.load(text)?;
        self.forget();
        Ok(())
    }

    // Back to the start of a recording.
    pub(crate) fn rewind(&mut self)
        ensures { WhereFinds B.Block.row B.places self.old (λ F m hs ws. Finds B.Block.row B.places self.new F [] [] [] × Goes B.Block.row B.places self.new F []) }
    {
        self.matcher.rewind();
        self.forget();
    }

    // Matches a block, and answers whether it holds an end.
    pub(crate) fn match_more(&mut self, piece: &[u8], blocks: &mut [B]) -> Result<bool, Refusal>
        ensures { MatchesMore B.Block.row B.places self.old self.new piece.now (length blocks.old) result }
    {
        let shown = self.matcher.match_block(piece, blocks)?;
        self.show(shown);
        Ok(self.waits())
    }

    // Shows the block that was matched last.
    fn show(&mut self, shown: Shown<B>)
        ensures matcher { self.new.matcher ≡ self.old.matcher }
        ensures ends { ends_in B.Block.row B.places self.new ≡ B.Block.row shown.ends }
        ensures lines { (l : Lines B) × (self.new.lines ≡ Some l) × Lined B.Block.row (answered B.places) shown.feeds self.old.lines l }
    {
        self.lines = Some(lines_after(self.lines, shown.feeds));
        self.ends[0] = shown.ends;
    }

    // Whether ends wait.
    pub(crate) fn waits(&self) -> bool
        ensures { WhereFinds B.Block.row B.places self.now (λ F m hs ws. result ≡ some ws) }
    {
        self.ends[0].first(0).is_some()
    }

    // The block matched last, with the ends that wait.
    pub(crate) fn waiting(&self) -> B
        ensures { B.Block.row result ≡ ends_in B.Block.row B.places self.now }
    {
        self.ends[0]
    }

    // Hands out the next end.
    pub(crate) fn draw(&mut self) -> Option<End>
        ensures { Draws B.Block.row B.places self.old self.new result }
    {
        let p = self.ends[0].first(0)?;
        let mut lines = self.lines?;
        let end = lines.place(p)?;
        self.lines = Some(lines);
        self.ends[0] = self.ends[0].and(one::<B>(p).not());
        Some(end)
    }

    // What the text weighs.
    pub(crate) fn weight(&self) -> usize
        ensures weight { result ≡ self.now.matcher.weight }
        ensures light { result ≤ heaviest }
    {
        self.matcher.weight()
    }

    // Whether a line starts behind the bytes that were matched.
    pub(crate) fn at_line_start(&self) -> bool
        ensures { result ≡ self.now.matcher.starts }
    {
        self.matcher.at_line_start()
    }
}
