// How a matcher goes from block to block.
ghost use Rattle.std.specs.Prelude.{◌≡◌, ℕ, ◌+◌, ◌≤◌, length};
ghost use Rattle.block.specs.Calls.{answered, widest};
ghost use Rattle.emit.specs.Whole.{program_of};
ghost use Rattle.form.specs.Form.{Form};
ghost use Rattle.limits.specs.Limits.{heaviest};
ghost use Rattle.machine.specs.Blocks.{Found, Ready};
ghost use Rattle.machine.specs.Carrying.{entering, leaving};
ghost use Rattle.machine.specs.Matching.{Agrees, Keeps, MatchesBlock};
ghost use Rattle.program.specs.Compile.{stars_at};
ghost use Rattle.stream.specs.Tables.{rows};

use crate::loaded::Matcher;
use crate::registers::Registers;
use crate::rules::rule;
use crate::runs::Program;
use crate::shown::Shown;
use block::Block;
use limits::{HEAVIEST, WIDEST_KIND, blocks_needed};
use marks::below;
use program::CLASSES;
use refusal::Refusal;

// Whether a block of so many bytes can be matched with so many working blocks.
fn agree<B: Block>(weight: usize, blocks: usize, bytes: usize) -> Result<(), Refusal>
    requires { weight ≤ heaviest }
    ensures { Agrees B.places weight blocks bytes result }
{
    if B::width() > WIDEST_KIND {
        return Err(Refusal::KindTooWide);
    }
    if blocks < blocks_needed(weight) {
        return Err(Refusal::TooFewBlocks);
    }
    if bytes > B::width() {
        return Err(Refusal::TooManyBytes);
    }
    Ok(())
}

impl Matcher {
    // Runs the program over a block whose rows are made.
    fn run<B: Block>(&mut self, blocks: &mut [B]) -> B
        requires seen { B.places ≤ widest }
        requires room { self.old.sizes.rows ≤ length blocks.old }
        ensures keeps { Keeps self.old self.new }
        ensures found { (F : Form) (t : ℕ → ℕ) (b : ℕ) → Ready F t b B.places (program_of self.old.compiled) (stars_at self.old.sizes.classes) (stars_at self.old.sizes.classes + self.old.sizes.stars) (rows B.Block.row blocks.old) (entering self.old.carries) → Found F t b B.places (B.Block.row result) (leaving self.new.carries) }
    {
        let first = CLASSES + self.sizes.classes;
        let program = Program {
            steps: self.compiled.program(),
            stars: first..first + self.sizes.stars,
            rows: self.sizes.rows,
            carries: HEAVIEST as usize,
        };
        let mut registers = Registers::over(blocks);
        program.run(&mut registers, &mut self.carries)
    }

    // Matches the recording's next bytes: a full block, or fewer bytes, which end the recording. Refused, all left: a kind that is too
    // wide, fewer working blocks than the text's weight needs, more bytes than a block has places.
    pub fn match_block<B: Block>(
        &mut self,
        piece: &[u8],
        blocks: &mut [B],
    ) -> Result<Shown<B>, Refusal>
        ensures { MatchesBlock B.Block.row B.places self.old self.new piece.now blocks.old blocks.new result }
    {
        agree::<B>(self.weight, blocks.len(), piece.len())?;
        let (feeds, behind) = rule(piece, self.starts, self.compiled.sets(), blocks)?;
        let ends = self.run(blocks);
        self.carries.hand_on(self.sizes.carries);
        self.starts = behind;
        if piece.len() == B::width() {
            return Ok(Shown { ends, feeds });
        }
        self.rewind();
        let ends = ends.and(below(piece.len()));
        Ok(Shown { ends, feeds })
    }
}
