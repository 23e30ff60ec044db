// Passes over one block. The registers are lent by the caller and the carries are the matcher's; they go side by side, since a struct of
// both would only be two mutable references, with the same clauses.
ghost use Rattle.std.specs.Prelude.{◌≡◌, ℕ, ◌<◌, ◌≤◌, false, ◌⊎◌, length};
ghost use Rattle.block.specs.Calls.{widest, none_row};
ghost use Rattle.form.specs.Form.{Form};
ghost use Rattle.program.specs.Machine.{runs, repeated};
ghost use Rattle.stream.specs.Tables.{rows};
ghost use Rattle.machine.specs.Blocks.{Ready, Found};
ghost use Rattle.machine.specs.Carrying.{count_of, entering, leaving};
ghost use Rattle.machine.specs.Holding.{holding};
ghost use Rattle.machine.specs.Lending.{Lent};

use crate::carries::Carries;
use crate::registers::Registers;
use crate::runs::Program;
use crate::steps::Pass;
use block::Block;

impl Program<'_> {
    // The ends of matches in a block, and the carries to the next one.
    //
    // For the matcher, which refuses kinds that are too wide and too few blocks: so what is required is not tested here.
    pub(crate) fn run<B: Block>(&self, registers: &mut Registers<'_, B>, carries: &mut Carries) -> B
        requires seen { B.places ≤ widest }
        requires room { self.now.rows ≤ length registers.old.blocks.now }
        requires many { self.now.carries ≤ count_of carries.old }
        ensures found { (F : Form) (t : ℕ → ℕ) (b : ℕ) → Ready F t b B.places self.now.steps.now self.now.stars.start self.now.stars.end (rows B.Block.row registers.old.blocks.now) (entering carries.old) → Found F t b B.places (B.Block.row result) (leaving carries.new) }
        ensures long { count_of carries.new ≡ count_of carries.old }
        ensures entering { entering carries.new ≡ entering carries.old }
        ensures lent { Lent registers.old registers.new }
    {
        self.clear(registers);
        self.settle(B::all(), registers, carries)
    }

    // Empties the stars' rows. The range is gone through by its ends, since its `clone` can fail.
    fn clear<B: Block>(&self, registers: &mut Registers<'_, B>)
        requires { self.now.rows ≤ length registers.old.blocks.now }
        ensures emptied { (i : ℕ) → self.now.stars.start ≤ i → i < self.now.stars.end → rows B.Block.row registers.new.blocks.now i ≡ none_row B.places }
        ensures others { (i : ℕ) → (i < self.now.stars.start) ⊎ (self.now.stars.end ≤ i) → rows B.Block.row registers.new.blocks.now i ≡ rows B.Block.row registers.old.blocks.now i }
        ensures lent { Lent registers.old registers.new }
    {
        for r in self.stars.start..self.stars.end {
            registers.put(r, B::none());
        }
    }

    // Passes from the same marks and carries, until no star adds to its row.
    fn settle<B: Block>(
        &self,
        marks: B,
        registers: &mut Registers<'_, B>,
        carries: &mut Carries,
    ) -> B
        requires seen { B.places ≤ widest }
        requires room { self.now.rows ≤ length registers.old.blocks.now }
        requires many { self.now.carries ≤ count_of carries.old }
        ensures settled { (j : ℕ) × (holding B.Block.row result registers.new.blocks.now (leaving carries.new) false ≡ repeated B.places (entering carries.old) self.now.steps.now (B.Block.row marks) (holding B.Block.row marks registers.old.blocks.now (leaving carries.old) false) j) }
        ensures long { count_of carries.new ≡ count_of carries.old }
        ensures entering { entering carries.new ≡ entering carries.old }
        ensures lent { Lent registers.old registers.new }
    {
        'passes: loop {
            let pass = self.pass(marks, registers, carries);
            if !pass.changed {
                return pass.marks;
            }
        }
    }

    // All steps once, from these marks.
    fn pass<B: Block>(
        &self,
        marks: B,
        registers: &mut Registers<'_, B>,
        carries: &mut Carries,
    ) -> Pass<B>
        requires seen { B.places ≤ widest }
        requires room { self.now.rows ≤ length registers.old.blocks.now }
        requires many { self.now.carries ≤ count_of carries.old }
        ensures runs { holding B.Block.row result.marks registers.new.blocks.now (leaving carries.new) result.changed ≡ runs B.places (entering carries.old) self.now.steps.now (holding B.Block.row marks registers.old.blocks.now (leaving carries.old) false) }
        ensures long { count_of carries.new ≡ count_of carries.old }
        ensures entering { entering carries.new ≡ entering carries.old }
        ensures lent { Lent registers.old registers.new }
    {
        let mut pass = Pass {
            marks,
            changed: false,
        };
        for step in self.steps {
            pass = pass.act(*step, registers, carries);
        }
        pass
    }
}
