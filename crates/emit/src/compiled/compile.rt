// How a form is compiled.
ghost use Rattle.std.specs.Prelude.{◌≡◌, ◌≤◌, [], IfOk};
ghost use Rattle.emit.specs.Whole.{CompiledFrom, program_of, table_of};
ghost use Rattle.form.specs.Form.{Form, weight};
ghost use Rattle.limits.specs.Limits.{heaviest};
ghost use Rattle.tree.specs.Stands.{Stands};

use crate::code::Code;
use crate::compiled::{Compiled, Sizes};
use crate::place::Place;
use classes::ClassTable;
use program::{CLASSES, Step};
use std::alloc::{AllocError, Global};
use stream::ByteSet;
use tree::store::Tree;

impl Compiled {
    // Room for the heaviest form; only this can want memory.
    pub fn new(heap: Global) -> Result<Compiled, AllocError>
        ensures { IfOk result (λ x. (program_of x ≡ []) × (table_of x ≡ [])) }
    {
        let code = Code::new(heap)?;
        let table = ClassTable::new(heap)?;
        Ok(Compiled { code, table })
    }

    // The program.
    pub fn program(&self) -> &[Step]
        ensures { result.now ≡ program_of self.now }
    {
        self.code.steps()
    }

    // The sets of the classes, by number.
    pub fn sets(&self) -> &[ByteSet]
        ensures { result.now ≡ table_of self.now }
    {
        self.table.sets()
    }

    // Compiles the form that the node stands for, in the place of what was compiled before. Rows in which unions gather stand
    // behind those of the stars, and a first walk tells how many these are.
    pub fn compile(&mut self, tree: &Tree, root: usize) -> Sizes
        ensures { (F : Form) → Stands tree.now F root → weight F ≤ heaviest → CompiledFrom F self.new result }
    {
        self.table.fill(tree, root);
        let classes = self.table.sets().len();
        let first = CLASSES.saturating_add(classes);
        self.code.begin(first, 0);
        self.code.form(tree, root, 0, Place::outermost());
        let behind = self.code.star;
        self.code.begin(first, behind);
        self.code.form(tree, root, 0, Place::outermost());
        Sizes {
            classes,
            stars: behind.saturating_sub(first),
            carries: self.code.carry,
            rows: self.code.gather,
        }
    }
}
