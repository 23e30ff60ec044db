// How a matcher gets its form.
ghost use Rattle.compiler.specs.Faults.{Reads, Refused};
ghost use Rattle.form.specs.Form.{Form, nil, seq};
ghost use Rattle.machine.specs.Matching.{Keeps, Loaded, Matched, Runs, Same};
ghost use Rattle.std.specs.Prelude.{◌≡◌, [], IfOk, MatchResult};

use crate::carries::Carries;
use crate::loaded::Matcher;
use compiler::read_text;
use emit::{Compiled, Sizes};
use program::CLASSES;
use refusal::Refusal;
use std::alloc::{AllocError, Global};
use std::mem::swap;
use tree::store::Tree;

impl Matcher {
    // A matcher without a text, which weighs nothing and ends everywhere; only this can want memory.
    pub fn new(heap: Global) -> Result<Matcher, AllocError>
        ensures { IfOk result (λ m. Matched (seq nil) [] m × (m.weight ≡ 0)) }
    {
        let tree = Tree::new(heap)?;
        let spare = Tree::new(heap)?;
        let compiled = Compiled::new(heap)?;
        let carries = Carries::new(heap)?;
        Ok(Matcher {
            tree,
            spare,
            root: 0,
            weight: 0,
            compiled,
            sizes: Sizes {
                classes: 0,
                stars: 0,
                carries: 0,
                // those before the classes, which every form has
                rows: CLASSES,
            },
            carries,
            starts: true,
        })
    }

    // Reads the text, and stands at the start of a recording with its form in the place of what it held. A text that is refused
    // leaves all as it was.
    pub fn load(&mut self, text: &[u8]) -> Result<(), Refusal>
        ensures { MatchResult result
            (λ _. (F : Form) × Reads text.now F × Loaded F self.new × Matched F [] self.new)
            (λ e. Refused text.now e × Same self.old self.new) }
    {
        let taken = read_text(text, &mut self.spare)?;
        swap(&mut self.tree, &mut self.spare);
        self.root = taken.root;
        self.weight = taken.weight as usize;
        self.sizes = self.compiled.compile(&self.tree, self.root);
        self.rewind();
        Ok(())
    }

    // Forgets what was matched, and stands at the start of a recording.
    pub fn rewind(&mut self)
        ensures keeps { Keeps self.old self.new }
        ensures matched { (F : Form) → Runs F self.old → Matched F [] self.new }
    {
        self.carries.forget(self.sizes.carries);
        self.starts = true;
    }

    // What the loaded text weighs.
    pub fn weight(&self) -> usize
        ensures { result ≡ self.now.weight }
    {
        self.weight
    }

    // Whether a line starts behind the bytes that were matched.
    pub fn at_line_start(&self) -> bool
        ensures { result ≡ self.now.starts }
    {
        self.starts
    }
}
