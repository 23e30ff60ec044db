// The steps of a program, one after the other. What does not fit is not written: the contracts say what is where it does.
ghost use Rattle.std.specs.Prelude.{◌≡◌, ℕ, ◌+◌, ◌≤◌, [], ◌∷◌, IfOk, if◌then◌else◌};
ghost use Rattle.emit.specs.Coding.{Does, Writes, steps_of, top};
ghost use Rattle.program.specs.Compile.{feeds_at, starts_at};
ghost use Rattle.program.specs.declared.Step.TheVariants.{More as MoreOf, Take as TakeOf};
ghost use Rattle.theory.specs.Pattern.{eps, head, leaf, many, plus, tail};

use crate::code::Code;
use limits::HEAVIEST;
use program::{CLASSES, Step};
use std::alloc::{AllocError, Global};

// How many steps the program of the heaviest form has, at most.
const LONGEST: usize = 4 * HEAVIEST as usize;

// The step that takes one byte of the class, or one and more.
fn taking(class: usize, carry: usize, stretched: bool) -> Step
    ensures { result ≡ (if stretched then MoreOf class carry else TakeOf class carry) }
{
    if stretched {
        Step::More { class, carry }
    } else {
        Step::Take { class, carry }
    }
}

// The number that comes next, of a carry or of a row, which is then taken.
pub(super) fn fresh(number: &mut usize) -> usize
    ensures here { result ≡ number.old }
    ensures counted { number.old + 1 ≤ top → number.new ≡ number.old + 1 }
{
    let here = *number;
    *number = here.saturating_add(1);
    here
}

impl Code {
    // An empty program; only this can want memory.
    pub(crate) fn new(heap: Global) -> Result<Code, AllocError>
        ensures { IfOk result (λ x. steps_of x ≡ []) }
    {
        let steps = Vec::with_capacity(heap, LONGEST)?;
        Ok(Code {
            steps,
            carry: 0,
            star: 0,
            gather: 0,
        })
    }

    // Forgets what was written, and numbers rows from these on.
    pub(crate) fn begin(&mut self, star: usize, gather: usize)
        ensures steps { steps_of self.new ≡ [] }
        ensures carry { self.new.carry ≡ 0 }
        ensures star { self.new.star ≡ star }
        ensures gather { self.new.gather ≡ gather }
    {
        self.steps.clear();
        self.carry = 0;
        self.star = star;
        self.gather = gather;
    }

    // The steps that were written.
    pub(crate) fn steps(&self) -> &[Step]
        ensures { result.now ≡ steps_of self.now }
    {
        self.steps.as_slice()
    }

    // One step more.
    pub(super) fn put(&mut self, step: Step)
        ensures { Does self.old self.new (step ∷ []) 0 0 0 }
    {
        if self.steps.len() < LONGEST {
            self.steps.push_reserved(step);
        }
    }

    // What matches nothing but the empty part: the marks stay, or go into the row that gathers.
    pub(super) fn stay(&mut self, into: Option<usize>)
        ensures { (d : ℕ) → Writes into d eps self.old self.new }
    {
        if let Some(row) = into {
            self.put(Step::Or(row));
        }
    }

    // One byte of the class, or one and more. `run` is not this with another step: what each writes is a pattern of its own.
    pub(super) fn take(&mut self, class: usize, stretched: bool, into: Option<usize>)
        ensures { class ≤ top → (d : ℕ) → Writes into d (if stretched then plus class else leaf class) self.old self.new }
    {
        let carry = fresh(&mut self.carry);
        let class = CLASSES.saturating_add(class);
        self.put(taking(class, carry, stretched));
        self.stay(into);
    }

    // Any number of bytes of the class.
    pub(super) fn run(&mut self, class: usize, into: Option<usize>)
        ensures { class ≤ top → (d : ℕ) → Writes into d (many class) self.old self.new }
    {
        let carry = fresh(&mut self.carry);
        let class = CLASSES.saturating_add(class);
        self.put(Step::Run { class, carry });
        self.stay(into);
    }

    // The marks at line starts, or at line feeds: which of them, the row's number says, as it does in the step.
    pub(super) fn keep(&mut self, row: usize, into: Option<usize>)
        ensures starts { row ≡ starts_at → (d : ℕ) → Writes into d head self.old self.new }
        ensures feeds { row ≡ feeds_at → (d : ℕ) → Writes into d tail self.old self.new }
    {
        self.put(Step::Keep(row));
        self.stay(into);
    }
}
