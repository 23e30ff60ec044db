// The steps of a program, one at a time.
ghost use Rattle.std.specs.Prelude.{◌≡◌, ℕ, ◌≤◌, false, not, ◌||◌, length};
ghost use Rattle.block.specs.Calls.{widest};
ghost use Rattle.stream.specs.MatchStar.{star_row, star_out};
ghost use Rattle.theory.specs.Block.{step_row, step_out};
ghost use Rattle.program.specs.Machine.{same, does};
ghost use Rattle.program.specs.Compile.{Within};
ghost use Rattle.machine.specs.Carrying.{count_of, entering, leaving};
ghost use Rattle.machine.specs.Holding.{holding};
ghost use Rattle.machine.specs.Lending.{Lent};

use crate::carries::Carries;
use crate::registers::Registers;
use block::Block;
use program::Step;
use stream::match_star;

// The marks at the class's places, one place on, and the bit that falls out.
fn once<B: Block>(marks: B, class: B, enter: bool) -> (B, bool)
    ensures marks { B.Block.row result.0 ≡ step_row B.places (B.Block.row class) enter (B.Block.row marks) }
    ensures out { result.1 ≡ step_out B.places (B.Block.row class) (B.Block.row marks) }
{
    marks.and(class).advance(enter)
}

// The same one or more times: once, and then any number of times. Either may be what falls out.
fn more<B: Block>(marks: B, class: B, enter: bool) -> (B, bool)
    ensures marks { B.Block.row result.0 ≡ star_row B.places (step_row B.places (B.Block.row class) enter (B.Block.row marks)) (B.Block.row class) false }
    ensures out { result.1 ≡ (step_out B.places (B.Block.row class) (B.Block.row marks) || star_out B.places (step_row B.places (B.Block.row class) enter (B.Block.row marks)) (B.Block.row class) false) }
{
    let (stepped, fallen) = once(marks, class, enter);
    let (reached, out) = match_star(stepped, class, false);
    (reached, fallen | out)
}

// Whether two blocks differ: the interface has no test for equality, and `first` sees every place of a kind that answers its own width.
fn differ<B: Block>(left: B, right: B) -> bool
    requires { B.places ≤ widest }
    ensures { result ≡ not (same (B.Block.row left) (B.Block.row right)) }
{
    left.xor(right).first(0).is_some()
}

// The marks as far as a pass over the program has come, and whether a star has added to its row in it.
#[derive(Clone, Copy)]
pub(crate) struct Pass<B> {
    pub(crate) marks: B,
    pub(crate) changed: bool,
}

impl<B: Block> Pass<B> {
    // One step: a match, and no closure for each, since steps are data that the compiler keeps in a list. Each arm makes a pass of its two parts, and hands on no whole one: that copies the padding behind the flag too, and
    // took twice the time on heavy texts.
    pub(crate) fn act(
        self,
        step: Step,
        registers: &mut Registers<'_, B>,
        carries: &mut Carries,
    ) -> Self
        requires seen { B.places ≤ widest }
        requires range { (s : ℕ) × (e : ℕ) × Within (length registers.old.blocks.now) (count_of carries.old) s e step }
        ensures does { holding B.Block.row result.marks registers.new.blocks.now (leaving carries.new) result.changed ≡ does B.places (entering carries.old) step (holding B.Block.row self.marks registers.old.blocks.now (leaving carries.old) self.changed) }
        ensures long { count_of carries.new ≡ count_of carries.old }
        ensures entering { entering carries.new ≡ entering carries.old }
        ensures lent { Lent registers.old registers.new }
    {
        let Pass { marks, changed } = self;
        match step {
            Step::Take { class, carry } => {
                let class = registers.get(class);
                let marks = carries.through(carry, |enter| once(marks, class, enter));
                Pass { marks, changed }
            }
            Step::Run { class, carry } => {
                let class = registers.get(class);
                let marks = carries.through(carry, |enter| match_star(marks, class, enter));
                Pass { marks, changed }
            }
            Step::More { class, carry } => {
                let class = registers.get(class);
                let marks = carries.through(carry, |enter| more(marks, class, enter));
                Pass { marks, changed }
            }
            Step::Keep(r) => Pass {
                marks: marks.and(registers.get(r)),
                changed,
            },
            Step::Save(r) => {
                registers.put(r, marks);
                Pass { marks, changed }
            }
            Step::Load(r) => Pass {
                marks: registers.get(r),
                changed,
            },
            Step::Or(r) => {
                registers.put(r, registers.get(r).or(marks));
                Pass { marks, changed }
            }
            Step::Grow(r) => {
                let old = registers.get(r);
                let new = old.or(marks);
                registers.put(r, new);
                let grown = differ(new, old);
                Pass {
                    marks,
                    changed: changed | grown,
                }
            }
        }
    }
}
