// Patterns as flat programs of steps over numbered rows and carries: what the steps do, the program of a pattern and of a form, and
// that running it over a block gives the ends of the form's matches there. Each function stands for the theorems that its contract cites.

#![tactic(auto)]

ghost use Rattle.program.specs.Compile.{ProgramBlock, ProgramFits};
ghost use Rattle.program.specs.Falls.{ProgramEnds, StepsFall};
ghost use Rattle.program.specs.Matched.{FirstStanding, FormBlock, LineStarts};
ghost use Rattle.program.specs.Sizes.{FormCarries, FormClassed, FormDepth, FormRows};

// The rows by number: those of the line feeds and of the line starts, and that of the first class. Rows before them keep marks.
pub const FEEDS: usize = 16;

pub const STARTS: usize = FEEDS + 1;

pub const CLASSES: usize = STARTS + 1;

// `class` and the number of a step name rows, and `carry` names a carry.
#[derive(Clone, Copy)]
pub enum Step {
    // the marks at the class's places, one place on; the bit that falls out is the new carry
    Take { class: usize, carry: usize },
    // the same any number of times, by MatchStar
    Run { class: usize, carry: usize },
    // the same one or more times
    More { class: usize, carry: usize },
    // the marks that the row has too
    Keep(usize),
    Save(usize),
    Load(usize),
    // adds the marks to the row
    Or(usize),
    // adds them to a star's row, and notes whether that changes it
    Grow(usize),
}

// A program, repeated until no star adds to its row, gives the marks of a block and its carries to the next; its numbers are in range;
// and each repetition but the last leaves fewer zeros in the stars' rows.
pub fn programs_stand()
    ensures block { ProgramBlock }
    ensures fits { ProgramFits }
    ensures fall { StepsFall }
    ensures end { ProgramEnds }
{}

// What the program of a form needs: rows within its weight, no more kept marks than brackets nest, and one carry for each leaf.
pub fn form_sizes_stand()
    ensures classed { FormClassed }
    ensures rows { FormRows }
    ensures depth { FormDepth }
    ensures carries { FormCarries }
{}

// The program of a form over one block of a tape: its marks are just the positions at which a match of the form ends, and its carries
// stand for all that came before the next block.
pub fn form_blocks_stand()
    ensures first { FirstStanding }
    ensures block { FormBlock }
    ensures starts { LineStarts }
{}
