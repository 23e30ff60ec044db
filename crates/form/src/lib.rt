// What a form means: its pairs in a line, and the ends of a recording. Each function stands for the theorems that its contract cites.

#![tactic(auto)]

ghost use Rattle.form.specs.Lines.{EndsExist, EndsUnique};
ghost use Rattle.form.specs.Meaning.{PairsInside};
ghost use Rattle.form.specs.Positions.{PositionsAgree};
ghost use Rattle.form.specs.Running.{ClosedEnds, EarlyExist, EarlyFirst, EarlyGrow, EarlyNext, EarlyNone, EarlyPositions, EarlyUnique};
ghost use Rattle.form.specs.Worked.{Worked};

// The pairs of a form stand in their line and go forwards.
pub fn pairs_stay_inside()
    ensures { PairsInside }
{}

// Every recording has its list of ends, and only one.
pub fn ends_stand()
    ensures exist { EndsExist }
    ensures unique { EndsUnique }
{}

// The ends by lines are those by positions.
pub fn positions_agree()
    ensures { PositionsAgree }
{}

// The ends at positions of the bytes read so far are settled: they are the first ends of every recording that begins with them, and
// closing the recording leaves no other.
pub fn early_ends_stand()
    ensures exist { EarlyExist }
    ensures unique { EarlyUnique }
    ensures first { EarlyFirst }
    ensures grow { EarlyGrow }
    ensures closed { ClosedEnds }
    ensures positions { EarlyPositions }
    ensures none { EarlyNone }
    ensures next { EarlyNext }
{}

// Recordings whose ends are worked out.
pub fn worked_recordings_stand()
    ensures { Worked }
{}
