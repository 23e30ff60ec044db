// What was asked of a search and what it answered, the one right answer of each call, and the law over every list of calls.

#![tactic(auto)]

ghost use Rattle.history.specs.Rules.{LawFollows, RightOnce};

// Where each answer of a list of calls is right, the law holds after each of them.
pub fn law_follows()
    ensures { LawFollows }
{}

// A call has no two right answers.
pub fn right_answers_are_unique()
    ensures { RightOnce }
{}
