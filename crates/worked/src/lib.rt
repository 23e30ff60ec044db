// The worked examples of the meaning, from the text as it is written to the ends that it lists.

#![tactic(auto)]

ghost use Rattle.worked.specs.Worked.{WorkedExamples};

// The examples of the crates below, and each text read by the grammar.
pub fn worked_examples_stand()
    ensures { WorkedExamples }
{
    stream::match_star_examples();
    grammar::seek_alone_is_refused();
    form::worked_recordings_stand();
}
