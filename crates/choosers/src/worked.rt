// The worked choices.
ghost use Rattle.choosers.specs.Worked.{WorkedChoices};

// Holds what the definitions give at the intervals that the rules work through.
#[tactic(auto, using(crate::proofs::WorkedChoices::worked_choices))]
pub fn worked_choices()
    ensures { WorkedChoices }
{}
