// What holds of what is told.
ghost use Rattle.breach_reasons.specs.Told.{AskIsTold, RightIsTold, SharedAreTold};

/// What is told of a breach is what the definitions ask for: of two commits a key that both wrote, with the last write of each; of
/// a wrong read the answer that would be right; of a begin the ask from which it is counted.
#[tactic(auto)]
pub fn breaches_are_told()
    ensures shared { SharedAreTold }
    ensures right { RightIsTold }
    ensures ask { AskIsTold }
{}
