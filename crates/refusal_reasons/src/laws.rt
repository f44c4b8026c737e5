// What holds of the items that are named.
ghost use Rattle.refusal_reasons.specs.Decided.{AllDecided, ExplainedAreFound, SoughtFit};

/// A refusal is shown, by the definition of its cause, exactly where its items are found and the setup agrees; so
/// in an explained history the items of each refusal are found. Each of them is what its clue asks for.
#[tactic(auto)]
pub fn refusals_are_decided()
    ensures decided { AllDecided }
    ensures explained { ExplainedAreFound }
    ensures fit { SoughtFit }
{}
