// The pieces between a line's turns: asks, answers that come too early, and turns of others.
ghost use Rattle.grant_laws.specs.Between.{AsksAreCarried, EarlyAnswersWait, ReadsStay, PlacingsStay};

/// An own turn that asks for a begin or a commit is told as asked, and the node's instance holds the request, where a slot is
/// free there.
pub fn asks_are_carried()
    ensures { AsksAreCarried }
{}

/// An answer to a begin while a commit that was drawn below its start is not settled tells its session to wait, once, and leaves
/// the begin as far as it has come.
pub fn early_answers_wait()
    ensures { EarlyAnswersWait }
{}

/// Between its session's own turns a read stays as it is.
pub fn reads_stay()
    ensures { ReadsStay }
{}

/// And so does a commit that was handed to it stay to be placed.
pub fn placings_stay()
    ensures { PlacingsStay }
{}
