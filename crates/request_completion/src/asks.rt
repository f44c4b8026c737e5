// When an ask of a session is over, and who is told of it.
ghost use Rattle.request_completion.specs.Closings.{OwingNeedsAnAsk, CommitsAreAsked};
ghost use Rattle.request_completion.specs.Overs.{OverStaysOver, ClosedAsksAreOver};
ghost use Rattle.request_completion.specs.Silences.{LostAsksAreOver, SilentAnswersRepeat};
ghost use Rattle.request_completion.specs.SessionTransitions.{BeginsAreAsked};

/// What is over stays so, until the session asks again.
pub fn over_stays_over()
    ensures { OverStaysOver }
{}

/// After an item that closes an ask it is over, until the session asks again.
pub fn closed_asks_are_over()
    ensures { ClosedAsksAreOver }
{}

/// Where an event is refused for want of an instance, nothing that was asked of the node is open.
pub fn lost_asks_are_over()
    ensures { LostAsksAreOver }
{}

/// An answer that says nothing is that of a request that was told to wait.
pub fn silent_answers_repeat()
    ensures { SilentAnswersRepeat }
{}

/// A session is told of its commit, or of a refusal that leaves cells, only where its ask is open, or where it looks by itself how
/// its commit stands.
pub fn owing_needs_an_ask()
    ensures { OwingNeedsAnAsk }
{}

/// The start that a session is told as committed is that of its last ask.
pub fn commits_are_asked()
    ensures { CommitsAreAsked }
{}

/// Whoever is told of a begin, or to wait with it, or that a crash has lost it, asked for a begin last.
pub fn begins_are_asked()
    ensures { BeginsAreAsked }
{}
