// What the history shows of asks and transactions that come to their end.
ghost use Rattle.request_completion.specs.Laws.{EndsAtFirst, EventsKeepEnds, ToldWaitsStand, OpenOutcomesWereTold, CommitsAreRemoved, RefusalsAreErased};

/// What the history shows of asks and transactions that come to their end holds before the first event.
pub fn ends_at_first()
    ensures { EndsAtFirst }
{}

/// Every event keeps it, in every state that is reached.
pub fn events_keep_ends()
    ensures { EventsKeepEnds }
{}

/// Where an instance says of a session that it was told to wait, this stands in the history, behind the session's last ask.
pub fn told_waits_stand()
    ensures { ToldWaitsStand }
{}

/// A session whose outcome is open asked last for its commit, and was told so since.
pub fn open_outcomes_were_told()
    ensures { OpenOutcomesWereTold }
{}

/// Behind each commit that a session is told its record is removed, unless a call of the session failed, it has vanished, or the
/// removal is still to come.
pub fn commits_are_removed()
    ensures { CommitsAreRemoved }
{}

/// Behind each refusal that ended a commit and leaves cells, each key that the transaction wrote is erased, with the same
/// exceptions.
pub fn refusals_are_erased()
    ensures { RefusalsAreErased }
{}
