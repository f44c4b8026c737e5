// What sessions are told of their transactions is true.
ghost use Rattle.service_laws.specs.Told.{ToldAtFirst, EventsKeepTold, ToldTrueNow, ToldTrueAlways, OneOutcomeAlways};

/// Before the first event nothing is told.
pub fn told_at_first()
    ensures { ToldAtFirst }
{}

/// Every event keeps it so that what was told is true, in every state that is reached.
pub fn events_keep_told()
    ensures { EventsKeepTold }
{}

/// Where events have kept it, what the history tells is true.
pub fn told_stays_true()
    ensures { ToldTrueNow }
{}

/// In every history of the machine, a commit that is told was placed before, and what was told to be over without a commit is never
/// placed, neither before nor later.
pub fn told_is_true()
    ensures { ToldTrueAlways }
{}

/// So no transaction is told two outcomes.
pub fn one_outcome_is_told()
    ensures { OneOutcomeAlways }
{}
