// The calls on requests: asks, what a node does with what it holds, and its crash.
ghost use Rattle.std.specs.Prelude.{List};
ghost use Rattle.history_book.specs.declared.item.Item.{Item};
ghost use Rattle.machine.specs.State.{State};
ghost use Rattle.cause_laws.specs.ShownInvariant.{ExplainedInvariant};
ghost use Rattle.cause_laws.specs.RequestCalls.{BeginMayBeAsked, CommitMayBeAsked, RequestsAreWaitedFor, PutMayBeMade};

/// No node holds a request of a session that may begin.
pub fn begin_may_be_asked()
    ensures { (w : State) (h : List Item) → ExplainedInvariant w h → BeginMayBeAsked w }
{}

/// No node holds a request of a session whose transaction may go on.
pub fn commit_may_be_asked()
    ensures { (w : State) (h : List Item) → ExplainedInvariant w h → CommitMayBeAsked w }
{}

/// A session waits for the request that a node holds of it, and accepts, decides, answers or loses by a crash, unless it has
/// vanished.
pub fn requests_are_waited_for()
    ensures { (w : State) (h : List Item) → ExplainedInvariant w h → RequestsAreWaitedFor w }
{}

/// The put of an instance never finds a commit: the commit table has none of a transaction that is to be placed.
pub fn put_may_be_made()
    ensures { (w : State) (h : List Item) → ExplainedInvariant w h → PutMayBeMade w }
{}
