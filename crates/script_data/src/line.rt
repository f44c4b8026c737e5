use history_book::Actor;
use stamp_base::{KeyNo, Name, NodeNo, SessionNo, Stage, TxnId, Value};

/// Where a begin or a commit is sent: to a node, or to the master, which whoever carries the line out finds.
#[derive(Clone, Copy, Debug, PartialEq, Eq)]
pub enum Target {
    /// A node by its number.
    Node(NodeNo),
    /// The node that has the master record.
    Master,
}

/// What an actor's line asks for. Time is in ticks of the base clock.
#[derive(Clone, Copy, Debug, PartialEq, Eq)]
pub enum Verb {
    /// The base clock goes on by so many ticks.
    Tick { by: u64 },
    /// The node takes the master record.
    Take,
    /// The node renews its lease.
    Renew,
    /// The node's oracle ends.
    Crash,
    /// The node asks for a further range of stamps.
    Extend,
    /// The node's stage is held, until it is freed.
    Hold { stage: Stage },
    /// The node's stage goes on.
    Free { stage: Stage },
    /// The node accepts the session's request.
    Accept { session: SessionNo },
    /// The node draws the stamp of the session's request.
    Decide { session: SessionNo },
    /// The node places the record of the session's commit.
    Put { session: SessionNo },
    /// The node answers the session's request.
    Answer { session: SessionNo },
    /// The session asks for a start, and waits for it.
    Begin { target: Target },
    /// The session asks for a commit, and waits for what becomes of it.
    Commit { target: Target },
    /// The session asks for a commit, and waits for its stamp alone.
    Submit { target: Target },
    /// The session asks the node for a start, and waits for nothing.
    AskBegin { node: NodeNo },
    /// The session asks the node for a commit, and waits for nothing.
    AskCommit { node: NodeNo },
    /// The session writes the value at the key.
    Write { key: KeyNo, value: Value },
    /// The session reads the key, to its answer.
    Read { key: KeyNo },
    /// The session begins a read of the key.
    Fetch { key: KeyNo },
    /// The session waits for what becomes of the commit that it submitted.
    Collect,
    /// The session ends its transaction without a commit.
    Abort,
    /// The session sets the shadow that its last read offered.
    Heal,
    /// The session is gone for good.
    Vanish,
    /// The session or the janitor makes one step of what is under way.
    Step,
    /// The session or the janitor makes all steps that are left.
    Finish,
    /// The janitor sweeps the transaction, by the epoch of the node's oracle, to the end.
    Sweep { node: NodeNo, txn: TxnId },
    /// The janitor begins to sweep the transaction, by the epoch of the node's oracle.
    OpenSweep { node: NodeNo, txn: TxnId },
    /// The name is posted.
    Post { name: Name },
    /// The line waits until the name is posted.
    Await { name: Name },
}

/// A line of an actor. Lines are numbered from 1, empty ones and comments included.
#[derive(Clone, Copy, Debug, PartialEq, Eq)]
pub struct Line {
    /// Its number in the file.
    pub number: u64,
    /// Who is to do it.
    pub actor: Actor,
    /// What is to be done.
    pub verb: Verb,
}
