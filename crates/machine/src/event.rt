use history_book::{Actor, Note};
use stamp_base::{KeyNo, NodeNo, SessionNo, TxnId, Value};

/// What can happen to the system. Each event is one atomic step, and makes at most one call on a store. Readings, and what a clock
/// stands at, are in ticks of the base clock.
#[derive(Clone, Copy, Debug, PartialEq, Eq)]
pub enum Event {
    /// The base clock stands at `to`.
    Tick {
        to: u64,
    },
    /// An actor notes its part in the script.
    Note {
        actor: Actor,
        note: Note,
    },
    /// The node takes the master record at a reading of its clock.
    Take {
        node: NodeNo,
        reading: u64,
    },
    /// The node renews its lease at a reading of its clock.
    Renew {
        node: NodeNo,
        reading: u64,
    },
    /// The node asks for a further range of stamps.
    Extend {
        node: NodeNo,
    },
    /// The node's instance ends, with all requests that it holds.
    Crash {
        node: NodeNo,
    },
    /// The session asks the node for a start.
    AskBegin {
        session: SessionNo,
        node: NodeNo,
    },
    /// The session asks the node to commit what it wrote.
    AskCommit {
        session: SessionNo,
        node: NodeNo,
    },
    /// The node accepts the session's request at a reading of its clock.
    Accept {
        node: NodeNo,
        session: SessionNo,
        reading: u64,
    },
    /// The node draws the stamp of the session's request.
    Decide {
        node: NodeNo,
        session: SessionNo,
    },
    /// The node places the record of the session's commit.
    Put {
        node: NodeNo,
        session: SessionNo,
    },
    /// The node answers the session's request.
    Answer {
        node: NodeNo,
        session: SessionNo,
    },
    /// The session writes a value at a key.
    Write {
        session: SessionNo,
        key: KeyNo,
        value: Value,
    },
    /// The session begins a read of a key, by a fetch of its cells.
    Fetch {
        session: SessionNo,
        key: KeyNo,
    },
    /// The session makes the next step of what it has under way.
    Step {
        session: SessionNo,
    },
    /// The session sets the shadow that its last read offered.
    Heal {
        session: SessionNo,
    },
    /// The session ends its transaction without a commit.
    Abort {
        session: SessionNo,
    },
    /// The session is gone for good.
    Vanish {
        session: SessionNo,
    },
    /// The janitor begins to sweep a transaction, by the epoch of the node's instance.
    SweepOpen {
        node: NodeNo,
        txn: TxnId,
    },
    /// The janitor makes the next step of the sweep.
    SweepStep,
}

/// What a session is doing.
#[derive(Clone, Copy, Debug, PartialEq, Eq)]
pub enum Doing {
    /// It has no transaction.
    Free,
    /// It waits for the answer to a request.
    Waiting,
    /// Its transaction is open, and nothing is under way.
    Open,
    /// Its transaction is open, and a read is under way.
    Reading,
    /// Its commit is drawn, and it is to place the record.
    Placing,
    /// It is not known whether its commit was placed.
    OpenOutcome,
    /// Its cells get their shadows, or are erased.
    Completing,
    /// It has vanished.
    Gone,
}
