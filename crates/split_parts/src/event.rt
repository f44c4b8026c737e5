// What can happen to the parts.
use history_book::{Actor, Note};
use script_data::Target;
use stamp_base::{KeyNo, NodeNo, SessionNo, TxnId, Value};

/// What can happen to the system. It is an event of the machine without what the clock tells: a reading is the base clock, as
/// its part has it, with the node's lead, and a tick says by how much the base clock rises. An ask of the master is one of the node
/// that holds the record.
#[derive(Clone, Copy, Debug, PartialEq, Eq)]
pub enum Event {
    /// The base clock goes on by so many ticks.
    Tick {
        by: u64,
    },
    /// An actor notes its part in the script.
    Note {
        actor: Actor,
        note: Note,
    },
    /// The node takes the master record.
    Take {
        node: NodeNo,
    },
    /// The node renews its lease.
    Renew {
        node: NodeNo,
    },
    /// The node asks for a further range of stamps.
    Extend {
        node: NodeNo,
    },
    /// The node's oracle ends, with all requests that it holds.
    Crash {
        node: NodeNo,
    },
    /// The session asks the node for a start.
    AskBegin {
        session: SessionNo,
        target: Target,
    },
    /// The session asks the node to commit what it wrote.
    AskCommit {
        session: SessionNo,
        target: Target,
    },
    /// The node accepts the session's request.
    Accept {
        node: NodeNo,
        session: SessionNo,
    },
    /// The node draws the stamp of the session's request.
    Decide {
        node: NodeNo,
        session: SessionNo,
    },
    /// The node places the record of the session's commit.
    Put {
        node: NodeNo,
        session: SessionNo,
    },
    /// The node answers the session's request.
    Answer {
        node: NodeNo,
        session: SessionNo,
    },
    /// The session writes a value at a key.
    Write {
        session: SessionNo,
        key: KeyNo,
        value: Value,
    },
    /// The session begins a read of a key.
    Fetch {
        session: SessionNo,
        key: KeyNo,
    },
    /// The session makes the next step of what it has under way.
    Step {
        session: SessionNo,
    },
    /// The session sets the shadow that its last read offered.
    Heal {
        session: SessionNo,
    },
    /// The session ends its transaction without a commit.
    Abort {
        session: SessionNo,
    },
    /// The session is gone for good.
    Vanish {
        session: SessionNo,
    },
    /// The janitor begins to sweep the transaction, by the epoch of the node's oracle.
    SweepOpen {
        node: NodeNo,
        txn: TxnId,
    },
    /// The janitor makes the next step of the open sweep.
    SweepStep,
}
