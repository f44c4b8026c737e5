use crate::Cause;
use stamp_base::{KeyNo, Mark, Name, NodeNo, SessionNo, Stage, Stamp, Store, Term, TxnId, Value};

/// Who acts.
#[derive(Clone, Copy, Debug, PartialEq, Eq)]
pub enum Actor {
    /// The base clock.
    Clock,
    /// A node.
    Node(NodeNo),
    /// A session.
    Session(SessionNo),
    /// The janitor, which sweeps abandoned transactions.
    Janitor,
}

/// What an actor notes of its part in the script.
#[derive(Clone, Copy, Debug, PartialEq, Eq)]
pub enum Note {
    /// It posts the name.
    Post(Name),
    /// It awaits the name.
    Await(Name),
    /// It holds the stage of its node.
    Hold(Stage),
    /// It frees the stage of its node.
    Free(Stage),
}

/// The version of a key that a read found.
#[derive(Clone, Copy, Debug, PartialEq, Eq)]
pub struct Found {
    /// The transaction that wrote it.
    pub from: TxnId,
    /// What it wrote.
    pub value: Value,
}

/// What a look at a cell saw.
#[derive(Clone, Copy, Debug, PartialEq, Eq)]
pub enum Seen {
    /// A cell without a shadow.
    Bare,
    /// No cell.
    Gone,
    /// A cell with this shadow.
    Commit(Stamp),
}

/// One step on the stores, as the history shows it.
#[derive(Clone, Copy, Debug, PartialEq, Eq)]
pub enum StoreStep {
    /// The cells of the key up to a start were fetched; so many there are.
    Fetch {
        key: KeyNo,
        cells: u64,
    },
    /// The commit table was asked for the transaction. None where it has no entry.
    Get {
        txn: TxnId,
        answer: Option<Mark>,
    },
    /// A mark was to be placed, and this entry was there.
    MarkFound {
        txn: TxnId,
        mark: Mark,
    },
    /// A cell was looked at.
    Look {
        key: KeyNo,
        txn: TxnId,
        answer: Seen,
    },
    /// A cell's shadow was set to the commit.
    Shadow {
        key: KeyNo,
        txn: TxnId,
        commit: Stamp,
    },
    /// The transaction's commit was removed from the commit table.
    Remove {
        txn: TxnId,
    },
    /// A cell without a shadow was removed.
    Erase {
        key: KeyNo,
        txn: TxnId,
    },
    /// The keys of the transaction's cells were listed; so many there are.
    Keys {
        txn: TxnId,
        count: u64,
    },
    /// A commit was to be placed, and an invalid mark was there.
    PutFound {
        txn: TxnId,
    },
    /// The oracle handed the transaction's commit to its session, which places it itself.
    Handed {
        txn: TxnId,
        commit: Stamp,
    },
}

/// How a transaction ended without a commit.
#[derive(Clone, Copy, Debug, PartialEq, Eq)]
pub enum Ending {
    /// It was to commit and had written nothing.
    ReadOnly,
    /// Its session gave it up.
    Aborted,
    /// It can't commit any more.
    Dead,
}

/// One entry of a history. Readings, ends of leases (`until`) and what a clock stands at (`to`) are in ticks of the base clock;
/// terms, epochs and ceilings are no times.
#[derive(Clone, Copy, Debug, PartialEq, Eq)]
pub enum Item {
    /// The base clock stands at `to`.
    Tick {
        to: u64,
    },
    /// The actor notes its part in the script.
    Note {
        actor: Actor,
        note: Note,
    },
    /// The node took the master record at a reading of its clock: a new term, whose oracle draws the stamps above `epoch` up to
    /// `ceiling`, under a lease that ends at `until`.
    Take {
        node: NodeNo,
        reading: u64,
        term: Term,
        epoch: u64,
        until: u64,
        ceiling: u64,
    },
    /// The node's lease lasts to `until`, renewed at a reading of its clock.
    Renew {
        node: NodeNo,
        reading: u64,
        term: Term,
        until: u64,
    },
    /// The node's instance may draw up to `ceiling`.
    Extend {
        node: NodeNo,
        term: Term,
        ceiling: u64,
    },
    /// The session asked the node for a start.
    AskBegin {
        session: SessionNo,
        node: NodeNo,
    },
    /// The session asked the node to commit its transaction.
    AskCommit {
        session: SessionNo,
        node: NodeNo,
        start: Stamp,
    },
    /// The node accepted the session's request at a reading of its clock, in ticks of the base clock.
    Accept {
        session: SessionNo,
        node: NodeNo,
        term: Term,
        reading: u64,
    },
    /// A stamp was drawn: the start of a begin, or the commit of a transaction.
    Draw {
        session: SessionNo,
        node: NodeNo,
        term: Term,
        start: Stamp,
        commit: Option<Stamp>,
    },
    /// The session's transaction began with the start.
    Begin {
        session: SessionNo,
        start: Stamp,
    },
    /// The transaction wrote the value at the key.
    Write {
        session: SessionNo,
        start: Stamp,
        key: KeyNo,
        value: Value,
    },
    /// What the key had for the transaction; None where it had nothing.
    Read {
        session: SessionNo,
        start: Stamp,
        key: KeyNo,
        answer: Option<Found>,
    },
    /// The commit stands in the commit table.
    Placed {
        start: Stamp,
        commit: Stamp,
    },
    /// The session was told that its transaction committed.
    Committed {
        session: SessionNo,
        start: Stamp,
        commit: Stamp,
    },
    /// An invalid mark was placed.
    Mark {
        actor: Actor,
        start: Stamp,
    },
    /// The actor made a step on the stores.
    Step {
        actor: Actor,
        what: StoreStep,
    },
    /// The transaction ended without a commit.
    End {
        session: SessionNo,
        start: Stamp,
        how: Ending,
    },
    /// The actor was refused, for the cause.
    Refused {
        actor: Actor,
        cause: Cause,
    },
    /// A call on the store failed.
    Fault {
        actor: Actor,
        store: Store,
    },
    /// The node's oracle of the term ended.
    Crash {
        node: NodeNo,
        term: Term,
    },
    /// The session is gone for good.
    Vanish {
        session: SessionNo,
    },
}
