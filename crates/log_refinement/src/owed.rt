// What a line owes.
use stamp_base::{KeyNo, NodeNo, TxnId};

/// The event of a node that a request waits for.
#[derive(Clone, Copy, Debug, PartialEq, Eq)]
pub enum Due {
    /// The request is asked, and not accepted.
    Accept,
    /// The request is accepted, and its stamp not drawn.
    Decide,
    /// A commit is drawn.
    Put,
    /// A begin is drawn, or the put of a commit has ended.
    Answer,
}

/// What the present line of a session has begun and its log does not show the end of yet.
#[derive(Clone, Copy, Debug, PartialEq, Eq)]
pub enum Owed {
    /// No end is owed.
    Nothing,
    /// The end of a read of the key.
    Read { key: KeyNo },
    /// What becomes of what was asked of the node, of which the log shows that this event is due.
    Answer { node: NodeNo, due: Due },
    /// The node that was asked has no request of the session for the event that is due: others have served it, or it is lost.
    Denied,
    /// The commit is placed: that its pair is removed from the table.
    Removal { start: TxnId },
    /// The commit was refused: that the cells which it wrote are erased.
    Erasure,
    /// The node has no instance any more, so that nobody answers: that nothing is left to complete.
    Quiet,
}
