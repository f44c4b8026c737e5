ghost use Rattle.system_parts.specs.SessionSteps.{SessionsKeepSense};
ghost use Rattle.system_parts.specs.WriteLists.{WriteListsAreFirstWrites};

/// What a client session is about.
#[derive(Clone, Copy, Debug, PartialEq, Eq)]
pub enum State {
    /// No transaction.
    Free,
    /// A begin was asked.
    Asking,
    /// A transaction reads and writes.
    Open,
    /// A commit was asked.
    Committing,
    /// The oracle has drawn the commit, and the session is to place its record.
    Placing,
    /// It is not known whether the commit was placed.
    OpenOutcome,
    /// The cells of a transaction that has ended are erased, or those of a committed one get their shadows.
    Completing { undo: bool },
    /// The session has vanished for good.
    Gone,
}

/// Every call whose condition is met keeps what a state tells of the transaction.
pub fn sessions_keep_sense()
    ensures { SessionsKeepSense }
{}

/// A write list has each key once: the first write of a key adds it at the end, and a later one leaves the list.
pub fn write_lists_are_first_writes()
    ensures { WriteListsAreFirstWrites }
{}
