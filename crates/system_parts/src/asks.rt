use stamp_base::{KeyNo, Stamp, TxnId};

/// The next store step of a step machine.
#[derive(Clone, Copy, Debug, PartialEq, Eq)]
pub enum Ask {
    /// What has the commit table of the transaction?
    Get(TxnId),
    /// Mark the transaction as invalid, unless the commit table has it.
    Mark(TxnId),
    /// Has the cell of the key and the version a shadow?
    Look(KeyNo, TxnId),
    /// Set the cell's shadow to the commit.
    Shadow(KeyNo, TxnId, Stamp),
    /// Remove the transaction's commit from the commit table.
    Remove(TxnId),
    /// Remove the cell where it has no shadow.
    Erase(KeyNo, TxnId),
    /// Which keys have a cell of the version?
    Keys(TxnId),
}

/// The answer to a store step. A step `Keys` is answered by a list of keys instead.
#[derive(Clone, Copy, Debug, PartialEq, Eq)]
pub enum Told {
    /// The commit table has no entry.
    Absent,
    /// The commit table has an invalid mark.
    Invalid,
    /// The commit table has this commit.
    Committed(Stamp),
    /// The mark was placed.
    Marked,
    /// The cell is there, without a shadow.
    Bare,
    /// There is no such cell.
    Gone,
    /// The cell has this shadow.
    Shadowed(Stamp),
    /// The step was done.
    Done,
}
