/// What is asked of a trace: of which transactions none may overlap.
#[derive(Clone, Copy, Debug, PartialEq, Eq)]
pub enum Level {
    /// Of those that wrote one key.
    Snapshot,
    /// Of all.
    Serializable,
}

/// Which order is asked for besides.
#[derive(Clone, Copy, Debug, PartialEq, Eq)]
pub enum Wanted {
    /// None.
    Nothing,
    /// A transaction starts after the commits of those that its process had before.
    Sessions,
    /// What surely was before something else comes before it.
    RealTime,
}

/// The moments between which a transaction's start and commit lie, each None where it is not known. Its start came after it
/// was asked for and before it had begun, its commit after it was asked for and before it was completed.
#[derive(Clone, Copy, Debug, PartialEq, Eq)]
pub struct Times {
    /// When its start was asked for.
    pub asked: Option<u64>,
    /// When it had begun.
    pub began: Option<u64>,
    /// When its commit was asked for.
    pub committing: Option<u64>,
    /// When it was completed.
    pub completed: Option<u64>,
}
