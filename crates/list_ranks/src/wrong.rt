// What is wrong with a list that was read, whatever stamps there are.

/// What is wrong with a list.
#[derive(Clone, Copy, Debug, PartialEq, Eq)]
pub enum Flaw {
    /// A member is of a transaction that did not commit.
    Dirty,
    /// Of one writer a later member stands before an earlier one, or is it.
    Turned,
    /// A member of another writer stands between two of one.
    Split,
    /// A value is not there that its writer appended before one of the members.
    Missing,
    /// A value is not there of a writer behind one of whose members stands another writer's.
    Cut,
    /// Another list of the key has another member at one place, and the same before it.
    Different,
}

/// A list that no stamps give.
#[derive(Clone, Copy, Debug, PartialEq, Eq)]
pub struct WrongList {
    /// Whose list it is, by its place among the transactions.
    pub reader: usize,
    /// The key's number.
    pub key: u64,
    /// The transaction that the list is wrong beside: the writer of a value, or, where lists differ, the other one's reader.
    pub other: usize,
    /// What is wrong.
    pub flaw: Flaw,
}

/// Why lists are not certified.
#[derive(Clone, Copy, Debug, PartialEq, Eq)]
pub enum Stop {
    /// No stamps give this one.
    Wrong(WrongList),
    /// The hints do not show it.
    Unknown,
}
