use persist_batches::Numbered;
use std::collections::LinkedList;

/// What was put and taken through a pass of a settled ring. No value of it is made.
pub struct SettledAccount {
    /// Its parts of the right to know everything.
    pub parts: u64,
    /// The batches put through the pass.
    pub put: LinkedList<Numbered>,
    /// The batches taken through the pass.
    pub taken: LinkedList<Numbered>,
}
