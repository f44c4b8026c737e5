use persist_batches::Numbered;
use std::collections::LinkedList;

/// What was put and taken through a pass of a batch ring. No value of it is made.
pub struct BatchAccount {
    /// Whether it is the sender's. It then has all that was sent.
    pub sends: bool,
    /// Its parts of the right to know everything.
    pub parts: u64,
    /// The batches put through the pass, in order.
    pub put: LinkedList<Numbered>,
    /// The batches taken through the pass, in order.
    pub taken: LinkedList<Numbered>,
    /// What was taken through each pass that was joined to this one.
    pub others: LinkedList<LinkedList<Numbered>>,
}
