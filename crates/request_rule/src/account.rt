use stamp_base::{SessionNo, Term};
use std::collections::LinkedList;

/// A request that waits to be served: of which session it is, and which term's instance was asked.
#[derive(Clone, Copy, Debug, PartialEq, Eq)]
pub struct Ticket {
    /// The session that asked.
    pub session: SessionNo,
    /// The term of the instance that was asked.
    pub term: Term,
}

/// A ticket that was taken, with the number of its sender. No value of it is made.
pub struct TakenTicket {
    /// The sender's number, from 0.
    pub sender: u64,
    /// The ticket.
    pub ticket: Ticket,
}

/// What one sender put. No value of it is made.
pub struct SenderRow {
    /// The sender's number, from 0.
    pub sender: u64,
    /// The tickets that it put, in order.
    pub put: LinkedList<Ticket>,
}

/// What was put and taken through a pass of a request ring. No value of it is made.
pub struct RequestAccount {
    /// Whether it is the receiver's. It then has all that was taken, and makes the senders' passes.
    pub receives: bool,
    /// How many senders' passes were made, as far as the receiver's account tells. They are numbered from 0.
    pub senders: u64,
    /// The tickets taken through the pass, in order.
    pub taken: LinkedList<TakenTicket>,
    /// What was put through the pass and through each sender's that was joined to it.
    pub rows: LinkedList<SenderRow>,
}
