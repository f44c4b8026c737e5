ghost use Rattle.trace_rules.specs.Trace as plain;

use std::marker::Model;

/// A version of a key: the place of the transaction that wrote it, and the value's number.
#[derive(Clone, Copy, Debug, PartialEq, Eq)]
pub struct Version {
    /// The place of the transaction that wrote it.
    pub from: usize,
    /// The value's number.
    pub value: u64,
}

/// One operation of the transaction at the place `txn`. A transaction's operations stand in its own order; how those of
/// different transactions lie between one another does not matter.
#[derive(Clone, Copy, Debug, PartialEq, Eq)]
pub enum Operation {
    /// What the key had for the transaction; None where it had nothing.
    Read {
        txn: usize,
        key: u64,
        answer: Option<Version>,
    },
    /// What the transaction wrote at the key.
    Write {
        txn: usize,
        key: u64,
        value: u64,
    },
}

/// A transaction of a process.
#[derive(Clone, Copy, Debug, PartialEq, Eq)]
pub struct Transaction {
    /// The process's number.
    pub process: u64,
    /// Whether it committed.
    pub committed: bool,
}

/// A trace as it is judged: keys, values and processes are numbers, and a transaction is named by its place.
#[derive(Drop)]
pub struct Trace {
    /// The transactions, each at its place.
    pub transactions: Vec<Transaction>,
    /// The operations of all transactions.
    pub operations: Vec<Operation>,
}

impl Model for Trace {
    ghost Value = { plain.Trace };

    ghost view = { λ t. record { transactions = t.transactions.items; operations = t.operations.items } };
}
