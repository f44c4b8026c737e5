// The operations that count, transaction by transaction.
ghost use Rattle.std.specs.Prelude.{◌≡◌, ◌++◌, IfOk, OnOk};
ghost use Rattle.trace_index.specs.Said.{counts, list_counts, range_of, read_counts, said_by, said_each, said_from, said_of};

use crate::attempts::{Attempt, Fate};
use stamp_base::NoMemory;
use std::alloc::Global;
use trace_reading::Operation;

/// An operation of the transaction at this place, by its own place among the transaction's.
#[derive(Clone, Copy, Debug, PartialEq, Eq)]
pub struct Said {
    /// The transaction's place.
    pub txn: usize,
    /// Its place among the transaction's.
    pub member: u64,
    /// The operation.
    pub operation: Operation,
}

/// The operations of all transactions that count, each transaction's in its order.
pub fn said_of_all(
    alloc: Global,
    attempts: &[Attempt],
    operations: &[Operation],
) -> Result<Vec<Said>, NoMemory>
    ensures { IfOk result (λ said. said.items ≡ said_from operations.now 0 attempts.now) }
{
    let mut said = Vec::new(alloc);
    for txn in 0..attempts.len() {
        add_said(&mut said, operations, txn, &attempts[txn])?;
    }
    Ok(said)
}

fn add_said(
    said: &mut Vec<Said>,
    operations: &[Operation],
    txn: usize,
    attempt: &Attempt,
) -> Result<(), NoMemory>
    ensures { OnOk result (said.new.items ≡ said.old.items ++ said_of operations.now txn attempt.now) }
{
    let own = range_of(operations, attempt.first, attempt.end);
    for member in 0..own.len() {
        add_where_it_counts(said, attempt.fate, txn, member as u64, own[member])?;
    }
    Ok(())
}

fn add_where_it_counts(
    said: &mut Vec<Said>,
    fate: Fate,
    txn: usize,
    member: u64,
    operation: Operation,
) -> Result<(), NoMemory>
    ensures { OnOk result (said.new.items ≡ said.old.items ++ said_by fate txn member operation) }
{
    if counts(fate, &operation) {
        said.extend_from_slice(&[Said {
            txn,
            member,
            operation,
        }])?;
    }
    Ok(())
}

/// The operations from a place to before another, where they are there.
fn range_of(operations: &[Operation], first: u64, end: u64) -> &[Operation]
    ensures { result.now ≡ range_of first end operations.now }
{
    if first <= end && end <= operations.len() as u64 {
        &operations[first as usize..end as usize]
    } else {
        &[]
    }
}

fn counts(fate: Fate, operation: &Operation) -> bool
    ensures { result ≡ counts fate operation.now }
{
    match operation {
        Operation::Read { answer, .. } => read_counts(fate, *answer),
        Operation::ReadList { .. } => list_counts(fate),
        Operation::Write { .. } | Operation::Append { .. } => true,
    }
}

fn list_counts(fate: Fate) -> bool
    ensures { result ≡ list_counts fate }
{
    match fate {
        Fate::Committed | Fate::Open => true,
        Fate::Aborted => false,
    }
}

fn read_counts(fate: Fate, answer: Option<u64>) -> bool
    ensures { result ≡ read_counts fate answer }
{
    match fate {
        Fate::Committed => true,
        Fate::Aborted => false,
        Fate::Open => answer.is_some(),
    }
}
