// The versions that committed transactions wrote.
ghost use Rattle.std.specs.Prelude.{◌≡◌, ◌↔◌, ◌<◌, ◌∷◌, ◌++◌, [], List, IfOk, IsTrue, MatchOption, OnOk, Some, length, slice_get};
ghost use Rattle.trace_rules.specs.declared.trace.Operation.{Operation};
ghost use Rattle.trace_rules.specs.Trace.{committed_in, last_of};
ghost use Rattle.outer_reads.specs.Sources.{AreWritings, HasLast, Leaves, LeavesNone, trace_of};

use crate::values::LastValues;
use std::alloc::{AllocError, Global};
use trace_rules::{Operation, Transaction};

/// A committed transaction's last value at a key.
#[derive(Clone, Copy, Debug, PartialEq, Eq)]
pub struct Writing {
    /// The writer's place among the transactions.
    pub txn: usize,
    /// The key's number.
    pub key: u64,
    /// The value's number.
    pub value: u64,
}

/// Each version of a committed transaction, once where no transaction writes a value twice. AllocError where memory is refused.
pub fn writings_of(
    alloc: Global,
    transactions: &[Transaction],
    operations: &[Operation],
    last: &LastValues,
) -> Result<Vec<Writing>, AllocError>
    requires { HasLast operations.now last.now.values }
    ensures { IfOk result (λ writings. AreWritings (trace_of transactions.now operations.now) writings.items) }
{
    let mut writings = Vec::new(alloc);
    for place in 0..operations.len() {
        let found = writing_at(transactions, operations, last, place);
        add(&mut writings, found)?;
    }
    Ok(writings)
}

fn add(writings: &mut Vec<Writing>, found: Option<Writing>) -> Result<(), AllocError>
    ensures { OnOk result (MatchOption found (writings.new.items ≡ writings.old.items) (λ w. writings.new.items ≡ writings.old.items ++ w ∷ [])) }
{
    if let Some(writing) = found {
        writings.push(writing)?;
    }
    Ok(())
}

/// What the operation at the place leaves as a version.
fn writing_at(
    transactions: &[Transaction],
    operations: &[Operation],
    last: &LastValues,
    place: usize,
) -> Option<Writing>
    requires last { HasLast operations.now last.now.values }
    requires place { place < length operations.now }
    ensures { (operation : Operation) → slice_get operations.now place ≡ Some operation →
        MatchOption result (LeavesNone (trace_of transactions.now operations.now) operation) (λ w. Leaves (trace_of transactions.now operations.now) operation w) }
{
    match &operations[place] {
        Operation::Read { .. } => None,
        Operation::Write { txn, key, value } => {
            if is_committed(transactions, *txn) && is_last(last, *txn, *key, *value) {
                Some(Writing {
                    txn: *txn,
                    key: *key,
                    value: *value,
                })
            } else {
                None
            }
        }
    }
}

/// Whether the transaction committed. False where there is no such transaction.
pub fn is_committed(transactions: &[Transaction], txn: usize) -> bool
    ensures { result ≡ committed_in (slice_get transactions.now txn) }
{
    match transactions.get(txn) {
        None => false,
        Some(transaction) => transaction.committed,
    }
}

/// Whether this is the transaction's last value at the key.
pub fn is_last(last: &LastValues, txn: usize, key: u64, value: u64) -> bool
    ensures { (part : List Operation) → HasLast part last.now.values → IsTrue result ↔ (last_of part txn key ≡ Some value) }
{
    match last.last(txn, key) {
        None => false,
        Some(found) => found == value,
    }
}
