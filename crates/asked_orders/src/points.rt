// The moments between which a transaction's start and commit surely lie.
ghost use Rattle.std.specs.Prelude.{◌≡◌, slice_get};
ghost use Rattle.trace_rules.specs.Stamping.{Start, Commit};
ghost use Rattle.trace_rules.specs.Trace.{committed_in};
ghost use Rattle.trace_rules.specs.Wants.{moments_of};

use trace_rules::{Level, Times, Transaction};

/// The moment behind which the transaction's start surely lies: when its begin was asked for. None where that is not known, or
/// there is no such transaction.
pub fn from_start(level: Level, times: &[Times], txn: usize) -> Option<u64>
    ensures { result ≡ (moments_of level times.now).from (Start txn) }
{
    match times.get(txn) {
        None => None,
        Some(known) => known.asked,
    }
}

/// The moment before which the transaction's start surely lies: when it had begun. None at the serializable level, where that is
/// not known, and where there is no such transaction.
pub fn until_start(level: Level, times: &[Times], txn: usize) -> Option<u64>
    ensures { result ≡ (moments_of level times.now).until (Start txn) }
{
    match level {
        Level::Snapshot => match times.get(txn) {
            None => None,
            Some(known) => known.began,
        },
        Level::Serializable => None,
    }
}

/// The moment behind which the transaction's commit surely lies: when it was asked for. None at the serializable level, where that
/// is not known, and where there is no such transaction.
pub fn from_commit(level: Level, times: &[Times], txn: usize) -> Option<u64>
    ensures { result ≡ (moments_of level times.now).from (Commit txn) }
{
    match level {
        Level::Snapshot => match times.get(txn) {
            None => None,
            Some(known) => known.committing,
        },
        Level::Serializable => None,
    }
}

/// The moment before which the transaction's commit surely lies: when it was completed. None where that is not known, or there is
/// no such transaction.
pub fn until_commit(level: Level, times: &[Times], txn: usize) -> Option<u64>
    ensures { result ≡ (moments_of level times.now).until (Commit txn) }
{
    match times.get(txn) {
        None => None,
        Some(known) => known.completed,
    }
}

/// Whether the transaction committed. False where there is no such transaction.
pub fn is_committed(transactions: &[Transaction], txn: usize) -> bool
    ensures { result ≡ committed_in (slice_get transactions.now txn) }
{
    match transactions.get(txn) {
        None => false,
        Some(transaction) => transaction.committed,
    }
}
