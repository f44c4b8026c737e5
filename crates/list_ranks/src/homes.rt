// Appends, where the hints have them.
ghost use Rattle.std.specs.Prelude.{◌≡◌, ℕ, IfSome, OnOk, Some, length, slice_get, true};
ghost use Rattle.trace_rules.specs.Trace.{committed_in};
ghost use Rattle.list_orders.specs.Lists.{WriteAt};
ghost use Rattle.list_ranks.specs.Hints.{AreHomes, IsHome, home_of};

use crate::hints::Hints;
use trace_rules::{Operation, Trace, Transaction};

/// An append.
#[derive(Clone, Copy, Debug, PartialEq, Eq)]
pub struct Append {
    /// Its place among the operations.
    pub place: usize,
    /// Its transaction's place.
    pub txn: usize,
}

/// A member of a list.
#[derive(Clone, Copy, Debug, PartialEq, Eq)]
pub struct Member {
    /// The value.
    pub value: u64,
    /// Its append.
    pub append: Append,
}

/// The list's member at the place, where the hints have its append.
pub fn member_at(
    trace: &Trace,
    hints: &Hints,
    key: u64,
    values: &[u64],
    place: usize,
) -> Option<Member>
    ensures at { IfSome result (λ m. slice_get values.now place ≡ Some m.value) }
    ensures home { IfSome result (λ m. IsHome trace.now hints.now key m.value m.append) }
{
    let value = value_at(values, place)?;
    let append = append_of(trace, hints, key, value)?;
    Some(Member { value, append })
}

/// The value at the place.
pub fn value_at(values: &[u64], place: usize) -> Option<u64>
    ensures { result ≡ slice_get values.now place }
{
    match values.get(place) {
        None => None,
        Some(value) => Some(*value),
    }
}

/// The append of the value at the key.
pub fn append_of(trace: &Trace, hints: &Hints, key: u64, value: u64) -> Option<Append>
    ensures { IfSome result (IsHome trace.now hints.now key value) }
{
    let place = hints.home(key, value)?;
    let txn = writer_at(trace, place, key, value)?;
    Some(Append { place, txn })
}

/// Who writes the value at the key at this place.
pub fn writer_at(trace: &Trace, place: usize, key: u64, value: u64) -> Option<usize>
    ensures { IfSome result (λ txn. WriteAt trace.now place txn key value) }
{
    match trace.operations.get(place) {
        Some(
            Operation::Write {
                txn,
                key: written,
                value: found,
            },
        ) => writes(*txn, *written == key && *found == value),
        _ => None,
    }
}

fn writes(txn: usize, same: bool) -> Option<usize>
    ensures { IfSome result (λ writer. (same ≡ true) × (writer ≡ txn)) }
{
    if same { Some(txn) } else { None }
}

/// Whether the hint for each write's value is right.
pub fn are_homes(trace: &Trace, hints: &Hints) -> bool
    ensures { result ≡ true → AreHomes trace.now hints.now }
{
    for place in 0..operations_in(trace) {
        if !is_home(trace, hints, place) {
            return false;
        }
    }
    true
}

fn is_home(trace: &Trace, hints: &Hints, place: usize) -> bool
    ensures { result ≡ true → (w k v : ℕ) → WriteAt trace.now place w k v → home_of hints.now k v ≡ Some place }
{
    match trace.operations.get(place) {
        Some(Operation::Write { key, value, .. }) => hints.home(*key, *value) == Some(place),
        _ => true,
    }
}

/// How many operations there are.
pub fn operations_in(trace: &Trace) -> usize
    ensures { result ≡ length trace.now.operations }
{
    trace.operations.len()
}

/// Whether the transaction committed. False where there is no such transaction.
pub fn is_committed(transactions: &[Transaction], txn: usize) -> bool
    ensures { result ≡ committed_in (slice_get transactions.now txn) }
{
    match transactions.get(txn) {
        None => false,
        Some(transaction) => transaction.committed,
    }
}
