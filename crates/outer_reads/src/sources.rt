// The sources of all reads.
ghost use Rattle.std.specs.Prelude.{◌≡◌, ◌↔◌, ℕ, IfOk, IsTrue, List, MatchOption, Some, length, slice_get};
ghost use Rattle.trace_rules.specs.declared.trace.Operation.{Operation};
ghost use Rattle.outer_reads.specs.declared.readings.Reading.{Reading};
ghost use Rattle.outer_reads.specs.Sources.{AreKnown, AreReadings, AreSources, HasLast, HasSource, IsWrong, trace_of};

use crate::readings::{Found, Reading, readings_of};
use crate::values::{LastValues, last_values};
use crate::writings::{Writing, is_committed, is_last, writings_of};
use std::alloc::{AllocError, Global};
use trace_rules::{Operation, Transaction, Version};

/// What is found of a trace's reads.
#[derive(Drop)]
pub enum Sources {
    /// The reads, by committed transactions, of keys that they had not written, and the versions, each the last value of a
    /// committed transaction at a key. Each of these reads is of nothing or of a version, each other one of the own write.
    Known(Vec<Reading>, Vec<Writing>),
    /// The place of a read, among the operations, that no stamps allow.
    WrongRead(usize),
}

/// Finds what each read is of, in a time and memory in proportion to the operations. AllocError where memory is refused.
pub fn sources_of(
    alloc: Global,
    transactions: &[Transaction],
    operations: &[Operation],
) -> Result<Sources, AllocError>
    ensures { IfOk result (λ sources. AreSources (trace_of transactions.now operations.now) sources) }
{
    match readings_of(alloc, transactions, operations)? {
        Found::WrongAt(place) => Ok(Sources::WrongRead(place)),
        Found::AllRight(readings) => {
            let last = last_values(alloc, operations)?;
            match first_wrong(transactions, operations, &last, &readings) {
                Some(place) => Ok(Sources::WrongRead(place)),
                None => {
                    let writings = writings_of(alloc, transactions, operations, &last)?;
                    Ok(Sources::Known(readings, writings))
                }
            }
        }
    }
}

/// The place of the first read of what is no version.
fn first_wrong(
    transactions: &[Transaction],
    operations: &[Operation],
    last: &LastValues,
    readings: &[Reading],
) -> Option<usize>
    requires last { HasLast operations.now last.now.values }
    requires readings { AreReadings (trace_of transactions.now operations.now) (length operations.now) readings.now }
    ensures { MatchOption result
        ((i : ℕ) (r : Reading) → slice_get readings.now i ≡ Some r → HasSource (trace_of transactions.now operations.now) r.key r.answer)
        (λ place. IsWrong (trace_of transactions.now operations.now) place) }
{
    for i in 0..readings.len() {
        let reading = readings[i];
        if !has_source(transactions, last, reading.key, reading.answer) {
            return Some(reading.place);
        }
    }
    None
}

/// Whether what was read of the key is nothing or a version.
fn has_source(
    transactions: &[Transaction],
    last: &LastValues,
    key: u64,
    answer: Option<Version>,
) -> bool
    ensures { (operations : List Operation) → HasLast operations last.now.values → IsTrue result ↔ HasSource (trace_of transactions.now operations) key answer }
{
    match answer {
        None => true,
        Some(version) => {
            is_committed(transactions, version.from)
                && is_last(last, version.from, key, version.value)
        }
    }
}
