// What committed transactions read of others.
ghost use Rattle.std.specs.Prelude.{◌≡◌, ℕ, ◌+◌, ◌<◌, true, false, IfOk, length, take};
ghost use Rattle.trace_rules.specs.Trace.{Trace};
ghost use Rattle.outer_reads.specs.Sources.{AreFound, AreRight, HasLast, IsLook, IsOwnLook, trace_of, IsWrong};

use crate::values::LastValues;
use crate::writings::is_committed;
use std::alloc::{AllocError, Global};
use trace_rules::{Operation, Transaction, Version};

/// A read, by a committed transaction, of a key that it had not written.
#[derive(Clone, Copy, Debug, PartialEq, Eq)]
pub struct Reading {
    /// Its place among the operations.
    pub place: usize,
    /// The reader's place among the transactions.
    pub txn: usize,
    /// The key's number.
    pub key: u64,
    /// The version that it found; None where it found nothing.
    pub answer: Option<Version>,
}

/// What the search for reads of others gives.
#[derive(Drop)]
pub enum Found {
    /// All reads of others; each read of a key that its transaction wrote is of that write.
    AllRight(Vec<Reading>),
    /// The place of the first read that is not of its own transaction's write before it.
    WrongAt(usize),
}

/// What stands at a place.
#[derive(Clone, Copy, Debug, PartialEq, Eq)]
enum Look {
    Outer(Reading),
    Right,
    Wrong,
}

/// The reads of others, or the first wrong read of a transaction's own write. AllocError where memory is refused.
pub fn readings_of(
    alloc: Global,
    transactions: &[Transaction],
    operations: &[Operation],
) -> Result<Found, AllocError>
    ensures { IfOk result (λ found. AreFound (trace_of transactions.now operations.now) (length operations.now) found) }
{
    let mut last = LastValues::new(alloc);
    let mut readings = Vec::new(alloc);
    for place in 0..operations.len() {
        let look = look_at(transactions, operations, &last, place);
        if !note(&mut readings, look)? {
            return Ok(Found::WrongAt(place));
        }
        last.pass(&operations[place])?;
    }
    Ok(Found::AllRight(readings))
}

/// Notes a read of others, and tells whether what stands there is right.
fn note(readings: &mut Vec<Reading>, look: Look) -> Result<bool, AllocError>
    ensures right { IfOk result (λ going. going ≡ true → (trace : Trace) (place : ℕ) → IsLook trace place look →
        AreRight trace place readings.old.items → AreRight trace (place + 1) readings.new.items) }
    ensures wrong { IfOk result (λ going. going ≡ false → (trace : Trace) (place : ℕ) → IsLook trace place look → IsWrong trace place) }
{
    match look {
        Look::Outer(reading) => {
            readings.push(reading)?;
            Ok(true)
        }
        Look::Right => Ok(true),
        Look::Wrong => Ok(false),
    }
}

fn look_at(
    transactions: &[Transaction],
    operations: &[Operation],
    last: &LastValues,
    place: usize,
) -> Look
    requires last { HasLast (take place operations.now) last.now.values }
    requires place { place < length operations.now }
    ensures { IsLook (trace_of transactions.now operations.now) place result }
{
    match &operations[place] {
        Operation::Write { .. } => Look::Right,
        Operation::Read { txn, key, answer } => {
            if !is_committed(transactions, *txn) {
                return Look::Right;
            }
            match last.last(*txn, *key) {
                None => Look::Outer(Reading {
                    place,
                    txn: *txn,
                    key: *key,
                    answer: *answer,
                }),
                Some(own) => own_look(*answer, *txn, own),
            }
        }
    }
}

/// How a read of a key is that its transaction wrote before.
fn own_look(answer: Option<Version>, txn: usize, own: u64) -> Look
    ensures { IsOwnLook answer txn own result }
{
    match answer {
        None => Look::Wrong,
        Some(version) => {
            if version.from == txn && version.value == own {
                Look::Right
            } else {
                Look::Wrong
            }
        }
    }
}
