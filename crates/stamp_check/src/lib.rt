//! Whether numbers of the starts and commits of a trace make it isolated.
#![tactic(auto)]

ghost use Rattle.std.specs.Prelude.{◌≡◌, ◌+◌, ◌<◌, ◌≤◌, ℕ, List, true, Some, length, slice_get, slice_index};
ghost use Rattle.trace_rules.specs.declared.trace.Operation.{Operation};
ghost use Rattle.trace_rules.specs.declared.wanted.Level.TheVariants.{Snapshot, Serializable};
ghost use Rattle.trace_rules.specs.Trace.{Trace, committed_in};
ghost use Rattle.trace_rules.specs.Serial.{one_by_one};
ghost use Rattle.trace_rules.specs.Stamping.{IsolatedBy};
ghost use Rattle.outer_reads.specs.declared.writings.Writing.{Writing};
ghost use Rattle.outer_reads.specs.declared.readings.Reading.{Reading};
ghost use Rattle.outer_reads.specs.Sources.{AreKnown, trace_of};
ghost use Rattle.stamp_check.specs.Orders.{IsBelow, NextRises, NextsRise, OwnRise, ReadsRise, Sees, SeesAt, SeesNone, Unseen, places_of, stamps_of};

use outer_reads::{Reading, Writing};
use trace_rules::Transaction;

/// Whether the numbers, of the starts by transaction and behind them of the commits, rise along all edges between neighbours of
/// the order, which has the versions of each key together; so they make stamps of the trace. For each reading, the place in the
/// order is given of what was read, or where nothing was, of the key's first version or the first one of a greater key.
pub fn are_stamps(
    transactions: &[Transaction],
    readings: &[Reading],
    places: &[usize],
    order: &[Writing],
    numbers: &[usize],
) -> bool
    ensures { result ≡ true → (operations : List Operation) → AreKnown (trace_of transactions.now operations) readings.now order.now →
        IsolatedBy Snapshot (stamps_of (length transactions.now) numbers.now) (trace_of transactions.now operations) }
{
    let count = transactions.len();
    if !own_rise(transactions, numbers) || !nexts_rise(order, count, numbers) {
        return false;
    }
    reads_rise(readings, places, order, count, numbers)
}

/// Whether the numbers of the transactions, by place, are places in a serial order: they rise along all edges between neighbours
/// of the order. The places are those that `are_stamps` is given.
pub fn are_serial(
    readings: &[Reading],
    places: &[usize],
    order: &[Writing],
    numbers: &[usize],
) -> bool
    ensures { result ≡ true → (trace : Trace) → AreKnown trace readings.now order.now →
        IsolatedBy Serializable (one_by_one (places_of (length trace.transactions) numbers.now)) trace }
{
    nexts_rise(order, 0, numbers) && reads_rise(readings, places, order, 0, numbers)
}

fn own_rise(transactions: &[Transaction], numbers: &[usize]) -> bool
    ensures { result ≡ true → (operations : List Operation) → OwnRise (trace_of transactions.now operations) (length transactions.now) numbers.now }
{
    for txn in 0..transactions.len() {
        if !is_own_above(transactions, numbers, txn) {
            return false;
        }
    }
    true
}

/// Whether the transaction's commit is above its start, where it is committed.
fn is_own_above(transactions: &[Transaction], numbers: &[usize], txn: usize) -> bool
    ensures { result ≡ true → committed_in (slice_get transactions.now txn) ≡ true → slice_index numbers.now txn < slice_index numbers.now (length transactions.now + txn) }
{
    match transactions.get(txn) {
        None => true,
        Some(transaction) => {
            !transaction.committed
                || start_of(numbers, txn) < commit_of(numbers, transactions.len(), txn)
        }
    }
}

fn nexts_rise(order: &[Writing], count: usize, numbers: &[usize]) -> bool
    ensures { result ≡ true → NextsRise count numbers.now order.now }
{
    for next in 1..order.len() {
        if !is_next_above(order, next, count, numbers) {
            return false;
        }
    }
    true
}

/// Whether the version at the place, where it is of the same key, begins above the commit of the one before it.
fn is_next_above(order: &[Writing], next: usize, count: usize, numbers: &[usize]) -> bool
    requires { next < length order.now }
    ensures { result ≡ true → (i : ℕ) (a b : Writing) → i + 1 ≡ next → slice_get order.now i ≡ Some a → slice_get order.now next ≡ Some b → NextRises count numbers.now a b }
{
    next == 0 || next_rises(order[next - 1], order[next], count, numbers)
}

fn next_rises(a: Writing, b: Writing, count: usize, numbers: &[usize]) -> bool
    ensures { result ≡ true → NextRises count numbers.now a b }
{
    a.key < b.key || a.key == b.key && commit_of(numbers, count, a.txn) < start_of(numbers, b.txn)
}

fn reads_rise(
    readings: &[Reading],
    places: &[usize],
    order: &[Writing],
    count: usize,
    numbers: &[usize],
) -> bool
    ensures { result ≡ true → ReadsRise count numbers.now order.now readings.now }
{
    for i in 0..readings.len() {
        if !is_seen(readings[i], number_at(places, i), order, count, numbers) {
            return false;
        }
    }
    true
}

/// Whether the reader saw the version at the place, or none before it, and not the next one.
fn is_seen(
    reading: Reading,
    place: usize,
    order: &[Writing],
    count: usize,
    numbers: &[usize],
) -> bool
    ensures { result ≡ true → Sees count numbers.now order.now place reading.key reading.txn reading.answer }
{
    match reading.answer {
        None => sees_none(order, place, reading.key, reading.txn, count, numbers),
        Some(found) => sees_at(
            order,
            place,
            reading.key,
            reading.txn,
            found.from,
            count,
            numbers,
        ),
    }
}

fn sees_none(
    order: &[Writing],
    place: usize,
    key: u64,
    txn: usize,
    count: usize,
    numbers: &[usize],
) -> bool
    ensures { result ≡ true → SeesNone count numbers.now order.now place key txn }
{
    is_below(order, place, key)
        && is_above(order, place, key)
        && is_unseen(order, place, key, txn, count, numbers)
}

/// Whether what stands just before the place is of a lesser key, or the place is the first one.
fn is_below(order: &[Writing], place: usize, key: u64) -> bool
    ensures { result ≡ true → IsBelow order.now place key }
{
    if place == 0 {
        return true;
    }
    match order.get(place - 1) {
        None => false,
        Some(a) => a.key < key,
    }
}

fn is_above(order: &[Writing], place: usize, key: u64) -> bool
    ensures { result ≡ true → (a : Writing) → slice_get order.now place ≡ Some a → key ≤ a.key }
{
    match order.get(place) {
        None => true,
        Some(a) => key <= a.key,
    }
}

fn sees_at(
    order: &[Writing],
    place: usize,
    key: u64,
    txn: usize,
    from: usize,
    count: usize,
    numbers: &[usize],
) -> bool
    ensures { result ≡ true → SeesAt count numbers.now order.now place key txn from }
{
    match order.get(place) {
        None => false,
        Some(a) => {
            a.key == key
                && a.txn == from
                && commit_of(numbers, count, from) < start_of(numbers, txn)
                && is_unseen(order, place + 1, key, txn, count, numbers)
        }
    }
}

/// Whether the version at the place was committed above the reader's start, where it is of the key and not the reader's.
fn is_unseen(
    order: &[Writing],
    place: usize,
    key: u64,
    txn: usize,
    count: usize,
    numbers: &[usize],
) -> bool
    ensures { result ≡ true → Unseen count numbers.now order.now place key txn }
{
    match order.get(place) {
        None => true,
        Some(b) => b.key != key
            || b.txn == txn
            || start_of(numbers, txn) < commit_of(numbers, count, b.txn),
    }
}

fn start_of(numbers: &[usize], txn: usize) -> usize
    ensures { result ≡ slice_index numbers.now txn }
{
    number_at(numbers, txn)
}

fn commit_of(numbers: &[usize], count: usize, txn: usize) -> usize
    ensures { result ≡ slice_index numbers.now (count + txn) }
{
    match count.checked_add(txn) {
        None => 0,
        Some(place) => number_at(numbers, place),
    }
}

fn number_at(numbers: &[usize], place: usize) -> usize
    ensures { result ≡ slice_index numbers.now place }
{
    match numbers.get(place) {
        None => 0,
        Some(number) => *number,
    }
}
