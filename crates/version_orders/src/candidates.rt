// Writers of a key, and readers of it, whose order may be forced.
ghost use Rattle.std.specs.Prelude.{◌≡◌, ◌<◌, IfSome, Some, length, slice_get};
ghost use Rattle.version_orders.specs.Orders.{AreEnds, AreWriters, IsOther, IsUnread};

use asked_orders::Nodes;
use outer_reads::{Reading, Writing};

/// The nodes of a transaction's start and of its commit: one and the same where a transaction is one node.
#[derive(Clone, Copy, Debug, PartialEq, Eq)]
pub struct Ends {
    /// The node of its start.
    pub start: usize,
    /// The node of its commit.
    pub commit: usize,
}

/// Two writers of a key.
#[derive(Clone, Copy, Debug, PartialEq, Eq)]
pub struct Writers {
    /// The writer of the version at the first place.
    pub first: Ends,
    /// The writer of the version at the second place.
    pub second: Ends,
}

/// A reader that found nothing, and a writer of the key.
#[derive(Clone, Copy, Debug, PartialEq, Eq)]
pub struct Unread {
    /// The node of the reader's start.
    pub reader: usize,
    /// The nodes of the writer.
    pub writer: Ends,
}

/// A reader, whom it read from, and another writer of the key.
#[derive(Clone, Copy, Debug, PartialEq, Eq)]
pub struct Other {
    /// The node of the reader's start.
    pub reader: usize,
    /// The nodes of whom it read from.
    pub source: Ends,
    /// The nodes of the other writer.
    pub writer: Ends,
}

/// The writers of the versions at two places, where both are of one key, by two transactions. None otherwise.
pub fn writers_at(order: &[Writing], i: usize, j: usize, nodes: Nodes) -> Option<Writers>
    ensures { IfSome result (λ w. AreWriters order.now nodes w.first w.second) }
{
    let a = version_at(order, i)?;
    let b = version_at(order, j)?;
    if a.key != b.key || a.txn == b.txn {
        return None;
    }
    let first = ends_of(nodes, a.txn)?;
    let second = ends_of(nodes, b.txn)?;
    Some(Writers { first, second })
}

/// The reader at place `i`, which found nothing, and another that wrote the version at place `j`, of that key. None otherwise.
pub fn unread_at(
    readings: &[Reading],
    order: &[Writing],
    i: usize,
    j: usize,
    nodes: Nodes,
) -> Option<Unread>
    ensures { IfSome result (λ u. IsUnread readings.now order.now nodes u.reader u.writer) }
{
    let r = reading_at(readings, i)?;
    let b = version_at(order, j)?;
    if r.answer.is_some() || b.key != r.key || b.txn == r.txn || r.txn >= nodes.points {
        return None;
    }
    let writer = ends_of(nodes, b.txn)?;
    Some(Unread {
        reader: r.txn,
        writer,
    })
}

/// The reader at place `i`, whom it read from, and a third that wrote the version at place `j`, of that key. None otherwise.
pub fn other_at(
    readings: &[Reading],
    order: &[Writing],
    i: usize,
    j: usize,
    nodes: Nodes,
) -> Option<Other>
    ensures { IfSome result (λ o. IsOther readings.now order.now nodes o.reader o.source o.writer) }
{
    let r = reading_at(readings, i)?;
    let found = r.answer?;
    let b = version_at(order, j)?;
    if b.key != r.key || b.txn == r.txn || b.txn == found.from || r.txn >= nodes.points {
        return None;
    }
    let source = ends_of(nodes, found.from)?;
    let writer = ends_of(nodes, b.txn)?;
    Some(Other {
        reader: r.txn,
        source,
        writer,
    })
}

fn ends_of(nodes: Nodes, txn: usize) -> Option<Ends>
    ensures { IfSome result (AreEnds nodes txn) }
{
    match nodes.starts.checked_add(txn) {
        None => None,
        Some(commit) => {
            if commit >= nodes.points {
                return None;
            }
            Some(Ends { start: txn, commit })
        }
    }
}

fn version_at(order: &[Writing], place: usize) -> Option<Writing>
    ensures { result ≡ slice_get order.now place }
{
    match order.get(place) {
        None => None,
        Some(version) => Some(*version),
    }
}

fn reading_at(readings: &[Reading], place: usize) -> Option<Reading>
    ensures { result ≡ slice_get readings.now place }
{
    match readings.get(place) {
        None => None,
        Some(reading) => Some(*reading),
    }
}
