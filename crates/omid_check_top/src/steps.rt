// The steps of a cycle, from transaction to transaction, each at the key where it is seen.
use rising_numbers::Edge;
use stamp_base::NoMemory;
use std::alloc::Global;
use trace_report::{Step, Way};
use trace_rules::{Level, Operation, Trace, Wanted};

/// The steps of a cycle of edges between points, which are numbered as the judge numbers them: starts by transaction and behind
/// them commits, or one point a transaction where the level is Serializable; behind the points stand moments. An edge within one
/// transaction is no step, and those by way of moments are one. NoMemory where memory is refused.
pub fn steps_of(
    alloc: Global,
    level: Level,
    wanted: Wanted,
    trace: &Trace,
    cycle: &[Edge],
) -> Result<Vec<Step>, NoMemory> {
    let points = points_of(level, trace.transactions.len());
    let mut steps = Vec::new(alloc);
    let mut left = 0;
    let first = first_point(cycle, points);
    for turn in 0..cycle.len() {
        if let Some(edge) = edge_behind(cycle, first, turn) {
            if edge.from < points {
                left = edge.from;
            }
            if edge.to < points
                && let Some(step) = step_of(level, wanted, trace, points, left, edge)
            {
                steps.extend_from_slice(&[step])?;
            }
        }
    }
    Ok(steps)
}

fn points_of(level: Level, count: usize) -> usize {
    match level {
        Level::Snapshot => count.saturating_add(count),
        Level::Serializable => count,
    }
}

/// The place of the first edge that begins at a point.
fn first_point(cycle: &[Edge], points: usize) -> usize {
    for place in 0..cycle.len() {
        if cycle[place].from < points {
            return place;
        }
    }
    0
}

/// The edge that stands so far behind the first, where the cycle begins again at its end.
fn edge_behind(cycle: &[Edge], first: usize, turn: usize) -> Option<Edge> {
    let place = first.saturating_add(turn);
    if place < cycle.len() {
        return Some(cycle[place]);
    }
    match cycle.get(place - cycle.len()) {
        None => None,
        Some(edge) => Some(*edge),
    }
}

/// The step that ends with the edge, where the last point before it is the one that was left.
fn step_of(
    level: Level,
    wanted: Wanted,
    trace: &Trace,
    points: usize,
    left: usize,
    edge: Edge,
) -> Option<Step> {
    let count = trace.transactions.len();
    let from = txn_of(left, count);
    let to = txn_of(edge.to, count);
    if from == to {
        return None;
    }
    if edge.from >= points {
        return Some(Step {
            from,
            to,
            way: Way::Time,
            key: 0,
        });
    }
    let in_series = level == Level::Serializable;
    let committed = count <= left;
    Some(step_between(
        &trace.operations,
        wanted,
        in_series || committed,
        in_series || !committed,
        from,
        to,
    ))
}

/// The transaction that has the point.
fn txn_of(point: usize, count: usize) -> usize {
    if point < count { point } else { point - count }
}

/// Why one transaction comes before the other: that one read what this one wrote, or this one missed what that one wrote, where the
/// edge may be of a read, or of a miss; or that both wrote a key, and the versions of this key are so ordered; or that
/// they are of one session.
fn step_between(
    operations: &[Operation],
    wanted: Wanted,
    may_read: bool,
    may_miss: bool,
    from: usize,
    to: usize,
) -> Step {
    if may_read && let Some(key) = key_read(operations, from, to) {
        return Step {
            from,
            to,
            way: Way::Read,
            key,
        };
    }
    if may_miss && let Some(key) = key_missed(operations, from, to) {
        return Step {
            from,
            to,
            way: Way::Missed,
            key,
        };
    }
    match key_written(operations, from, to) {
        None if wanted == Wanted::Sessions => Step {
            from,
            to,
            way: Way::Session,
            key: 0,
        },
        key => Step {
            from,
            to,
            way: Way::Next,
            key: key.unwrap_or(0),
        },
    }
}

/// A key that both wrote.
fn key_written(operations: &[Operation], first: usize, second: usize) -> Option<u64> {
    for operation in operations {
        if let Operation::Write { txn, key, .. } = operation
            && *txn == first
            && writes(operations, second, *key)
        {
            return Some(*key);
        }
    }
    None
}

/// The key at which the reader found what the writer wrote.
fn key_read(operations: &[Operation], writer: usize, reader: usize) -> Option<u64> {
    for operation in operations {
        if let Some(key) = read_from(*operation, writer, reader) {
            return Some(key);
        }
    }
    None
}

fn read_from(operation: Operation, writer: usize, reader: usize) -> Option<u64> {
    match operation {
        Operation::Read {
            txn,
            key,
            answer: Some(found),
        } if txn == reader && found.from == writer => Some(key),
        _ => None,
    }
}

/// A key that the reader read of others than the writer, and the writer wrote.
fn key_missed(operations: &[Operation], reader: usize, writer: usize) -> Option<u64> {
    for operation in operations {
        if let Some(key) = missed_at(operations, *operation, reader, writer) {
            return Some(key);
        }
    }
    None
}

fn missed_at(
    operations: &[Operation],
    operation: Operation,
    reader: usize,
    writer: usize,
) -> Option<u64> {
    match operation {
        Operation::Read { txn, key, answer } if txn == reader => {
            let other = match answer {
                Some(found) => found.from != writer && found.from != reader,
                None => true,
            };
            if other && writes(operations, writer, key) {
                Some(key)
            } else {
                None
            }
        }
        _ => None,
    }
}

fn writes(operations: &[Operation], writer: usize, at: u64) -> bool {
    for operation in operations {
        if let Operation::Write { txn, key, .. } = operation
            && *txn == writer
            && *key == at
        {
            return true;
        }
    }
    false
}
