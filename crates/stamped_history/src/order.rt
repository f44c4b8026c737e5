// The starts and commits of committed transactions in the order of their stamps.
ghost use Rattle.std.specs.Prelude.{◌≡◌, ◌+◌, ◌*◌, IfSome, slice_index};
ghost use Rattle.trace_rules.specs.declared.wanted.Level.TheVariants.{Snapshot, Serializable};
ghost use Rattle.trace_rules.specs.Stamping.{stamp_of};
ghost use Rattle.asked_orders.specs.Keeps.{stamping_of};
ghost use Rattle.stamped_history.specs.Order.{point_of};

use std::alloc::{AllocError, Global};
use trace_rules::{Level, Transaction};

/// The nodes of committed transactions by their stamps: a start by its transaction's place, and behind all starts the commits.
/// AllocError where memory is refused.
pub fn nodes_of(
    alloc: Global,
    level: Level,
    transactions: &[Transaction],
    numbers: &[usize],
) -> Result<Vec<usize>, AllocError> {
    let count = transactions.len();
    let mut nodes = Vec::new(alloc);
    for txn in 0..count {
        if transactions[txn].committed {
            nodes.push(txn)?;
            nodes.push(count.saturating_add(txn))?;
        }
    }
    nodes.sort_unstable_by_key(|node| stamp_at(level, count, numbers, *node).unwrap_or(0));
    Ok(nodes)
}

/// For each node its place among these, counted from 1. AllocError where memory is refused.
pub fn ranks_of(alloc: Global, count: usize, nodes: &[usize]) -> Result<Vec<usize>, AllocError> {
    let mut ranks = vec![in alloc; 0; count.saturating_add(count)]?;
    for place in 0..nodes.len() {
        let node = nodes[place];
        if node < ranks.len() {
            ranks[node] = place + 1;
        }
    }
    Ok(ranks)
}

/// The node's stamp, where it is no greater than such a number can be.
pub fn stamp_at(level: Level, count: usize, numbers: &[usize], node: usize) -> Option<usize>
    ensures { IfSome result (λ stamp. stamp ≡ stamp_of (stamping_of level count numbers.now) (point_of count node)) }
{
    match level {
        Level::Snapshot => snapshot_stamp(count, numbers, node),
        Level::Serializable => serial_stamp(count, numbers, node),
    }
}

#[tactic(auto, using(crate::proofs::OrderLemmas::snapshot_node))]
fn snapshot_stamp(count: usize, numbers: &[usize], node: usize) -> Option<usize>
    ensures { IfSome result (λ stamp. stamp ≡ stamp_of (stamping_of Snapshot count numbers.now) (point_of count node)) }
{
    let both = count.checked_add(count)?;
    let stamp = spread(number_at(numbers, node), both, node)?;
    Some(stamp)
}

/// A start's stamp is twice its transaction's place in the serial order, and the commit's is the next one.
#[tactic(auto, using(crate::proofs::OrderLemmas::serial_start, crate::proofs::OrderLemmas::serial_commit))]
fn serial_stamp(count: usize, numbers: &[usize], node: usize) -> Option<usize>
    ensures { IfSome result (λ stamp. stamp ≡ stamp_of (stamping_of Serializable count numbers.now) (point_of count node)) }
{
    if node < count {
        let at = spread(number_at(numbers, node), count, node)?;
        at.checked_add(at)
    } else {
        let txn = node - count;
        let at = spread(number_at(numbers, txn), count, txn)?;
        at.checked_add(at)?.checked_add(1)
    }
}

/// The number times the count, and the place added.
fn spread(number: usize, count: usize, place: usize) -> Option<usize>
    ensures { IfSome result (λ stamp. stamp ≡ number * count + place) }
{
    number.checked_mul(count)?.checked_add(place)
}

/// The number at the place; 0 past the end.
pub fn number_at(numbers: &[usize], place: usize) -> usize
    ensures { result ≡ slice_index numbers.now place }
{
    match numbers.get(place) {
        None => 0,
        Some(number) => *number,
    }
}
