// Whether nodes are all those of committed transactions, in the order of their stamps, and ranks their places.
ghost use Rattle.std.specs.Prelude.{◌≡◌, ◌+◌, ◌<◌, ℕ, true, Some, length, slice_get};
ghost use Rattle.trace_rules.specs.Serial.{owner};
ghost use Rattle.trace_rules.specs.Trace.{committed_in};
ghost use Rattle.trace_rules.specs.Stamping.{stamp_of};
ghost use Rattle.asked_orders.specs.Keeps.{stamping_of};
ghost use Rattle.stamped_history.specs.Order.{ArePlaced, Has, HaveNodes, IsPlaced, point_of};

use crate::order::{number_at, stamp_at};
use trace_rules::{Level, Transaction};

/// Whether each node is a committed transaction's, its rank its place, counted from 1, and its stamp above that of the one before
/// it.
pub fn are_placed(
    level: Level,
    transactions: &[Transaction],
    numbers: &[usize],
    nodes: &[usize],
    ranks: &[usize],
) -> bool
    ensures { result ≡ true → ArePlaced level transactions.now numbers.now nodes.now ranks.now (length nodes.now) }
{
    for place in 0..nodes.len() {
        if !is_placed(level, transactions, numbers, nodes, ranks, place) {
            return false;
        }
    }
    true
}

fn is_placed(
    level: Level,
    transactions: &[Transaction],
    numbers: &[usize],
    nodes: &[usize],
    ranks: &[usize],
    place: usize,
) -> bool
    requires { place < length nodes.now }
    ensures { result ≡ true → IsPlaced level transactions.now numbers.now nodes.now ranks.now place }
{
    let node = nodes[place];
    is_committed(transactions, node)
        && number_at(ranks, node) == place + 1
        && is_above(level, transactions.len(), numbers, nodes, place)
}

/// Whether the transaction that has the node is committed.
fn is_committed(transactions: &[Transaction], node: usize) -> bool
    ensures { result ≡ true → committed_in (slice_get transactions.now (owner (point_of (length transactions.now) node))) ≡ true }
{
    if node < transactions.len() {
        transactions[node].committed
    } else {
        counts(transactions, node - transactions.len())
    }
}

fn counts(transactions: &[Transaction], txn: usize) -> bool
    ensures { result ≡ committed_in (slice_get transactions.now txn) }
{
    match transactions.get(txn) {
        None => false,
        Some(transaction) => transaction.committed,
    }
}

/// Whether the node at the place has a greater stamp than the one before it.
fn is_above(level: Level, count: usize, numbers: &[usize], nodes: &[usize], place: usize) -> bool
    requires { place < length nodes.now }
    ensures { result ≡ true → (i before node : ℕ) → i + 1 ≡ place → slice_get nodes.now i ≡ Some before → slice_get nodes.now place ≡ Some node →
        stamp_of (stamping_of level count numbers.now) (point_of count before) < stamp_of (stamping_of level count numbers.now) (point_of count node) }
{
    place == 0 || is_below(level, count, numbers, nodes[place - 1], nodes[place])
}

fn is_below(level: Level, count: usize, numbers: &[usize], before: usize, node: usize) -> bool
    ensures { result ≡ true → stamp_of (stamping_of level count numbers.now) (point_of count before) < stamp_of (stamping_of level count numbers.now) (point_of count node) }
{
    match stamp_at(level, count, numbers, before) {
        None => false,
        Some(low) => match stamp_at(level, count, numbers, node) {
            None => false,
            Some(high) => low < high,
        },
    }
}

/// Whether both nodes of each committed transaction are there, by their ranks.
pub fn have_nodes(transactions: &[Transaction], nodes: &[usize], ranks: &[usize]) -> bool
    ensures { result ≡ true → HaveNodes transactions.now nodes.now (length transactions.now) }
{
    for txn in 0..transactions.len() {
        if !has_both(transactions, nodes, ranks, txn) {
            return false;
        }
    }
    true
}

fn has_both(transactions: &[Transaction], nodes: &[usize], ranks: &[usize], txn: usize) -> bool
    ensures { result ≡ true → committed_in (slice_get transactions.now txn) ≡ true → Has nodes.now txn × Has nodes.now (length transactions.now + txn) }
{
    if !counts(transactions, txn) {
        return true;
    }
    match transactions.len().checked_add(txn) {
        None => false,
        Some(commit) => has(nodes, ranks, txn) && has(nodes, ranks, commit),
    }
}

fn has(nodes: &[usize], ranks: &[usize], node: usize) -> bool
    ensures { result ≡ true → Has nodes.now node }
{
    let rank = number_at(ranks, node);
    if rank == 0 {
        return false;
    }
    is_at(nodes, rank - 1, node)
}

fn is_at(nodes: &[usize], place: usize, node: usize) -> bool
    ensures { result ≡ true → slice_get nodes.now place ≡ Some node }
{
    match nodes.get(place) {
        None => false,
        Some(other) => *other == node,
    }
}
