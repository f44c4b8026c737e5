// Edges of the order of versions that is told.
ghost use Rattle.std.specs.Prelude.{◌≡◌, ◌≤◌, ℕ, IfSome, List, OnOk, slice_get};
ghost use Rattle.trace_rules.specs.Trace.{committed_in};
ghost use Rattle.trace_rules.specs.declared.wanted.Level.{Level};
ghost use Rattle.trace_rules.specs.declared.wanted.Times.{Times};
ghost use Rattle.trace_rules.specs.declared.wanted.Wanted.{Wanted};
ghost use Rattle.rising_numbers.specs.Rises.{AreWithin};
ghost use Rattle.asked_orders.specs.Joins.{moments_for};
ghost use Rattle.asked_orders.specs.Laid.{StillJoined};
ghost use Rattle.version_ranks.specs.Ranks.{asked_with};
ghost use Rattle.rank_orders.specs.Rise.{IsRanked};

use asked_orders::Nodes;
use rising_numbers::Edge;
use std::alloc::AllocError;
use trace_edges::lay;
use trace_rules::Transaction;
use version_ranks::Rank;

/// Lays, behind the others, edges of the order of versions that is told, from each version's writer to those of the next versions
/// of its key. Ranks are to stand by key and version. It takes a time in proportion to their number. AllocError where memory is
/// refused.
pub fn lay_ranks(
    edges: &mut Vec<Edge>,
    transactions: &[Transaction],
    ranks: &[Rank],
    nodes: Nodes,
) -> Result<(), AllocError>
    ensures within { OnOk result (nodes.points ≤ nodes.all → AreWithin nodes.all edges.old.items → AreWithin nodes.all edges.new.items) }
    ensures joined { OnOk result ((level : Level) (wanted : Wanted) (times : List Times) (chain : List ℕ) →
        StillJoined level (asked_with wanted level times ranks.now) (moments_for wanted level times) transactions.now nodes.starts nodes.points chain edges.old.items edges.new.items) }
{
    let mut floor = 0;
    for place in 1..ranks.len() {
        floor = floor_at(ranks, floor, place);
        lay_rank(edges, transactions, ranks, floor, place, nodes)?;
    }
    Ok(())
}

/// The place of the last rank of the next lower version, where there is one, by that of the rank before.
fn floor_at(ranks: &[Rank], floor: usize, place: usize) -> usize {
    let last = place.saturating_sub(1);
    if is_lower(ranks, last, place) {
        last
    } else {
        floor
    }
}

fn is_lower(ranks: &[Rank], first: usize, second: usize) -> bool {
    match ranks.get(first) {
        None => false,
        Some(a) => match ranks.get(second) {
            None => false,
            Some(b) => a.key != b.key || a.version < b.version,
        },
    }
}

/// From the commit of the first rank's writer to the start of the second one's, where the first is lower.
fn lay_rank(
    edges: &mut Vec<Edge>,
    transactions: &[Transaction],
    ranks: &[Rank],
    i: usize,
    j: usize,
    nodes: Nodes,
) -> Result<(), AllocError>
    ensures within { OnOk result (nodes.points ≤ nodes.all → AreWithin nodes.all edges.old.items → AreWithin nodes.all edges.new.items) }
    ensures joined { OnOk result ((level : Level) (wanted : Wanted) (times : List Times) (chain : List ℕ) →
        StillJoined level (asked_with wanted level times ranks.now) (moments_for wanted level times) transactions.now nodes.starts nodes.points chain edges.old.items edges.new.items) }
{
    match edge_at(transactions, ranks, i, j, nodes.starts) {
        None => Ok(()),
        Some(edge) => lay(edges, nodes.points, edge),
    }
}

fn edge_at(
    transactions: &[Transaction],
    ranks: &[Rank],
    i: usize,
    j: usize,
    starts: usize,
) -> Option<Edge>
    ensures { IfSome result (IsRanked transactions.now ranks.now starts) }
{
    let a = rank_at(ranks, i)?;
    let b = rank_at(ranks, j)?;
    if a.key != b.key || a.version >= b.version || !is_committed(transactions, b.txn) {
        return None;
    }
    let from = starts.checked_add(a.txn)?;
    Some(Edge { from, to: b.txn })
}

fn rank_at(ranks: &[Rank], place: usize) -> Option<Rank>
    ensures { result ≡ slice_get ranks.now place }
{
    match ranks.get(place) {
        None => None,
        Some(rank) => Some(*rank),
    }
}

fn is_committed(transactions: &[Transaction], txn: usize) -> bool
    ensures { result ≡ committed_in (slice_get transactions.now txn) }
{
    match transactions.get(txn) {
        None => false,
        Some(transaction) => transaction.committed,
    }
}
