// Edges of what is asked for besides.
ghost use Rattle.std.specs.Prelude.{◌≡◌, ◌+◌, ◌<◌, ◌≤◌, ℕ, Option, IfSome, OnOk, Some, length, slice_get, true};
ghost use Rattle.trace_rules.specs.declared.wanted.Level.{Level as LevelOf};
ghost use Rattle.trace_rules.specs.Stamping.{Start, Commit};
ghost use Rattle.trace_rules.specs.Trace.{committed_in};
ghost use Rattle.trace_rules.specs.Wants.{asked_of, moments_of, of_one_process, real_time, sessions};
ghost use Rattle.rising_numbers.specs.Rises.{AreWithin};
ghost use Rattle.asked_orders.specs.Joins.{moments_for, no_moments};
ghost use Rattle.asked_orders.specs.Laid.{IsFrom, IsNext, IsUntil, StillJoined};

use crate::plan::Plan;
use crate::points::{from_commit, from_start, is_committed, until_commit, until_start};
use rising_numbers::Edge;
use std::alloc::AllocError;
use trace_edges::lay;
use trace_rules::{Level, Times, Transaction, Wanted};

/// How the nodes are numbered.
#[derive(Clone, Copy)]
pub struct Nodes {
    /// So many are starts,
    pub starts: usize,
    /// so many are points: behind the starts stand the commits,
    pub points: usize,
    /// and so many there are: behind the points stand the moments.
    pub all: usize,
}

/// Lays, behind the others, edges of the order that is asked for. AllocError where memory is refused.
pub fn lay_asked(
    edges: &mut Vec<Edge>,
    wanted: Wanted,
    level: Level,
    transactions: &[Transaction],
    times: &[Times],
    plan: &Plan,
    nodes: Nodes,
) -> Result<(), AllocError>
    ensures within { OnOk result (AreWithin nodes.all edges.old.items → AreWithin nodes.all edges.new.items) }
    ensures joined { OnOk result (StillJoined level (asked_of wanted level times.now) (moments_for wanted level times.now) transactions.now nodes.starts nodes.points plan.now.moments.items edges.old.items edges.new.items) }
{
    match wanted {
        Wanted::Nothing => Ok(()),
        Wanted::Sessions => lay_sessions(edges, level, transactions, plan, nodes),
        Wanted::RealTime => lay_times(edges, level, transactions, times, &plan.moments, nodes),
    }
}

/// From the commit of each transaction to the start of the next one of its process.
fn lay_sessions(
    edges: &mut Vec<Edge>,
    level: Level,
    transactions: &[Transaction],
    plan: &Plan,
    nodes: Nodes,
) -> Result<(), AllocError>
    ensures within { OnOk result (AreWithin nodes.all edges.old.items → AreWithin nodes.all edges.new.items) }
    ensures joined { OnOk result (StillJoined level sessions no_moments transactions.now nodes.starts nodes.points plan.now.moments.items edges.old.items edges.new.items) }
{
    for next in 1..plan.turns.len() {
        lay_turn(
            edges,
            level,
            transactions,
            plan,
            plan.turns[next - 1].txn,
            plan.turns[next].txn,
            nodes,
        )?;
    }
    Ok(())
}

fn lay_turn(
    edges: &mut Vec<Edge>,
    level: Level,
    transactions: &[Transaction],
    plan: &Plan,
    before: usize,
    after: usize,
    nodes: Nodes,
) -> Result<(), AllocError>
    ensures within { OnOk result (AreWithin nodes.all edges.old.items → AreWithin nodes.all edges.new.items) }
    ensures joined { OnOk result (StillJoined level sessions no_moments transactions.now nodes.starts nodes.points plan.now.moments.items edges.old.items edges.new.items) }
{
    if before >= after || !are_of_one_process(transactions, before, after) {
        return Ok(());
    }
    match nodes.starts.checked_add(before) {
        None => Ok(()),
        Some(commit) => {
            if commit >= nodes.points || after >= nodes.points {
                return Ok(());
            }
            lay(
                edges,
                nodes.all,
                Edge {
                    from: commit,
                    to: after,
                },
            )
        }
    }
}

/// Whether both are committed and of one process.
fn are_of_one_process(transactions: &[Transaction], before: usize, after: usize) -> bool
    ensures { result ≡ of_one_process (slice_get transactions.now before) (slice_get transactions.now after) }
{
    match transactions.get(before) {
        None => false,
        Some(a) => match transactions.get(after) {
            None => false,
            Some(b) => a.committed && b.committed && a.process == b.process,
        },
    }
}

/// From each point to the moment by which it surely came, to it from the last moment behind which it surely did, and from
/// each moment to the next one.
fn lay_times(
    edges: &mut Vec<Edge>,
    level: Level,
    transactions: &[Transaction],
    times: &[Times],
    moments: &[u64],
    nodes: Nodes,
) -> Result<(), AllocError>
    ensures within { OnOk result (AreWithin nodes.all edges.old.items → AreWithin nodes.all edges.new.items) }
    ensures joined { OnOk result (StillJoined level (real_time level times.now) (moments_of level times.now) transactions.now nodes.starts nodes.points moments.now edges.old.items edges.new.items) }
{
    for txn in 0..transactions.len() {
        lay_start(edges, level, transactions, times, moments, nodes, txn)?;
    }
    for txn in 0..transactions.len() {
        lay_commit(edges, level, transactions, times, moments, nodes, txn)?;
    }
    for place in 0..moments.len() {
        lay_next(edges, level, transactions, times, moments, nodes, place)?;
    }
    Ok(())
}

fn lay_start(
    edges: &mut Vec<Edge>,
    level: Level,
    transactions: &[Transaction],
    times: &[Times],
    moments: &[u64],
    nodes: Nodes,
    txn: usize,
) -> Result<(), AllocError>
    ensures within { OnOk result (AreWithin nodes.all edges.old.items → AreWithin nodes.all edges.new.items) }
    ensures joined { OnOk result (StillJoined level (real_time level times.now) (moments_of level times.now) transactions.now nodes.starts nodes.points moments.now edges.old.items edges.new.items) }
{
    lay_start_from(edges, level, transactions, times, moments, nodes, txn)?;
    lay_start_until(edges, level, transactions, times, moments, nodes, txn)
}

fn lay_commit(
    edges: &mut Vec<Edge>,
    level: Level,
    transactions: &[Transaction],
    times: &[Times],
    moments: &[u64],
    nodes: Nodes,
    txn: usize,
) -> Result<(), AllocError>
    ensures within { OnOk result (AreWithin nodes.all edges.old.items → AreWithin nodes.all edges.new.items) }
    ensures joined { OnOk result (StillJoined level (real_time level times.now) (moments_of level times.now) transactions.now nodes.starts nodes.points moments.now edges.old.items edges.new.items) }
{
    match nodes.starts.checked_add(txn) {
        None => Ok(()),
        Some(commit) => {
            lay_commit_from(
                edges,
                level,
                transactions,
                times,
                moments,
                nodes,
                txn,
                commit,
            )?;
            lay_commit_until(
                edges,
                level,
                transactions,
                times,
                moments,
                nodes,
                txn,
                commit,
            )
        }
    }
}

fn lay_start_from(
    edges: &mut Vec<Edge>,
    level: Level,
    transactions: &[Transaction],
    times: &[Times],
    moments: &[u64],
    nodes: Nodes,
    txn: usize,
) -> Result<(), AllocError>
    ensures within { OnOk result (AreWithin nodes.all edges.old.items → AreWithin nodes.all edges.new.items) }
    ensures joined { OnOk result (StillJoined level (real_time level times.now) (moments_of level times.now) transactions.now nodes.starts nodes.points moments.now edges.old.items edges.new.items) }
{
    if !is_committed(transactions, txn) {
        return Ok(());
    }
    match from_edge(moments, nodes.points, txn, from_start(level, times, txn)) {
        None => Ok(()),
        Some(edge) => lay(edges, nodes.all, edge),
    }
}

fn lay_start_until(
    edges: &mut Vec<Edge>,
    level: Level,
    transactions: &[Transaction],
    times: &[Times],
    moments: &[u64],
    nodes: Nodes,
    txn: usize,
) -> Result<(), AllocError>
    ensures within { OnOk result (AreWithin nodes.all edges.old.items → AreWithin nodes.all edges.new.items) }
    ensures joined { OnOk result (StillJoined level (real_time level times.now) (moments_of level times.now) transactions.now nodes.starts nodes.points moments.now edges.old.items edges.new.items) }
{
    if !is_committed(transactions, txn) {
        return Ok(());
    }
    match until_edge(moments, nodes.points, txn, until_start(level, times, txn)) {
        None => Ok(()),
        Some(edge) => lay(edges, nodes.all, edge),
    }
}

fn lay_commit_from(
    edges: &mut Vec<Edge>,
    level: Level,
    transactions: &[Transaction],
    times: &[Times],
    moments: &[u64],
    nodes: Nodes,
    txn: usize,
    commit: usize,
) -> Result<(), AllocError>
    requires { commit ≡ nodes.starts + txn }
    ensures within { OnOk result (AreWithin nodes.all edges.old.items → AreWithin nodes.all edges.new.items) }
    ensures joined { OnOk result (StillJoined level (real_time level times.now) (moments_of level times.now) transactions.now nodes.starts nodes.points moments.now edges.old.items edges.new.items) }
{
    if !is_committed(transactions, txn) {
        return Ok(());
    }
    match from_edge(
        moments,
        nodes.points,
        commit,
        from_commit(level, times, txn),
    ) {
        None => Ok(()),
        Some(edge) => lay(edges, nodes.all, edge),
    }
}

fn lay_commit_until(
    edges: &mut Vec<Edge>,
    level: Level,
    transactions: &[Transaction],
    times: &[Times],
    moments: &[u64],
    nodes: Nodes,
    txn: usize,
    commit: usize,
) -> Result<(), AllocError>
    requires { commit ≡ nodes.starts + txn }
    ensures within { OnOk result (AreWithin nodes.all edges.old.items → AreWithin nodes.all edges.new.items) }
    ensures joined { OnOk result (StillJoined level (real_time level times.now) (moments_of level times.now) transactions.now nodes.starts nodes.points moments.now edges.old.items edges.new.items) }
{
    if !is_committed(transactions, txn) {
        return Ok(());
    }
    match until_edge(
        moments,
        nodes.points,
        commit,
        until_commit(level, times, txn),
    ) {
        None => Ok(()),
        Some(edge) => lay(edges, nodes.all, edge),
    }
}

/// From the moment at the place to the next one.
fn lay_next(
    edges: &mut Vec<Edge>,
    level: Level,
    transactions: &[Transaction],
    times: &[Times],
    moments: &[u64],
    nodes: Nodes,
    place: usize,
) -> Result<(), AllocError>
    ensures within { OnOk result (AreWithin nodes.all edges.old.items → AreWithin nodes.all edges.new.items) }
    ensures joined { OnOk result (StillJoined level (real_time level times.now) (moments_of level times.now) transactions.now nodes.starts nodes.points moments.now edges.old.items edges.new.items) }
{
    match next_edge(moments, nodes.points, place) {
        None => Ok(()),
        Some(edge) => lay(edges, nodes.all, edge),
    }
}

/// From a node to the first moment that is not below the one by which its point came.
fn until_edge(moments: &[u64], points: usize, node: usize, until: Option<u64>) -> Option<Edge>
    ensures { IfSome result (λ edge. IsUntil moments.now points node until edge) }
{
    match until {
        None => None,
        Some(moment) => {
            let place = first_from(moments, moment);
            match moments.get(place) {
                None => None,
                Some(last) => {
                    if node >= points || *last < moment {
                        return None;
                    }
                    edge_of(Some(node), points.checked_add(place))
                }
            }
        }
    }
}

/// To a node from the last moment below the one behind which its point came.
fn from_edge(moments: &[u64], points: usize, node: usize, from: Option<u64>) -> Option<Edge>
    ensures { IfSome result (λ edge. IsFrom moments.now points node from edge) }
{
    match from {
        None => None,
        Some(moment) => {
            let place = first_from(moments, moment).saturating_sub(1);
            match moments.get(place) {
                None => None,
                Some(last) => {
                    if node >= points || *last >= moment {
                        return None;
                    }
                    edge_of(points.checked_add(place), Some(node))
                }
            }
        }
    }
}

fn next_edge(moments: &[u64], points: usize, place: usize) -> Option<Edge>
    ensures { IfSome result (λ edge. IsNext moments.now points edge) }
{
    let next = place.saturating_add(1);
    match moments.get(place) {
        None => None,
        Some(first) => match moments.get(next) {
            None => None,
            Some(second) => {
                if *first >= *second {
                    return None;
                }
                edge_of(points.checked_add(place), points.checked_add(next))
            }
        },
    }
}

fn edge_of(from: Option<usize>, to: Option<usize>) -> Option<Edge>
    ensures { IfSome result (λ edge. (from ≡ Some edge.from) × (to ≡ Some edge.to)) }
{
    match from {
        None => None,
        Some(from) => match to {
            None => None,
            Some(to) => Some(Edge { from, to }),
        },
    }
}

/// The place of the first moment that is not below this one, where moments rise.
pub fn first_from(moments: &[u64], moment: u64) -> usize {
    let mut low = 0;
    let mut high = moments.len();
    while low < high {
        let middle = low + (high - low) / 2;
        if moments[middle] < moment {
            low = middle + 1;
        } else {
            high = middle;
        }
    }
    low
}
