//! Edges that hold in all stamps of a trace, and those of one order of its versions.
#![tactic(auto)]

ghost use Rattle.std.specs.Prelude.{◌≡◌, ◌+◌, ◌<◌, true, List, IfOk, IfSome, OnOk, Some, length, slice_get};
ghost use Rattle.trace_rules.specs.declared.trace.Transaction.{Transaction};
ghost use Rattle.rising_numbers.specs.Rises.{AreWithin};
ghost use Rattle.outer_reads.specs.declared.readings.Reading.{Reading};
ghost use Rattle.outer_reads.specs.declared.writings.Writing.{Writing};
ghost use Rattle.trace_edges.specs.Edges.{AreLaid, IsOf, IsSure, IsWitnessed, MayLay};

use outer_reads::{Reading, Writing};
use rising_numbers::Edge;
use std::alloc::{AllocError, Global};
use trace_rules::{Transaction, Version};

/// Where a reading stands to the order of versions. All are hints, which are tested where they are used.
#[derive(Clone, Copy, Debug, PartialEq, Eq)]
pub struct Hint {
    /// The place in the order of the version behind what was read; where nothing was, of the key's first version.
    pub next: usize,
    /// Among the readings the one by which the next version's writer read the same.
    pub witness: usize,
    /// The place in the order of the reader's own version of the key.
    pub own: usize,
}

/// The edges that hold in all stamps: of each transaction's own start and commit, where there are starts; from what was read to the
/// reader; from the reader to the next version's writer, where this read the same version or the reader read none; and from the
/// reader's commit to that writer's start, where the reader wrote the key too. AllocError where memory is refused.
pub fn forced_edges(
    alloc: Global,
    transactions: &[Transaction],
    readings: &[Reading],
    order: &[Writing],
    hints: &[Hint],
    starts: usize,
    nodes: usize,
) -> Result<Vec<Edge>, AllocError>
    ensures { IfOk result (λ edges. AreLaid transactions.now readings.now order.now starts nodes edges.items) }
{
    let mut edges = Vec::new(alloc);
    for txn in 0..transactions.len() {
        lay_own(&mut edges, transactions, starts, nodes, txn)?;
    }
    for i in 0..readings.len() {
        lay_read(&mut edges, readings, starts, nodes, i)?;
    }
    for i in 0..readings.len() {
        lay_missed(
            &mut edges,
            readings,
            order,
            hint_at(hints, i),
            starts,
            nodes,
            i,
        )?;
        lay_apart(
            &mut edges,
            readings,
            order,
            hint_at(hints, i),
            starts,
            nodes,
            i,
        )?;
    }
    Ok(edges)
}

fn hint_at(hints: &[Hint], i: usize) -> Hint {
    match hints.get(i) {
        None => Hint {
            next: 0,
            witness: 0,
            own: 0,
        },
        Some(hint) => *hint,
    }
}

/// The edge from a transaction's start to its commit.
fn lay_own(
    edges: &mut Vec<Edge>,
    transactions: &[Transaction],
    starts: usize,
    nodes: usize,
    txn: usize,
) -> Result<(), AllocError>
    requires { txn < length transactions.now }
    ensures { OnOk result ((readings : List Reading) (order : List Writing) →
        AreLaid transactions.now readings order starts nodes edges.old.items → AreLaid transactions.now readings order starts nodes edges.new.items) }
{
    if starts == 0 || !transactions[txn].committed {
        return Ok(());
    }
    match starts.checked_add(txn) {
        None => Ok(()),
        Some(commit) => lay(
            edges,
            nodes,
            Edge {
                from: txn,
                to: commit,
            },
        ),
    }
}

fn lay_read(
    edges: &mut Vec<Edge>,
    readings: &[Reading],
    starts: usize,
    nodes: usize,
    i: usize,
) -> Result<(), AllocError>
    requires { i < length readings.now }
    ensures { OnOk result ((transactions : List Transaction) (order : List Writing) →
        AreLaid transactions readings.now order starts nodes edges.old.items → AreLaid transactions readings.now order starts nodes edges.new.items) }
{
    match read_edge(readings, starts, i) {
        None => Ok(()),
        Some(edge) => lay(edges, nodes, edge),
    }
}

fn lay_missed(
    edges: &mut Vec<Edge>,
    readings: &[Reading],
    order: &[Writing],
    hint: Hint,
    starts: usize,
    nodes: usize,
    i: usize,
) -> Result<(), AllocError>
    requires { i < length readings.now }
    ensures { OnOk result ((transactions : List Transaction) →
        AreLaid transactions readings.now order.now starts nodes edges.old.items → AreLaid transactions readings.now order.now starts nodes edges.new.items) }
{
    match missed_edge(readings, order, hint, starts, i) {
        None => Ok(()),
        Some(edge) => lay(edges, nodes, edge),
    }
}

fn lay_apart(
    edges: &mut Vec<Edge>,
    readings: &[Reading],
    order: &[Writing],
    hint: Hint,
    starts: usize,
    nodes: usize,
    i: usize,
) -> Result<(), AllocError>
    requires { i < length readings.now }
    ensures { OnOk result ((transactions : List Transaction) →
        AreLaid transactions readings.now order.now starts nodes edges.old.items → AreLaid transactions readings.now order.now starts nodes edges.new.items) }
{
    match apart_edge(readings, order, hint, starts, i) {
        None => Ok(()),
        Some(edge) => lay(edges, nodes, edge),
    }
}

/// From the commit of a reader that wrote the key to the start of the next version's writer.
fn apart_edge(
    readings: &[Reading],
    order: &[Writing],
    hint: Hint,
    starts: usize,
    i: usize,
) -> Option<Edge>
    requires { i < length readings.now }
    ensures { IfSome result (λ edge. IsSure readings.now order.now starts edge) }
{
    let reading = readings[i];
    match version_at(order, hint.own) {
        None => None,
        Some(own) => {
            if own.key != reading.key || own.txn != reading.txn {
                return None;
            }
            later_edge(readings, order, hint, starts, i, own)
        }
    }
}

fn later_edge(
    readings: &[Reading],
    order: &[Writing],
    hint: Hint,
    starts: usize,
    i: usize,
    own: Writing,
) -> Option<Edge>
    requires reading { i < length readings.now }
    requires own { slice_get order.now hint.own ≡ Some own }
    requires key { (r : Reading) → slice_get readings.now i ≡ Some r → own.key ≡ r.key }
    requires txn { (r : Reading) → slice_get readings.now i ≡ Some r → own.txn ≡ r.txn }
    ensures { IfSome result (λ edge. IsSure readings.now order.now starts edge) }
{
    let reading = readings[i];
    match version_at(order, hint.next) {
        None => None,
        Some(next) => {
            if next.key != reading.key
                || next.txn == reading.txn
                || !is_witnessed(readings, hint.witness, reading.answer, next)
            {
                return None;
            }
            edge_of(starts.checked_add(reading.txn), Some(next.txn))
        }
    }
}

/// From the commit of what was read to the reader's start.
fn read_edge(readings: &[Reading], starts: usize, i: usize) -> Option<Edge>
    requires { i < length readings.now }
    ensures { IfSome result (λ edge. (order : List Writing) → IsSure readings.now order starts edge) }
{
    let reading = readings[i];
    match reading.answer {
        None => None,
        Some(found) => edge_of(starts.checked_add(found.from), Some(reading.txn)),
    }
}

fn edge_of(from: Option<usize>, to: Option<usize>) -> Option<Edge>
    ensures { IfSome result (λ edge. (from ≡ Some edge.from) × (to ≡ Some edge.to)) }
{
    match from {
        None => None,
        Some(from) => match to {
            None => None,
            Some(to) => Some(Edge { from, to }),
        },
    }
}

/// From the reader's start to the commit of the next version's writer.
fn missed_edge(
    readings: &[Reading],
    order: &[Writing],
    hint: Hint,
    starts: usize,
    i: usize,
) -> Option<Edge>
    requires { i < length readings.now }
    ensures { IfSome result (λ edge. IsSure readings.now order.now starts edge) }
{
    let reading = readings[i];
    match version_at(order, hint.next) {
        None => None,
        Some(next) => {
            if next.key != reading.key
                || next.txn == reading.txn
                || !is_witnessed(readings, hint.witness, reading.answer, next)
            {
                return None;
            }
            edge_of(Some(reading.txn), starts.checked_add(next.txn))
        }
    }
}

fn version_at(order: &[Writing], place: usize) -> Option<Writing>
    ensures { result ≡ slice_get order.now place }
{
    match order.get(place) {
        None => None,
        Some(version) => Some(*version),
    }
}

/// Whether the reading is one by which the version's writer read the same.
fn is_witnessed(
    readings: &[Reading],
    witness: usize,
    answer: Option<Version>,
    next: Writing,
) -> bool
    ensures { result ≡ true → IsWitnessed readings.now answer next }
{
    match answer {
        None => true,
        Some(found) => reads_same(readings, witness, found, next),
    }
}

fn reads_same(readings: &[Reading], witness: usize, found: Version, next: Writing) -> bool
    ensures { result ≡ true → IsWitnessed readings.now (Some found) next }
{
    match readings.get(witness) {
        None => false,
        Some(same) => same.txn == next.txn
            && same.key == next.key
            && is_of(same.answer, found.from),
    }
}

fn is_of(answer: Option<Version>, from: usize) -> bool
    ensures { result ≡ true → IsOf answer from }
{
    match answer {
        None => false,
        Some(found) => found.from == from,
    }
}

/// Lays an edge behind the others, where it is between nodes. AllocError where memory is refused.
pub fn lay(edges: &mut Vec<Edge>, nodes: usize, edge: Edge) -> Result<(), AllocError>
    ensures { OnOk result (MayLay nodes edge edges.old.items edges.new.items) }
{
    if edge.from < nodes && edge.to < nodes {
        edges.push(edge)?;
    }
    Ok(())
}

/// Lays, behind the others, the edges of this order of the versions: from the commit of each version to the start of the next one's
/// writer, and from each reader to the writer of the next version. AllocError where memory is refused.
pub fn lay_tried(
    edges: &mut Vec<Edge>,
    readings: &[Reading],
    order: &[Writing],
    hints: &[Hint],
    starts: usize,
    nodes: usize,
) -> Result<(), AllocError>
    ensures { OnOk result (AreWithin nodes edges.old.items → AreWithin nodes edges.new.items) }
{
    for next in 1..order.len() {
        lay_next(edges, order[next - 1], order[next], starts, nodes)?;
    }
    for i in 0..readings.len() {
        lay_hidden(edges, readings[i], order, hint_at(hints, i), starts, nodes)?;
    }
    Ok(())
}

/// From the commit of a version to the start of the next one's writer.
fn lay_next(
    edges: &mut Vec<Edge>,
    a: Writing,
    b: Writing,
    starts: usize,
    nodes: usize,
) -> Result<(), AllocError>
    ensures { OnOk result (AreWithin nodes edges.old.items → AreWithin nodes edges.new.items) }
{
    if a.key != b.key {
        return Ok(());
    }
    match starts.checked_add(a.txn) {
        None => Ok(()),
        Some(commit) => lay_within(
            edges,
            nodes,
            Edge {
                from: commit,
                to: b.txn,
            },
        ),
    }
}

/// From a reader to the writer of the next version.
fn lay_hidden(
    edges: &mut Vec<Edge>,
    reading: Reading,
    order: &[Writing],
    hint: Hint,
    starts: usize,
    nodes: usize,
) -> Result<(), AllocError>
    ensures { OnOk result (AreWithin nodes edges.old.items → AreWithin nodes edges.new.items) }
{
    match version_at(order, hint.next) {
        None => Ok(()),
        Some(next) => {
            if next.key != reading.key || next.txn == reading.txn {
                return Ok(());
            }
            match starts.checked_add(next.txn) {
                None => Ok(()),
                Some(commit) => lay_within(
                    edges,
                    nodes,
                    Edge {
                        from: reading.txn,
                        to: commit,
                    },
                ),
            }
        }
    }
}

fn lay_within(edges: &mut Vec<Edge>, nodes: usize, edge: Edge) -> Result<(), AllocError>
    ensures { OnOk result (AreWithin nodes edges.old.items → AreWithin nodes edges.new.items) }
{
    lay(edges, nodes, edge)
}
