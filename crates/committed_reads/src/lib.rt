//! The judge of the level at which each read is of a committed transaction's last write.
#![tactic(auto)]

ghost use Rattle.std.specs.Prelude.{◌≡◌, ◌+◌, ◌<◌, IfOk, List, OnOk, Some, length, slice_get};
ghost use Rattle.trace_rules.specs.declared.trace.Operation.{Operation};
ghost use Rattle.trace_rules.specs.declared.trace.Transaction.{Transaction};
ghost use Rattle.outer_reads.specs.declared.writings.Writing.{Writing as WritingOf};
ghost use Rattle.outer_reads.specs.Sources.{AreKnown, trace_of};
ghost use Rattle.committed_reads.specs.Committed.{AreReadEdges, IsPushed, IsVerdict};

use outer_reads::{Reading, Sources, sources_of};
use rising_numbers::{Edge, Order, numbered};
use std::alloc::{AllocError, Global};
use trace_rules::{Operation, Transaction};

/// What is found of a trace.
#[derive(Drop)]
pub enum Verdict {
    /// The reads are of committed transactions, and do not go round: along them the transactions have rising numbers, by place.
    Holds(Vec<usize>),
    /// The operation at this place is a read of what is no committed transaction's last write, or not of the own one.
    WrongRead(usize),
    /// These edges, each from a transaction to one that read from it, lead from one back to it.
    Refused(Vec<Edge>),
}

/// Judges whether the committed transactions of a trace read what such transactions wrote last, or their own last write, and do not
/// read from one another in a round. It takes a time and memory in proportion to the operations. AllocError where memory is
/// refused.
pub fn judge_committed(
    alloc: Global,
    transactions: &[Transaction],
    operations: &[Operation],
) -> Result<Verdict, AllocError>
    ensures { IfOk result (λ verdict. IsVerdict (trace_of transactions.now operations.now) verdict) }
{
    match sources_of(alloc, transactions, operations)? {
        Sources::WrongRead(place) => Ok(Verdict::WrongRead(place)),
        Sources::Known(readings, _writings) => judge_reads(alloc, transactions, &readings),
    }
}

/// Judges a trace whose reads are known.
fn judge_reads(
    alloc: Global,
    transactions: &[Transaction],
    readings: &[Reading],
) -> Result<Verdict, AllocError>
    ensures { IfOk result (λ verdict. (operations : List Operation) (writings : List WritingOf) → AreKnown (trace_of transactions.now operations) readings.now writings → IsVerdict (trace_of transactions.now operations) verdict) }
{
    let count = transactions.len();
    let edges = read_edges(alloc, count, readings)?;
    match numbered(alloc, count, &edges)? {
        Order::Rising(numbers) => Ok(Verdict::Holds(numbers)),
        Order::Cycle(places) => Ok(Verdict::Refused(edges_at(alloc, &edges, &places)?)),
    }
}

/// The edges from each transaction to those that read from it.
fn read_edges(alloc: Global, count: usize, readings: &[Reading]) -> Result<Vec<Edge>, AllocError>
    ensures { IfOk result (λ edges. AreReadEdges count readings.now (length readings.now) edges.items) }
{
    let mut edges = Vec::new(alloc);
    for i in 0..readings.len() {
        lay_read(&mut edges, count, readings, i)?;
    }
    Ok(edges)
}

fn lay_read(
    edges: &mut Vec<Edge>,
    count: usize,
    readings: &[Reading],
    i: usize,
) -> Result<(), AllocError>
    requires { i < length readings.now }
    ensures { OnOk result (AreReadEdges count readings.now i edges.old.items → AreReadEdges count readings.now (i + 1) edges.new.items) }
{
    let reading = readings[i];
    match reading.answer {
        None => Ok(()),
        Some(found) => push_within(
            edges,
            count,
            Edge {
                from: found.from,
                to: reading.txn,
            },
        ),
    }
}

fn push_within(edges: &mut Vec<Edge>, count: usize, edge: Edge) -> Result<(), AllocError>
    ensures { OnOk result (IsPushed count edge edges.old.items edges.new.items) }
{
    if edge.from < count && edge.to < count {
        edges.push(edge)?;
    }
    Ok(())
}

fn edges_at(alloc: Global, edges: &[Edge], places: &[usize]) -> Result<Vec<Edge>, AllocError> {
    let mut found = Vec::new(alloc);
    for place in places {
        if let Some(edge) = edges.get(*place) {
            found.push(*edge)?;
        }
    }
    Ok(found)
}
