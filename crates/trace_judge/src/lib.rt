//! The judge of traces without stamps.
#![tactic(auto)]

ghost use Rattle.std.specs.Prelude.{◌≡◌, ◌≤◌, true, List, IfOk, IfSome, length, slice_get};
ghost use Rattle.std.specs.List.Sorted.{IsPermutation};
ghost use Rattle.trace_rules.specs.declared.trace.Operation.{Operation};
ghost use Rattle.trace_rules.specs.Wants.{asked_of, no_wants};
ghost use Rattle.outer_reads.specs.Sources.{AreKnown, trace_of};
ghost use Rattle.trace_edges.specs.Edges as edges_of;
ghost use Rattle.rising_numbers.specs.Rises.{AreWithin};
ghost use Rattle.version_orders.specs.Orders.{AreSure, Task, task_of};
ghost use Rattle.asked_orders.specs.Joins.{AreJoined, moments_for};
ghost use Rattle.version_ranks.specs.Ranks.{asked_with};
ghost use Rattle.trace_judge.specs.Verdicts.{AreStamps, IsShared, IsVerdict, Refuses};

mod hints;

use asked_orders::{Nodes, Plan, keep_asked, lay_asked, plan_of};
use hints::{hints_of, number_at, places_of};
use outer_reads::{Reading, Sources, Writing, sources_of};
use rank_orders::{keep_ranks, lay_ranks};
use rising_numbers::{Edge, Order, numbered};
use stamp_check::{are_serial, are_stamps};
use std::alloc::{AllocError, Global};
use trace_edges::{forced_edges, lay_tried};
use trace_rules::{Level, Operation, Times, Transaction, Wanted};
use version_orders::{Laid, add_orders};
use version_ranks::Rank;

/// What is found of a trace.
#[derive(Drop)]
pub enum Verdict {
    /// There are stamps. Under Snapshot they are numbers of the starts, by transaction, and behind them of the commits; under
    /// Serializable each transaction has one number. Those of two points may be equal where nothing orders them.
    Holds(Vec<usize>),
    /// There are none: this operation is a read that no stamps allow.
    WrongRead(usize),
    /// There are none: these edges hold in all stamps, and lead from a node back to it. Nodes are numbered as stamps are in Holds.
    Refused(Vec<Edge>),
    /// The order of a key's versions was tried where nothing forces it, and led to no stamps: of this key, where one was found that
    /// several transactions wrote.
    Undecided(Option<u64>),
}

/// How many times at most versions are sorted, and edges added that follow of their order.
const ROUNDS: usize = 8;

/// Judges a trace: whether there are stamps for the transactions that make it isolated, at the level. For n operations it takes a
/// time in proportion to n log n, and memory in proportion to n. AllocError where memory is refused.
pub fn judge(
    alloc: Global,
    level: Level,
    transactions: &[Transaction],
    operations: &[Operation],
) -> Result<Verdict, AllocError>
    ensures { IfOk result (λ verdict. IsVerdict level no_wants (trace_of transactions.now operations.now) verdict) }
{
    judge_wanted(alloc, level, Wanted::Nothing, transactions, &[], operations)
}

/// Judges a trace as `judge` does, where the stamps are to keep an order besides: the moments that are known of each transaction
/// are given by its place. AllocError where memory is refused.
pub fn judge_wanted(
    alloc: Global,
    level: Level,
    wanted: Wanted,
    transactions: &[Transaction],
    times: &[Times],
    operations: &[Operation],
) -> Result<Verdict, AllocError>
    ensures { IfOk result (λ verdict. IsVerdict level (asked_of wanted level times.now (trace_of transactions.now operations.now)) (trace_of transactions.now operations.now) verdict) }
{
    judge_told(alloc, level, wanted, transactions, times, &[], operations)
}

/// Judges a trace as `judge_wanted` does, where an order of versions is told besides: the ranks of committed transactions, by key
/// and version. AllocError where memory is refused.
pub fn judge_told(
    alloc: Global,
    level: Level,
    wanted: Wanted,
    transactions: &[Transaction],
    times: &[Times],
    ranks: &[Rank],
    operations: &[Operation],
) -> Result<Verdict, AllocError>
    ensures { IfOk result (λ verdict. IsVerdict level (asked_with wanted level times.now ranks.now (trace_of transactions.now operations.now)) (trace_of transactions.now operations.now) verdict) }
{
    match sources_of(alloc, transactions, operations)? {
        Sources::WrongRead(place) => Ok(Verdict::WrongRead(place)),
        Sources::Known(readings, writings) => {
            let mut order = writings;
            judge_known(
                alloc,
                level,
                wanted,
                transactions,
                times,
                ranks,
                &readings,
                &mut order,
            )
        }
    }
}

/// Judges a trace whose reads and versions are known.
fn judge_known(
    alloc: Global,
    level: Level,
    wanted: Wanted,
    transactions: &[Transaction],
    times: &[Times],
    ranks: &[Rank],
    readings: &[Reading],
    order: &mut Vec<Writing>,
) -> Result<Verdict, AllocError>
    ensures { IfOk result (λ verdict. (operations : List Operation) → AreKnown (trace_of transactions.now operations) readings.now order.old.items →
        IsVerdict level (asked_with wanted level times.now ranks.now (trace_of transactions.now operations)) (trace_of transactions.now operations) verdict) }
{
    let plan = plan_of(alloc, wanted, level, transactions, times)?;
    let nodes = nodes_of(level, transactions.len(), plan.moments.len());
    sort_by(order, &[]);
    let mut edges = sure_edges(
        alloc,
        level,
        wanted,
        transactions,
        times,
        ranks,
        &plan,
        readings,
        order,
        nodes,
    )?;
    let mut laid = Laid::new(alloc, ROUNDS);
    for round in 0..=ROUNDS {
        if let Some(cycle) = sort_round(alloc, readings, order, &mut edges, &mut laid, nodes)? {
            return Ok(Verdict::Refused(cycle));
        }
    }
    try_order(
        alloc,
        level,
        wanted,
        transactions,
        times,
        ranks,
        &plan,
        readings,
        order,
        &mut edges,
        nodes,
    )
}

/// The edges that hold in all stamps that keep what is asked for, before any order of versions is known.
fn sure_edges(
    alloc: Global,
    level: Level,
    wanted: Wanted,
    transactions: &[Transaction],
    times: &[Times],
    ranks: &[Rank],
    plan: &Plan,
    readings: &[Reading],
    order: &[Writing],
    nodes: Nodes,
) -> Result<Vec<Edge>, AllocError>
    requires room { nodes.points ≤ nodes.all }
    requires starts { nodes.starts ≡ edges_of.starts_of level (length transactions.now) }
    ensures { IfOk result (λ edges. AreSure (task_of level wanted transactions.now times.now ranks.now plan.now.moments.items) readings.now order.now nodes edges.items) }
{
    let hints = hints_of(alloc, readings, order)?;
    let mut edges = forced_edges(
        alloc,
        transactions,
        readings,
        order,
        &hints.heirs,
        nodes.starts,
        nodes.points,
    )?;
    let asked = asked_edges(alloc, level, wanted, transactions, times, plan, nodes)?;
    edges.extend_from_slice(&asked)?;
    lay_ranks(&mut edges, transactions, ranks, nodes)?;
    Ok(edges)
}

/// The edges of the order that is asked for.
fn asked_edges(
    alloc: Global,
    level: Level,
    wanted: Wanted,
    transactions: &[Transaction],
    times: &[Times],
    plan: &Plan,
    nodes: Nodes,
) -> Result<Vec<Edge>, AllocError>
    ensures within { IfOk result (λ edges. AreWithin nodes.all edges.items) }
    ensures joined { IfOk result (λ edges. (operations : List Operation) → nodes.starts ≡ edges_of.starts_of level (length transactions.now) →
        AreJoined level (asked_of wanted level times.now (trace_of transactions.now operations)) (moments_for wanted level times.now) (trace_of transactions.now operations) nodes.starts nodes.points plan.now.moments.items edges.items) }
{
    let mut edges = Vec::new(alloc);
    lay_asked(&mut edges, wanted, level, transactions, times, plan, nodes)?;
    Ok(edges)
}

/// Sorts the versions by the numbers that the edges allow, and adds the edges that follow; or finds a cycle of edges, all of which
/// are sure. Where no edge was added since the last time, nothing is done.
fn sort_round(
    alloc: Global,
    readings: &[Reading],
    order: &mut Vec<Writing>,
    edges: &mut Vec<Edge>,
    laid: &mut Laid,
    nodes: Nodes,
) -> Result<Option<Vec<Edge>>, AllocError>
    requires { AreWithin nodes.all edges.old.items }
    ensures permutation { IfOk result (λ cycle. IsPermutation order.old.items order.new.items) }
    ensures sure { IfOk result (λ cycle. (task : Task) → AreSure task readings.now order.old.items nodes edges.old.items → AreSure task readings.now order.new.items nodes edges.new.items) }
    ensures refused { IfOk result (λ cycle. IfSome cycle (λ found. (task : Task) → AreSure task readings.now order.old.items nodes edges.old.items → Refuses task readings.now order.old.items nodes)) }
{
    if !laid.take_news() {
        return Ok(None);
    }
    match numbered(alloc, nodes.all, edges)? {
        Order::Cycle(places) => {
            let cycle = edges_at(alloc, edges, &places)?;
            Ok(Some(cycle))
        }
        Order::Rising(numbers) => {
            sort_by(order, &numbers);
            let places = places_of(alloc, readings, order)?;
            add_orders(
                alloc, readings, &places, order, &numbers, edges, laid, nodes,
            )?;
            Ok(None)
        }
    }
}

/// Stamps for this order of the versions, if there are any.
fn try_order(
    alloc: Global,
    level: Level,
    wanted: Wanted,
    transactions: &[Transaction],
    times: &[Times],
    ranks: &[Rank],
    plan: &Plan,
    readings: &[Reading],
    order: &[Writing],
    edges: &mut Vec<Edge>,
    nodes: Nodes,
) -> Result<Verdict, AllocError>
    requires starts { nodes.starts ≡ edges_of.starts_of level (length transactions.now) }
    requires within { AreWithin nodes.all edges.old.items }
    ensures { IfOk result (λ verdict. (operations : List Operation) → AreKnown (trace_of transactions.now operations) readings.now order.now →
        IsVerdict level (asked_with wanted level times.now ranks.now (trace_of transactions.now operations)) (trace_of transactions.now operations) verdict) }
{
    let hints = hints_of(alloc, readings, order)?;
    let sure = edges.len();
    lay_tried(edges, readings, order, &hints.next, nodes.starts, nodes.all)?;
    match numbered(alloc, nodes.all, edges)? {
        Order::Cycle(places) => {
            let tried = first_tried(edges, sure, &places);
            Ok(Verdict::Undecided(tried_key(order, nodes.starts, tried)))
        }
        Order::Rising(numbers) => {
            if are_right(
                level,
                wanted,
                transactions,
                times,
                ranks,
                plan,
                readings,
                &hints.places,
                order,
                nodes,
                &numbers,
            ) {
                Ok(Verdict::Holds(numbers))
            } else {
                Ok(Verdict::Undecided(None))
            }
        }
    }
}

/// Whether the numbers make stamps at the level that keep what is asked for.
fn are_right(
    level: Level,
    wanted: Wanted,
    transactions: &[Transaction],
    times: &[Times],
    ranks: &[Rank],
    plan: &Plan,
    readings: &[Reading],
    places: &[usize],
    order: &[Writing],
    nodes: Nodes,
    numbers: &[usize],
) -> bool
    requires { nodes.starts ≡ edges_of.starts_of level (length transactions.now) }
    ensures { result ≡ true → (operations : List Operation) → AreKnown (trace_of transactions.now operations) readings.now order.now →
        AreStamps level (asked_with wanted level times.now ranks.now (trace_of transactions.now operations)) (trace_of transactions.now operations) numbers.now }
{
    if !keep_asked(wanted, level, transactions, times, plan, nodes, numbers) {
        return false;
    }
    if !keep_ranks(level, transactions, ranks, nodes.starts, numbers) {
        return false;
    }
    match level {
        Level::Snapshot => are_stamps(transactions, readings, places, order, numbers),
        Level::Serializable => are_serial(readings, places, order, numbers),
    }
}

/// The numbers of nodes, for so many transactions and moments.
fn nodes_of(level: Level, transactions: usize, moments: usize) -> Nodes
    ensures starts { result.starts ≡ edges_of.starts_of level transactions }
    ensures all { result.points ≤ result.all }
{
    let starts = starts_of(level, transactions);
    let points = starts.saturating_add(transactions);
    Nodes {
        starts,
        points,
        all: points.saturating_add(moments),
    }
}

/// The first of the edges at the places that stands behind the sure ones.
fn first_tried(edges: &[Edge], sure: usize, places: &[usize]) -> Option<Edge> {
    for place in places {
        if *place >= sure {
            return edges.get(*place).copied();
        }
    }
    None
}

/// The key of two neighbours of the order that the edge was to order, or one of which it has a reader come before.
fn tried_key(order: &[Writing], starts: usize, tried: Option<Edge>) -> Option<u64>
    ensures { IfSome result (λ key. IsShared order.now key) }
{
    for next in 1..order.len() {
        if let Some(key) = key_between(order, next.saturating_sub(1), next, starts, tried) {
            return Some(key);
        }
    }
    None
}

fn key_between(
    order: &[Writing],
    i: usize,
    j: usize,
    starts: usize,
    tried: Option<Edge>,
) -> Option<u64>
    ensures { IfSome result (λ key. IsShared order.now key) }
{
    let a = version_at(order, i)?;
    let b = version_at(order, j)?;
    if a.key == b.key && a.txn != b.txn && is_between(starts, tried, a.txn, b.txn) {
        Some(a.key)
    } else {
        None
    }
}

/// Whether the edge leads from the commit of the first to the start of the second, or to the commit of the second.
fn is_between(starts: usize, tried: Option<Edge>, first: usize, second: usize) -> bool {
    match tried {
        None => false,
        Some(edge) => {
            edge.to == starts.saturating_add(second)
                || edge.to == second && edge.from == starts.saturating_add(first)
        }
    }
}

fn version_at(order: &[Writing], place: usize) -> Option<Writing>
    ensures { result ≡ slice_get order.now place }
{
    match order.get(place) {
        None => None,
        Some(version) => Some(*version),
    }
}

/// How many nodes are starts.
fn starts_of(level: Level, transactions: usize) -> usize
    ensures { result ≡ edges_of.starts_of level transactions }
{
    match level {
        Level::Snapshot => transactions,
        Level::Serializable => 0,
    }
}

/// Sorts versions by key, and those of a key by their writers' numbers.
fn sort_by(order: &mut Vec<Writing>, numbers: &[usize])
    ensures { IsPermutation order.old.items order.new.items }
{
    order.sort_unstable_by_key(|version| (version.key, number_at(numbers, version.txn)));
}

fn edges_at(alloc: Global, edges: &[Edge], places: &[usize]) -> Result<Vec<Edge>, AllocError> {
    let mut found = Vec::new(alloc);
    for place in places {
        if let Some(edge) = edges.get(*place) {
            found.push(*edge)?;
        }
    }
    Ok(found)
}
