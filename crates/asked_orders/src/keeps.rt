// Whether numbers keep the order that is asked for.
ghost use Rattle.std.specs.Prelude.{◌≡◌, ◌+◌, ◌<◌, ◌≤◌, ℕ, List, Option, Some, length, slice_get, slice_index, true};
ghost use Rattle.trace_rules.specs.declared.trace.Operation.{Operation};
ghost use Rattle.trace_rules.specs.declared.trace.Transaction.{Transaction};
ghost use Rattle.trace_rules.specs.Stamping.{Start, Commit, Keeps};
ghost use Rattle.trace_rules.specs.Trace.{committed_in};
ghost use Rattle.trace_rules.specs.Wants.{asked_of, moments_of};
ghost use Rattle.outer_reads.specs.Sources.{trace_of};
ghost use Rattle.trace_edges.specs.Edges.{starts_of};
ghost use Rattle.asked_orders.specs.declared.plan.Turn.{Turn};
ghost use Rattle.asked_orders.specs.Keeps.{ArePointsTimed, AreTimed, HaveTurns, IsAbove, IsTimed, IsUnder, MomentsRise, NextRises, TurnRises, TurnsRise, stamping_of};

use crate::edges::{Nodes, first_from};
use crate::plan::{Plan, Turn};
use crate::points::{from_commit, from_start, is_committed, until_commit, until_start};
use trace_rules::{Level, Times, Transaction, Wanted};

/// Whether the numbers, of the points and behind them of the moments, keep the order that is asked for.
pub fn keep_asked(
    wanted: Wanted,
    level: Level,
    transactions: &[Transaction],
    times: &[Times],
    plan: &Plan,
    nodes: Nodes,
    numbers: &[usize],
) -> bool
    requires { nodes.starts ≡ starts_of level (length transactions.now) }
    ensures { result ≡ true → (operations : List Operation) → Keeps (asked_of wanted level times.now (trace_of transactions.now operations)) (stamping_of level (length transactions.now) numbers.now) }
{
    match wanted {
        Wanted::Nothing => true,
        Wanted::Sessions => {
            have_turns(transactions, &plan.turns, &plan.seats)
                && turns_rise(&plan.turns, nodes.starts, numbers)
        }
        Wanted::RealTime => {
            moments_rise(&plan.moments, nodes.points, numbers)
                && are_timed(level, transactions, times, &plan.moments, nodes, numbers)
        }
    }
}

/// Whether each committed transaction has a turn, at the place that is given for it.
fn have_turns(transactions: &[Transaction], turns: &[Turn], seats: &[usize]) -> bool
    ensures { result ≡ true → HaveTurns (length transactions.now) transactions.now turns.now }
{
    for txn in 0..transactions.len() {
        if !has_turn(transactions, txn, turns, seats) {
            return false;
        }
    }
    true
}

fn has_turn(transactions: &[Transaction], txn: usize, turns: &[Turn], seats: &[usize]) -> bool
    ensures { result ≡ true → (x : Transaction) → slice_get transactions.now txn ≡ Some x → x.committed ≡ true → (seat : ℕ) × (slice_get turns.now seat ≡ Some (record { process = x.process; txn = txn })) }
{
    match transactions.get(txn) {
        None => true,
        Some(x) => !x.committed || is_turn(x.process, txn, turns, seat_of(seats, txn)),
    }
}

fn is_turn(process: u64, txn: usize, turns: &[Turn], seat: usize) -> bool
    ensures { result ≡ true → slice_get turns.now seat ≡ Some (record { process = process; txn = txn }) }
{
    match turns.get(seat) {
        None => false,
        Some(turn) => turn.process == process && turn.txn == txn,
    }
}

fn seat_of(seats: &[usize], txn: usize) -> usize {
    match seats.get(txn) {
        None => 0,
        Some(seat) => *seat,
    }
}

fn turns_rise(turns: &[Turn], starts: usize, numbers: &[usize]) -> bool
    ensures { result ≡ true → TurnsRise starts numbers.now (length turns.now) turns.now }
{
    for next in 1..turns.len() {
        if !is_turn_above(turns, next, starts, numbers) {
            return false;
        }
    }
    true
}

/// Whether the turn at the place comes behind the one before it.
fn is_turn_above(turns: &[Turn], next: usize, starts: usize, numbers: &[usize]) -> bool
    requires { next < length turns.now }
    ensures { result ≡ true → (seat : ℕ) (a b : Turn) → seat + 1 ≡ next → slice_get turns.now seat ≡ Some a → slice_get turns.now next ≡ Some b → TurnRises starts numbers.now a b }
{
    next == 0 || turn_rises(turns[next - 1], turns[next], starts, numbers)
}

/// Whether the second turn is of a greater process, or of the same one and begins above the commit of the first.
fn turn_rises(a: Turn, b: Turn, starts: usize, numbers: &[usize]) -> bool
    ensures { result ≡ true → TurnRises starts numbers.now a b }
{
    number_at(numbers, a.txn) <= number_behind(numbers, starts, a.txn)
        && (a.process < b.process
            || a.process == b.process
                && a.txn < b.txn
                && number_behind(numbers, starts, a.txn) < number_at(numbers, b.txn))
}

fn moments_rise(moments: &[u64], points: usize, numbers: &[usize]) -> bool
    ensures { result ≡ true → MomentsRise points numbers.now (length moments.now) moments.now }
{
    for next in 1..moments.len() {
        if !next_rises(moments, next, points, numbers) {
            return false;
        }
    }
    true
}

fn next_rises(moments: &[u64], next: usize, points: usize, numbers: &[usize]) -> bool
    requires { next < length moments.now }
    ensures { result ≡ true → (place : ℕ) → place + 1 ≡ next → NextRises points numbers.now moments.now place }
{
    next == 0
        || moments[next - 1] < moments[next]
            && number_behind(numbers, points, next - 1) < number_behind(numbers, points, next)
}

/// Whether the numbers of all points of committed transactions lie between those of moments as they should.
fn are_timed(
    level: Level,
    transactions: &[Transaction],
    times: &[Times],
    moments: &[u64],
    nodes: Nodes,
    numbers: &[usize],
) -> bool
    ensures { result ≡ true → AreTimed level times.now (length transactions.now) transactions.now nodes.starts nodes.points moments.now numbers.now }
{
    for txn in 0..transactions.len() {
        if !are_points_timed(level, transactions, times, moments, nodes, numbers, txn) {
            return false;
        }
    }
    true
}

fn are_points_timed(
    level: Level,
    transactions: &[Transaction],
    times: &[Times],
    moments: &[u64],
    nodes: Nodes,
    numbers: &[usize],
    txn: usize,
) -> bool
    ensures { result ≡ true → committed_in (slice_get transactions.now txn) ≡ true → ArePointsTimed level times.now nodes.starts nodes.points moments.now numbers.now txn }
{
    !is_committed(transactions, txn)
        || is_timed(
            from_start(level, times, txn),
            until_start(level, times, txn),
            moments,
            nodes.points,
            numbers,
            number_at(numbers, txn),
        ) && is_timed(
            from_commit(level, times, txn),
            until_commit(level, times, txn),
            moments,
            nodes.points,
            numbers,
            number_behind(numbers, nodes.starts, txn),
        )
}

/// Whether the number lies above those of the moments before the first, and below that of the second.
fn is_timed(
    from: Option<u64>,
    until: Option<u64>,
    moments: &[u64],
    points: usize,
    numbers: &[usize],
    number: usize,
) -> bool
    ensures { result ≡ true → IsTimed moments.now points numbers.now from until number }
{
    is_above(from, moments, points, numbers, number)
        && is_under(until, moments, points, numbers, number)
}

/// Whether the number is below that of the moment, where there is one.
fn is_under(
    until: Option<u64>,
    moments: &[u64],
    points: usize,
    numbers: &[usize],
    number: usize,
) -> bool
    ensures { result ≡ true → IsUnder moments.now points numbers.now until number }
{
    match until {
        None => true,
        Some(moment) => {
            let place = first_from(moments, moment);
            match moments.get(place) {
                None => false,
                Some(last) => *last == moment && number < number_behind(numbers, points, place),
            }
        }
    }
}

/// Whether the number is above those of all moments before this one, where there is one.
fn is_above(
    from: Option<u64>,
    moments: &[u64],
    points: usize,
    numbers: &[usize],
    number: usize,
) -> bool
    ensures { result ≡ true → IsAbove moments.now points numbers.now from number }
{
    match from {
        None => true,
        Some(moment) => {
            let place = first_from(moments, moment);
            place <= moments.len()
                && is_not_before(moments, place, moment)
                && (place == 0 || number_behind(numbers, points, place - 1) < number)
        }
    }
}

/// Whether the moment at the place, where there is one, is not before this one.
fn is_not_before(moments: &[u64], place: usize, moment: u64) -> bool
    ensures { result ≡ true → (found : ℕ) → slice_get moments.now place ≡ Some found → moment ≤ found }
{
    match moments.get(place) {
        None => true,
        Some(found) => moment <= *found,
    }
}

/// The number of the node that stands so far behind this one.
fn number_behind(numbers: &[usize], starts: usize, txn: usize) -> usize
    ensures { result ≡ slice_index numbers.now (starts + txn) }
{
    match starts.checked_add(txn) {
        None => 0,
        Some(place) => number_at(numbers, place),
    }
}

fn number_at(numbers: &[usize], place: usize) -> usize
    ensures { result ≡ slice_index numbers.now place }
{
    match numbers.get(place) {
        None => 0,
        Some(number) => *number,
    }
}
