// Logs of which something is missing.
ghost use Rattle.std.specs.Prelude.{◌≡◌, ◌≤◌, All, IfOk};

use crate::making::{read_behind, risen_twice};
use cluster_core::Cluster;
use history_book::Item;
use session_script::{Mode, Script, read_script};
use split_stores::{ActorSeat, SettleStop, Split};
use stamp_base::NoMemory;
use std::alloc::Global;
use std::sync::Wait;
use std::test::Fail;
use worked_texts::READ_BEHIND;

/// The parts at their beginning, and a seat of theirs for each actor.
fn open(alloc: Global, script: &Script, actors: usize) -> Result<(Split, Vec<ActorSeat>), NoMemory>
    requires actors { (1 ≤ actors) × (actors ≤ 26) }
    ensures { IfOk result (λ made. All (λ s. s.word ≡ made.0.id) made.1.items) }
{
    Split::open(alloc, script, actors)
}

/// The script whose events are made.
fn script_behind(alloc: Global) -> Option<Script> {
    read_script(alloc, READ_BEHIND.as_bytes(), Mode::Split).ok()
}

/// All events of the script are made, and what the log kept of the first, a take, is taken away.
fn make_and_strike<R: Wait>(rt: &R, alloc: Global, split: &Split, seat: &mut ActorSeat) -> bool
    requires { seat.old.word ≡ split.now.id }
    ensures { seat.new.word ≡ split.now.id }
{
    read_behind(rt, alloc, split, seat) && seat.strike(0)
}

fn is_take(item: &Option<Item>) -> bool {
    matches!(item, Some(Item::Take { .. }))
}

fn stops_at_the_take(stop: &SettleStop) -> bool {
    match stop {
        SettleStop::Torn {
            tick,
            kept,
            replayed,
        } => *tick == 1 && kept.is_none() && is_take(replayed),
        _ => false,
    }
}

fn is_torn_at_the_take(settled: &Result<Cluster, SettleStop>) -> bool {
    match settled {
        Err(stop) => stops_at_the_take(stop),
        Ok(_) => false,
    }
}

fn is_missing_one(settled: &Result<Cluster, SettleStop>) -> bool {
    matches!(settled, Err(SettleStop::Missing { made: 2, given: 1 }))
}

/// Whether logs are torn where one was struck.
fn tears<R: Wait>(rt: &R, alloc: Global, script: &Script) -> Result<bool, NoMemory> {
    let (split, seats) = open(alloc, script, 1)?;
    let struck = one_struck(rt, alloc, &split, seats)?;
    let settled = split.settle(alloc, struck);
    Ok(is_torn_at_the_take(&settled))
}

/// The seats with the last of them struck; without it where one of its events was not done.
fn one_struck<R: Wait>(
    rt: &R,
    alloc: Global,
    split: &Split,
    seats: Vec<ActorSeat>,
) -> Result<Vec<ActorSeat>, NoMemory>
    requires { All (λ s. s.word ≡ split.now.id) seats.items }
    ensures { IfOk result (λ struck. All (λ s. s.word ≡ split.now.id) struck.items) }
{
    let mut seats = seats;
    if let Some(mut seat) = seats.pop() {
        if make_and_strike(rt, alloc, split, &mut seat) {
            seats.push(seat)?;
        }
    }
    Ok(seats)
}

/// The seats but for the last of them.
fn without_last(split: &Split, seats: Vec<ActorSeat>) -> Vec<ActorSeat>
    requires { All (λ s. s.word ≡ split.now.id) seats.items }
    ensures { All (λ s. s.word ≡ split.now.id) result.items }
{
    let mut seats = seats;
    let _kept_back = seats.pop();
    seats
}

/// Whether logs are not settled where one is kept back.
fn misses(alloc: Global, script: &Script) -> Result<bool, NoMemory> {
    let (split, seats) = open(alloc, script, 2)?;
    let others = without_last(&split, seats);
    let settled = split.settle(alloc, others);
    Ok(is_missing_one(&settled))
}

/// By how much the clock has risen, as the only seat tells.
fn risen_of_one<R: Wait>(rt: &R, alloc: Global, split: &Split, seats: Vec<ActorSeat>) -> Option<u64>
    requires { All (λ s. s.word ≡ split.now.id) seats.items }
{
    let mut seats = seats;
    let mut seat = seats.pop()?;
    risen_twice(rt, alloc, split, &mut seat)
}

fn risen<R: Wait>(rt: &R, alloc: Global, script: &Script) -> Result<Option<u64>, NoMemory> {
    let (split, seats) = open(alloc, script, 1)?;
    Ok(risen_of_one(rt, alloc, &split, seats))
}

fn risen_in<R: Wait>(rt: &R, alloc: Global) -> Result<Option<u64>, NoMemory> {
    match script_behind(alloc) {
        Some(script) => risen(rt, alloc, &script),
        None => Ok(None),
    }
}

fn tears_in<R: Wait>(rt: &R, alloc: Global) -> Result<bool, NoMemory> {
    match script_behind(alloc) {
        Some(script) => tears(rt, alloc, &script),
        None => Ok(false),
    }
}

fn misses_in(alloc: Global) -> Result<bool, NoMemory> {
    match script_behind(alloc) {
        Some(script) => misses(alloc, &script),
        None => Ok(false),
    }
}

#[test]
fn a_struck_log_is_torn(rt: HostRuntime) -> Result<(), Fail> {
    assert!(rt; tears_in(&rt, rt.alloc())?);
    Ok(())
}

#[test]
fn a_log_that_is_kept_back_is_missing(rt: HostRuntime) -> Result<(), Fail> {
    assert!(rt; misses_in(rt.alloc())?);
    Ok(())
}

#[test]
fn a_seat_tells_how_far_the_clock_has_risen(rt: HostRuntime) -> Result<(), Fail> {
    assert_eq!(rt; risen_in(&rt, rt.alloc())?, Some(42));
    Ok(())
}
