// The transactions that events tell of.
ghost use Rattle.std.specs.Prelude.{◌≡◌, ◌∷◌, ◌++◌, [], IfOk, OnOk, Some};
ghost use Rattle.trace_index.specs.Attempts.{added_of_kind, asked_before, attempt_of, attempts_of, completed_at, fate_of, latest_of, left_unanswered, unanswered, with_latest};

use crate::latest::Latest;
use stamp_base::NoMemory;
use std::alloc::Global;
use trace_reading::{Event, Kind};
use trace_rules::Times;

/// What became of a transaction.
#[derive(Clone, Copy, Debug, PartialEq, Eq)]
pub enum Fate {
    /// It committed.
    Committed,
    /// It did not commit.
    Aborted,
    /// Nobody knows.
    Open,
}

/// A transaction as it was recorded.
#[derive(Clone, Copy, Debug, PartialEq, Eq)]
pub struct Attempt {
    /// The number of its process's name.
    pub process: u64,
    /// What became of it.
    pub fate: Fate,
    /// The line, or the number of the object in an array, at which its operations stand.
    pub line: u64,
    /// The moments that are known of it.
    pub times: Times,
    /// Its operations are those from this place
    pub first: u64,
    /// to before this one.
    pub end: u64,
}

/// The transactions of the events: each event but an invocation is one, and so is an invocation that is left unanswered. NoMemory
/// where memory is refused.
pub fn attempts_of(alloc: Global, events: &[Event]) -> Result<Vec<Attempt>, NoMemory>
    ensures { IfOk result (λ attempts. attempts.items ≡ attempts_of events.now) }
{
    let mut latest = Latest::new(alloc);
    let mut attempts = Vec::new(alloc);
    for event in events {
        add_event(&mut attempts, &mut latest, *event)?;
    }
    add_left(&mut attempts, &latest)?;
    Ok(attempts)
}

/// Adds what the event adds, and notes it as the latest of its process.
fn add_event(attempts: &mut Vec<Attempt>, latest: &mut Latest, event: Event) -> Result<(), NoMemory>
    ensures added { OnOk result (attempts.new.items ≡ attempts.old.items ++ added_of_kind event.kind (latest_of event.process latest.old) event) }
    ensures latest { OnOk result (latest.new ≡ with_latest event latest.old) }
{
    add_behind(attempts, latest.of(event.process), event)?;
    latest.note(event)
}

/// Adds what the event adds behind this latest one of its process.
fn add_behind(
    attempts: &mut Vec<Attempt>,
    before: Option<Event>,
    event: Event,
) -> Result<(), NoMemory>
    ensures { OnOk result (attempts.new.items ≡ attempts.old.items ++ added_of_kind event.kind before event) }
{
    match event.kind {
        Kind::Invoke => add_unanswered(attempts, before),
        Kind::Ok | Kind::Fail | Kind::Info => push(
            attempts,
            attempt_of(asked_before(before), event),
        ),
    }
}

fn push(attempts: &mut Vec<Attempt>, attempt: Attempt) -> Result<(), NoMemory>
    ensures { OnOk result (attempts.new.items ≡ attempts.old.items ++ attempt ∷ []) }
{
    attempts.extend_from_slice(&[attempt])?;
    Ok(())
}

/// Adds the transaction that the event asked for, where it is an invocation.
fn add_unanswered(attempts: &mut Vec<Attempt>, event: Option<Event>) -> Result<(), NoMemory>
    ensures { OnOk result (attempts.new.items ≡ attempts.old.items ++ unanswered event) }
{
    match event {
        Some(event) => add_where_asked(attempts, event),
        None => Ok(()),
    }
}

fn add_where_asked(attempts: &mut Vec<Attempt>, event: Event) -> Result<(), NoMemory>
    ensures { OnOk result (attempts.new.items ≡ attempts.old.items ++ unanswered (Some event)) }
{
    match event.kind {
        Kind::Invoke => push(attempts, attempt_of(event.moments.time, event)),
        Kind::Ok | Kind::Fail | Kind::Info => Ok(()),
    }
}

/// Adds those whose process did nothing more.
#[tactic(auto, using(crate::proofs::LeftLemmas::left_here))]
fn add_left(attempts: &mut Vec<Attempt>, latest: &Latest) -> Result<(), NoMemory>
    ensures { OnOk result (attempts.new.items ≡ attempts.old.items ++ left_unanswered latest.now) }
{
    for place in 0..latest.len() {
        add_unanswered(attempts, latest.at(place))?;
    }
    Ok(())
}

/// When the transaction was asked for, where this event of its process asked for it.
fn asked_before(before: Option<Event>) -> Option<u64>
    ensures { result ≡ asked_before before }
{
    match before {
        Some(event) => asked_by(event),
        None => None,
    }
}

fn asked_by(event: Event) -> Option<u64>
    ensures { result ≡ asked_before (Some event) }
{
    match event.kind {
        Kind::Invoke => event.moments.time,
        Kind::Ok | Kind::Fail | Kind::Info => None,
    }
}

fn fate_of(kind: Kind) -> Fate
    ensures { result ≡ fate_of kind }
{
    match kind {
        Kind::Invoke | Kind::Info => Fate::Open,
        Kind::Ok => Fate::Committed,
        Kind::Fail => Fate::Aborted,
    }
}

fn completed_at(kind: Kind, time: Option<u64>) -> Option<u64>
    ensures { result ≡ completed_at kind time }
{
    match kind {
        Kind::Ok => time,
        Kind::Invoke | Kind::Fail | Kind::Info => None,
    }
}

fn attempt_of(asked: Option<u64>, event: Event) -> Attempt
    ensures { result ≡ attempt_of asked event }
{
    Attempt {
        process: event.process,
        fate: fate_of(event.kind),
        line: event.line,
        times: Times {
            asked,
            began: event.moments.began,
            committing: event.moments.committing,
            completed: completed_at(event.kind, event.moments.time),
        },
        first: event.first,
        end: event.end,
    }
}
