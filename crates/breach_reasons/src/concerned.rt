// Whom a finding concerns, and which items a picture of it shows.
ghost use Rattle.std.specs.Prelude.{◌≡◌, ◌-◌, ◌<◌, ◌≤◌, ◌∷◌, ◌++◌, ◌^◌, [], IfOk, IfSome, OnOk, Some, slice_get};
ghost use Rattle.breach_reasons.specs.Concerned.{ask_number, ask_of, asked, breach_items, concerned, given_by, ringed, starts_at, starts_of};

use crate::finding::Finding;
use history_book::{Found, Item};
use history_signs::{Chosen, choose_about};
use refusal_reasons::{Clue, seek};
use si_judge::Rule;
use stamp_base::{NoMemory, Stamp};
use std::alloc::Global;

/// The items of the transactions that the finding concerns, in order: those of its two items, and with a read the one that its
/// answer came from. Where a start is not above a commit, the ask for it too. None where nothing is broken. NoMemory where memory
/// is refused.
pub fn breach_items(alloc: Global, items: &[Item], found: &Finding) -> Result<Vec<Chosen>, NoMemory>
    ensures { IfOk result (λ chosen. chosen.items ≡ breach_items items.now found.now) }
{
    let starts = concerned(alloc, items, found)?;
    let mut numbers = ringed(alloc, found)?;
    add_asked(&mut numbers, items, found)?;
    choose_about(alloc, items, &starts, &numbers)
}

/// The numbers of the two items of the finding, counted from 1. NoMemory where memory is refused.
pub fn ringed(alloc: Global, found: &Finding) -> Result<Vec<u64>, NoMemory>
    ensures { IfOk result (λ numbers. numbers.items ≡ ringed found.now) }
{
    let mut numbers = Vec::new(alloc);
    match found {
        Finding::Sound => {}
        Finding::Broken { first, second, .. } => {
            numbers.extend_from_slice(&[*first as u64, *second as u64])?
        }
        Finding::Crossed { read, placed } => {
            numbers.extend_from_slice(&[*read as u64, *placed as u64])?
        }
    }
    Ok(numbers)
}

/// The starts of the transactions concerned.
fn concerned(alloc: Global, items: &[Item], found: &Finding) -> Result<Vec<Stamp>, NoMemory>
    ensures { IfOk result (λ starts. starts.items ≡ concerned items.now found.now) }
{
    match found {
        Finding::Sound => Ok(Vec::new(alloc)),
        Finding::Broken { first, second, .. } => starts_at(alloc, items, *first, *second),
        Finding::Crossed { read, placed } => starts_at(alloc, items, *read, *placed),
    }
}

fn starts_at(
    alloc: Global,
    items: &[Item],
    first: usize,
    second: usize,
) -> Result<Vec<Stamp>, NoMemory>
    ensures { IfOk result (λ starts. starts.items ≡ starts_at items.now first second) }
{
    let mut starts = Vec::new(alloc);
    add_starts(&mut starts, items, first.saturating_sub(1))?;
    add_starts(&mut starts, items, second.saturating_sub(1))?;
    Ok(starts)
}

fn add_starts(starts: &mut Vec<Stamp>, items: &[Item], place: usize) -> Result<(), NoMemory>
    ensures { OnOk result (starts.new.items ≡ starts.old.items ++ starts_of (slice_get items.now place)) }
{
    match items.get(place) {
        Some(item) => add_starts_of(starts, item),
        None => Ok(()),
    }
}

fn add_starts_of(starts: &mut Vec<Stamp>, item: &Item) -> Result<(), NoMemory>
    ensures { OnOk result (starts.new.items ≡ starts.old.items ++ starts_of (Some item.now)) }
{
    match item {
        Item::Begin { start, .. } | Item::Write { start, .. } | Item::Placed { start, .. } => {
            add_start(starts, *start)
        }
        Item::Read { start, answer, .. } => add_given(starts, *start, answer),
        _ => Ok(()),
    }
}

fn add_start(starts: &mut Vec<Stamp>, start: Stamp) -> Result<(), NoMemory>
    ensures { OnOk result (starts.new.items ≡ starts.old.items ++ start ∷ []) }
{
    starts.extend_from_slice(&[start])?;
    Ok(())
}

fn add_given(starts: &mut Vec<Stamp>, start: Stamp, answer: &Option<Found>) -> Result<(), NoMemory>
    ensures { OnOk result (starts.new.items ≡ starts.old.items ++ given_by start answer.now) }
{
    match answer {
        Some(found) => {
            starts.extend_from_slice(&[start, found.from])?;
            Ok(())
        }
        None => add_start(starts, start),
    }
}

/// Adds the number of the ask, where a start is not above a commit.
fn add_asked(numbers: &mut Vec<u64>, items: &[Item], found: &Finding) -> Result<(), NoMemory>
    ensures { OnOk result (numbers.new.items ≡ numbers.old.items ++ asked items.now found.now) }
{
    match found {
        Finding::Broken {
            rule: Rule::Fresh,
            second,
            ..
        } => add_ask(numbers, items, second.saturating_sub(1)),
        _ => Ok(()),
    }
}

fn add_ask(numbers: &mut Vec<u64>, items: &[Item], place: usize) -> Result<(), NoMemory>
    ensures { OnOk result (numbers.new.items ≡ numbers.old.items ++ ask_of items.now place (slice_get items.now place)) }
{
    match items.get(place) {
        Some(Item::Begin { session, .. }) => {
            let session = *session;
            let ask = seek(&items[..place], 0, &Clue::AskedStart { session });
            add_number(numbers, ask)
        }
        _ => Ok(()),
    }
}

fn add_number(numbers: &mut Vec<u64>, place: Option<usize>) -> Result<(), NoMemory>
    requires { IfSome place (λ place. place < 2 ^ 63) }
    ensures { OnOk result (numbers.new.items ≡ numbers.old.items ++ ask_number place) }
{
    if let Some(place) = place {
        numbers.extend_from_slice(&[place as u64 + 1])?;
    }
    Ok(())
}
