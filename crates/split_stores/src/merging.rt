// The logs of all seats as one list, in the order of the ticks.
ghost use Rattle.std.specs.Prelude.{◌≡◌, ◌≤◌, ◌+◌, ◌*◌, ◌^◌, ◌++◌, [], All, IfOk, vec_len};
ghost use Rattle.std.specs.List.Sorted.{IsPermutation, IsNonDecreasingBy};
ghost use Rattle.tick_word.specs.Seats.{AreTicks};
ghost use Rattle.split_stores.specs.Logs.{risen_by, ticks_of};
ghost use Rattle.split_stores.specs.Merging.{logs_of, InTickOrder, drawn_by, parts_by, IsOf};
ghost use Rattle.split_stores.specs.declared.seat.Entry.{Entry as LoggedEntry};

use crate::seat::{ActorSeat, Entry};
use stamp_base::NoMemory;
use std::alloc::Global;
use tick_word::{TickHandle, TickWord};

/// The entries of all seats of the word in the order of their ticks. Each seat's log raises the base clock by less than 2^40.
pub(crate) fn merge(
    alloc: Global,
    word: TickWord,
    seats: Vec<ActorSeat>,
) -> Result<Vec<Entry>, NoMemory>
    requires of_word { All (λ s. s.word ≡ word.id) seats.items }
    requires all { vec_len seats ≡ word.seats }
    ensures order { IfOk result (λ merged. InTickOrder (logs_of seats.items) merged.items) }
    ensures risen { IfOk result (λ merged. risen_by merged.items ≤ vec_len seats * 2 ^ 40) }
{
    let mut entries = Vec::new(alloc);
    let whole = gather(&mut entries, &word, seats)?;
    ended(word, whole);
    by_tick(entries)
}

/// All entries, and one seat that has drawn all their ticks.
fn gather(
    entries: &mut Vec<Entry>,
    word: &TickWord,
    seats: Vec<ActorSeat>,
) -> Result<Option<TickHandle>, NoMemory>
    requires of_word { All (λ s. s.word ≡ word.now.id) seats.items }
    requires none { entries.old.items ≡ [] }
    ensures of_word { IfOk result (IsOf word.now.id) }
    ensures all { IfOk result (λ _. IsPermutation (logs_of seats.items) entries.new.items) }
    ensures parts { IfOk result (λ whole. parts_by whole ≡ vec_len seats) }
    ensures drawn { IfOk result (λ whole. drawn_by whole ≡ ticks_of entries.new.items) }
    ensures risen { IfOk result (λ _. risen_by entries.new.items ≤ vec_len seats * 2 ^ 40) }
{
    let mut whole = None;
    let mut seats = seats;
    while let Some(next) = seats.pop() {
        let ActorSeat {
            entries: mut log,
            seat,
            ..
        } = next;
        entries.append(&mut log)?;
        whole = Some(joined(word, whole, seat));
    }
    Ok(whole)
}

/// The entries in the order of their ticks.
fn by_tick(entries: Vec<Entry>) -> Result<Vec<Entry>, NoMemory>
    ensures all { IfOk result (λ merged. IsPermutation entries.items merged.items) }
    ensures order { IfOk result (λ merged. IsNonDecreasingBy (λ (e : LoggedEntry). e.tick) merged.items) }
{
    let mut entries = entries;
    entries.sort_by_key(|entry| entry.tick)?;
    Ok(entries)
}

/// The last tick. All up to it were drawn.
fn ended(word: TickWord, whole: Option<TickHandle>) -> u64
    requires of_word { IsOf word.id whole }
    requires all { parts_by whole ≡ word.seats }
    ensures { AreTicks result (drawn_by whole) }
{
    match whole {
        Some(whole) => word.close(whole),
        None => 0,
    }
}

/// The seat with what was joined so far.
fn joined(word: &TickWord, whole: Option<TickHandle>, seat: TickHandle) -> TickHandle
    requires whole { IsOf word.now.id whole }
    requires seat { seat.word ≡ word.now.id }
    ensures word { result.word ≡ word.now.id }
    ensures parts { result.parts ≡ parts_by whole + seat.parts }
    ensures drawn { result.drawn ≡ drawn_by whole ++ seat.drawn }
{
    match whole {
        Some(whole) => word.join(whole, seat),
        None => seat,
    }
}
