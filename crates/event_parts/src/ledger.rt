// How an event tells what it did: its items in the book, in room that was made for them.
ghost use Rattle.std.specs.Prelude.{◌≡◌, ◌+◌, ◌≤◌, ◌++◌, ◌∷◌, [], length, Err, if◌then◌else◌};
ghost use Rattle.system_parts.specs.StoreCalls.{AsksOnce};
ghost use Rattle.system_parts.specs.KeyRead.{ReadTurn, next_of};
ghost use Rattle.machine.specs.Effect as effect;
ghost use Rattle.machine.specs.Events.Fetch.{read_items, found_of as found_item_of};
ghost use Rattle.event_parts.specs.Made.{Makes, no_parts};
ghost use Rattle.event_parts.specs.Kept.{made_items, placed_kept};

use crate::Stopped;
use history_book::{Actor, Book, Cause, Found, Item};
use port_io::{Fate, Weather};
use reader_resolve::Next;
use stamp_base::{KeyNo, Mark, SessionNo, Stamp, Store, TxnId, Value};

/// The actor is told why the event is refused, which changes nothing else. Always an error: Refused, or NoMemory where the book
/// has no room.
pub fn refuse(book: &mut Book, actor: Actor, cause: Cause) -> Result<(), Stopped>
    ensures made { Makes (effect.refused no_parts actor cause) no_parts no_parts book.old.items book.new.items result }
    ensures spare { book.new.spare ≡ book.old.spare }
{
    let told = cause;
    book.append(Item::Refused { actor, cause: told })?;
    Err(Stopped::Refused(cause))
}

/// The actor is told why the event is refused, in room that was made. Always the error Refused.
pub fn tell(book: &mut Book, actor: Actor, cause: Cause) -> Result<(), Stopped>
    requires { 1 ≤ book.old.room }
    ensures items { book.new.items ≡ book.old.items ++ Item.Refused actor cause ∷ [] }
    ensures spare { book.new.spare ≡ book.old.spare }
    ensures answer { result ≡ Err (Stopped.Refused cause) }
{
    let told = cause;
    book.append_in_room(Item::Refused { actor, cause: told });
    Err(Stopped::Refused(cause))
}

/// The actor is told why its accepted request is refused, in room that was reserved for it. Always the error Refused.
pub fn tell_reserved(book: &mut Book, actor: Actor, cause: Cause) -> Result<(), Stopped>
    requires { 1 ≤ book.old.spare }
    ensures items { book.new.items ≡ book.old.items ++ Item.Refused actor cause ∷ [] }
    ensures spare { book.new.spare + length book.new.items ≡ book.old.spare + length book.old.items }
    ensures answer { result ≡ Err (Stopped.Refused cause) }
{
    let told = cause;
    book.append_reserved(Item::Refused { actor, cause: told });
    Err(Stopped::Refused(cause))
}

/// A refusal that an accepted request is told once: where it was told before, nothing is appended. Always the error Refused.
pub fn tell_once(book: &mut Book, told: bool, actor: Actor, cause: Cause) -> Result<(), Stopped>
    requires { 1 ≤ book.old.spare }
    ensures items { book.new.items ≡ book.old.items ++ (if told then [] else Item.Refused actor cause ∷ []) }
    ensures spare { book.new.spare + length book.new.items ≡ book.old.spare + length book.old.items }
    ensures answer { result ≡ Err (Stopped.Refused cause) }
{
    if told {
        return Err(Stopped::Refused(cause));
    }
    tell_reserved(book, actor, cause)
}

/// The actor's call on the store failed. The change that it made all the same stands before the fault. Always the error StoreFault.
pub fn fail(book: &mut Book, actor: Actor, store: Store, made: Option<Item>) -> Result<(), Stopped>
    requires { 2 ≤ book.old.room }
    ensures items { book.new.items ≡ book.old.items ++ made_items made ++ Item.Fault actor store ∷ [] }
    ensures room { book.old.room ≤ book.new.room + 2 }
    ensures spare { book.new.spare ≡ book.old.spare }
    ensures answer { result ≡ Err (Stopped.StoreFault store) }
{
    if let Some(item) = made {
        book.append_in_room(item);
    }
    book.append_in_room(Item::Fault { actor, store });
    Err(Stopped::StoreFault(store))
}

/// The call that places a commit failed. The commit stands before the fault where it was placed all the same, both in room that
/// was reserved for it. Always the error StoreFault.
pub fn fail_reserved(
    book: &mut Book,
    actor: Actor,
    store: Store,
    made: Option<Item>,
) -> Result<(), Stopped>
    requires { 2 ≤ book.old.spare }
    ensures items { book.new.items ≡ book.old.items ++ made_items made ++ Item.Fault actor store ∷ [] }
    ensures spare { book.new.spare + length book.new.items ≡ book.old.spare + length book.old.items }
    ensures answer { result ≡ Err (Stopped.StoreFault store) }
{
    if let Some(item) = made {
        book.append_reserved(item);
    }
    book.append_reserved(Item::Fault { actor, store });
    Err(Stopped::StoreFault(store))
}

/// What a failed placing made all the same, by the entries that the commit table had for the transaction before the call and
/// has now.
pub fn placed_item(
    before: Option<Mark>,
    now: Option<Mark>,
    start: Stamp,
    commit: Stamp,
) -> Option<Item>
    ensures { made_items result ≡ placed_kept before now start commit }
{
    match (before, now) {
        (None, Some(_)) => Some(Item::Placed { start, commit }),
        _ => None,
    }
}

/// A read that has its answer is told.
pub fn tell_read(book: &mut Book, session: SessionNo, start: Stamp, key: KeyNo, next: &Next)
    requires { 1 ≤ book.old.room }
    ensures items { (turn : ReadTurn) → next.now ≡ next_of turn → book.new.items ≡ book.old.items ++ read_items session start key turn }
    ensures spare { book.new.spare ≡ book.old.spare }
{
    if let Next::Done(answer) = next {
        book.append_in_room(Item::Read {
            session,
            start,
            key,
            answer: found_of(&answer.found),
        });
    }
}

fn found_of(found: &Option<(TxnId, Value)>) -> Option<Found>
    ensures { result ≡ found_item_of found.now }
{
    match found {
        Some((from, value)) => Some(Found {
            from: *from,
            value: *value,
        }),
        None => None,
    }
}

/// The fate of the one call that an event makes on the store.
pub fn fate_of<W: Weather>(weather: &mut W, store: Store) -> Fate
    ensures fate { result ≡ W.ahead weather.old store 0 }
    ensures asked { AsksOnce store (W.ahead weather.old) (W.ahead weather.new) (W.faults weather.old) (W.faults weather.new) }
{
    weather.next(store)
}
