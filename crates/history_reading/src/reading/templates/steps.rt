// The template of a session's step on the stores, behind the first letter of its line, and those of the steps' words.
ghost use Rattle.std.specs.Prelude.{◌≡◌};
ghost use Rattle.history_reading.specs.Templates.{fetch_line, mark_line, entry_line, get_line, seen_line, look_line, shadow_line, remove_line, what_line, step_line};

use super::exact::{exact_cell, exact_end, exact_field};
use crate::reading::words::{after, is_word, key_of, session_of, stamp_of};
use history_book::{Actor, Item, Seen, StoreStep};
use stamp_base::Mark;

/// The step of a session whose line the bytes end, after its first letter. None for another line.
#[inline(never)]
#[tactic(auto, unfolding(crate::specs::Templates::step_line))]
pub fn step(bytes: &[u8]) -> Option<Item>
    ensures { result ≡ step_line bytes.now }
{
    let (session, rest) = exact_field(b"tep s", bytes)?;
    let rest = after(b" ", rest)?;
    let what = what(rest)?;
    let session = session_of(session)?;
    Some(Item::Step {
        actor: Actor::Session(session),
        what,
    })
}

/// The step, by the first letter of its word.
#[tactic(auto, unfolding(crate::specs::Templates::what_line))]
fn what(bytes: &[u8]) -> Option<StoreStep>
    ensures { result ≡ what_line bytes.now }
{
    match bytes {
        [b'f', rest @ ..] => fetch(rest),
        [b'g', rest @ ..] => get(rest),
        [b'l', rest @ ..] => look(rest),
        [b's', rest @ ..] => shadow(rest),
        [b'r', rest @ ..] => remove(rest),
        _ => None,
    }
}

#[tactic(auto, unfolding(crate::specs::Templates::fetch_line))]
fn fetch(bytes: &[u8]) -> Option<StoreStep>
    ensures { result ≡ fetch_line bytes.now }
{
    let (key, rest) = exact_field(b"etch k", bytes)?;
    let cells = exact_end(b" cells=", rest)?;
    let key = key_of(key)?;
    Some(StoreStep::Fetch { key, cells })
}

#[tactic(auto, unfolding(crate::specs::Templates::get_line))]
fn get(bytes: &[u8]) -> Option<StoreStep>
    ensures { result ≡ get_line bytes.now }
{
    let (txn, rest) = exact_field(b"et ", bytes)?;
    let rest = after(b" ", rest)?;
    let answer = entry(rest)?;
    let txn = stamp_of(txn)?;
    Some(StoreStep::Get { txn, answer })
}

/// The entry that a transaction has in the commit table.
#[tactic(auto, unfolding(crate::specs::Templates::entry_line))]
fn entry(bytes: &[u8]) -> Option<Option<Mark>>
    ensures { result ≡ entry_line bytes.now }
{
    if is_word(bytes, b"absent") {
        return Some(None);
    }
    let mark = mark(bytes)?;
    Some(Some(mark))
}

#[tactic(auto, unfolding(crate::specs::Templates::mark_line))]
fn mark(bytes: &[u8]) -> Option<Mark>
    ensures { result ≡ mark_line bytes.now }
{
    let commit = exact_end(b"committed=", bytes)?;
    let commit = stamp_of(commit)?;
    Some(Mark::Committed(commit))
}

#[tactic(auto, unfolding(crate::specs::Templates::look_line))]
fn look(bytes: &[u8]) -> Option<StoreStep>
    ensures { result ≡ look_line bytes.now }
{
    let (key, txn, rest) = exact_cell(b"ook k", bytes)?;
    let rest = after(b" ", rest)?;
    let answer = seen(rest)?;
    let key = key_of(key)?;
    let txn = stamp_of(txn)?;
    Some(StoreStep::Look { key, txn, answer })
}

/// What a look saw.
#[tactic(auto, unfolding(crate::specs::Templates::seen_line))]
fn seen(bytes: &[u8]) -> Option<Seen>
    ensures { result ≡ seen_line bytes.now }
{
    if is_word(bytes, b"none") {
        return Some(Seen::Bare);
    }
    let commit = exact_end(b"commit=", bytes)?;
    let commit = stamp_of(commit)?;
    Some(Seen::Commit(commit))
}

#[tactic(auto, unfolding(crate::specs::Templates::shadow_line))]
fn shadow(bytes: &[u8]) -> Option<StoreStep>
    ensures { result ≡ shadow_line bytes.now }
{
    let (key, txn, rest) = exact_cell(b"hadow k", bytes)?;
    let commit = exact_end(b" ", rest)?;
    let key = key_of(key)?;
    let txn = stamp_of(txn)?;
    let commit = stamp_of(commit)?;
    Some(StoreStep::Shadow { key, txn, commit })
}

#[tactic(auto, unfolding(crate::specs::Templates::remove_line))]
fn remove(bytes: &[u8]) -> Option<StoreStep>
    ensures { result ≡ remove_line bytes.now }
{
    let txn = exact_end(b"emove ", bytes)?;
    let txn = stamp_of(txn)?;
    Some(StoreStep::Remove { txn })
}
