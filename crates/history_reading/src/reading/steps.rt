// The steps on the stores, as reading finds them.
ghost use Rattle.std.specs.Prelude.{◌≡◌};
ghost use Rattle.history_reading.specs.ReadSteps.{step_at, cell_step_at, table_step_at, fetch_at, get_at, mark_found_at, look_at, shadow_at, erase_at, keys_at, put_found_at, handed_at, entry_at, mark_at, seen_at};

use super::words::{after, is_word, key_of, last_stamp, number, split_word, stamp_of, two_fields};
use history_book::{Seen, StoreStep};
use stamp_base::Mark;

/// A step on the stores.
pub fn step(bytes: &[u8]) -> Option<StoreStep>
    ensures { result ≡ step_at bytes.now }
{
    let (word, rest) = split_word(bytes);
    match cell_step(word, rest) {
        Some(step) => Some(step),
        None => table_step(word, rest),
    }
}

/// The steps on the cells of a key.
#[tactic(auto, unfolding(crate::specs::ReadSteps::cell_step_at))]
fn cell_step(word: &[u8], bytes: &[u8]) -> Option<StoreStep>
    ensures { result ≡ cell_step_at word.now bytes.now }
{
    if is_word(word, b"fetch") {
        return fetch(bytes);
    }
    if is_word(word, b"look") {
        return look(bytes);
    }
    if is_word(word, b"shadow") {
        return shadow(bytes);
    }
    if is_word(word, b"erase") {
        return erase(bytes);
    }
    None
}

/// The steps on a transaction.
#[tactic(auto, unfolding(crate::specs::ReadSteps::table_step_at))]
fn table_step(word: &[u8], bytes: &[u8]) -> Option<StoreStep>
    ensures { result ≡ table_step_at word.now bytes.now }
{
    if is_word(word, b"get") {
        return get(bytes);
    }
    if is_word(word, b"mark") {
        return mark_found(bytes);
    }
    if is_word(word, b"remove") {
        let txn = last_stamp(b"", bytes)?;
        return Some(StoreStep::Remove { txn });
    }
    if is_word(word, b"keys") {
        return keys(bytes);
    }
    if is_word(word, b"put") {
        return put_found(bytes);
    }
    if is_word(word, b"handed") {
        return handed(bytes);
    }
    None
}

#[tactic(auto, unfolding(crate::specs::ReadSteps::fetch_at))]
fn fetch(bytes: &[u8]) -> Option<StoreStep>
    ensures { result ≡ fetch_at bytes.now }
{
    let (key, cells, _) = two_fields(b"k", b" cells=", bytes)?;
    let key = key_of(key)?;
    Some(StoreStep::Fetch { key, cells })
}

#[tactic(auto, unfolding(crate::specs::ReadSteps::get_at))]
fn get(bytes: &[u8]) -> Option<StoreStep>
    ensures { result ≡ get_at bytes.now }
{
    let (txn, rest) = number(bytes);
    let rest = after(b" ", rest)?;
    let answer = entry(rest)?;
    let txn = stamp_of(txn)?;
    Some(StoreStep::Get { txn, answer })
}

#[tactic(auto, unfolding(crate::specs::ReadSteps::mark_found_at))]
fn mark_found(bytes: &[u8]) -> Option<StoreStep>
    ensures { result ≡ mark_found_at bytes.now }
{
    let (txn, rest) = number(bytes);
    let rest = after(b" ", rest)?;
    let mark = mark(rest)?;
    let txn = stamp_of(txn)?;
    Some(StoreStep::MarkFound { txn, mark })
}

#[tactic(auto, unfolding(crate::specs::ReadSteps::look_at))]
fn look(bytes: &[u8]) -> Option<StoreStep>
    ensures { result ≡ look_at bytes.now }
{
    let (key, txn, rest) = two_fields(b"k", b" ", bytes)?;
    let rest = after(b" ", rest)?;
    let answer = seen(rest)?;
    let key = key_of(key)?;
    let txn = stamp_of(txn)?;
    Some(StoreStep::Look { key, txn, answer })
}

#[tactic(auto, unfolding(crate::specs::ReadSteps::shadow_at))]
fn shadow(bytes: &[u8]) -> Option<StoreStep>
    ensures { result ≡ shadow_at bytes.now }
{
    let (key, txn, rest) = two_fields(b"k", b" ", bytes)?;
    let commit = last_stamp(b" ", rest)?;
    let key = key_of(key)?;
    let txn = stamp_of(txn)?;
    Some(StoreStep::Shadow { key, txn, commit })
}

#[tactic(auto, unfolding(crate::specs::ReadSteps::erase_at))]
fn erase(bytes: &[u8]) -> Option<StoreStep>
    ensures { result ≡ erase_at bytes.now }
{
    let (key, txn, _) = two_fields(b"k", b" ", bytes)?;
    let key = key_of(key)?;
    let txn = stamp_of(txn)?;
    Some(StoreStep::Erase { key, txn })
}

#[tactic(auto, unfolding(crate::specs::ReadSteps::keys_at))]
fn keys(bytes: &[u8]) -> Option<StoreStep>
    ensures { result ≡ keys_at bytes.now }
{
    let (txn, count, _) = two_fields(b"", b" count=", bytes)?;
    let txn = stamp_of(txn)?;
    Some(StoreStep::Keys { txn, count })
}

#[tactic(auto, unfolding(crate::specs::ReadSteps::put_found_at))]
fn put_found(bytes: &[u8]) -> Option<StoreStep>
    ensures { result ≡ put_found_at bytes.now }
{
    let (txn, _) = number(bytes);
    let txn = stamp_of(txn)?;
    Some(StoreStep::PutFound { txn })
}

#[tactic(auto, unfolding(crate::specs::ReadSteps::handed_at))]
fn handed(bytes: &[u8]) -> Option<StoreStep>
    ensures { result ≡ handed_at bytes.now }
{
    let (txn, commit, _) = two_fields(b"", b" ", bytes)?;
    let txn = stamp_of(txn)?;
    let commit = stamp_of(commit)?;
    Some(StoreStep::Handed { txn, commit })
}

#[tactic(auto, unfolding(crate::specs::ReadSteps::entry_at))]
fn entry(bytes: &[u8]) -> Option<Option<Mark>>
    ensures { result ≡ entry_at bytes.now }
{
    if is_word(bytes, b"absent") {
        return Some(None);
    }
    let mark = mark(bytes)?;
    Some(Some(mark))
}

#[tactic(auto, unfolding(crate::specs::ReadSteps::mark_at))]
fn mark(bytes: &[u8]) -> Option<Mark>
    ensures { result ≡ mark_at bytes.now }
{
    if is_word(bytes, b"invalid") {
        return Some(Mark::Invalid);
    }
    let commit = last_stamp(b"committed=", bytes)?;
    Some(Mark::Committed(commit))
}

#[tactic(auto, unfolding(crate::specs::ReadSteps::seen_at))]
fn seen(bytes: &[u8]) -> Option<Seen>
    ensures { result ≡ seen_at bytes.now }
{
    if is_word(bytes, b"none") {
        return Some(Seen::Bare);
    }
    if is_word(bytes, b"gone") {
        return Some(Seen::Gone);
    }
    let commit = last_stamp(b"commit=", bytes)?;
    Some(Seen::Commit(commit))
}
