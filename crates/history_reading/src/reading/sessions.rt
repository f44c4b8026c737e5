// The items of sessions, as reading finds them.
ghost use Rattle.std.specs.Prelude.{◌≡◌};
ghost use Rattle.history_reading.specs.ReadSessions.{session_kind_at, begin_at, write_at, read_at, committed_at, end_at, answer_at, no_answer_at, found_at, ending_at};

use super::words::{
    after, field, is_word, key_of, last_field, last_stamp, session_of, stamp_of, two_fields, value,
};
use history_book::{Ending, Found, Item};

/// The items of sessions.
#[tactic(auto, unfolding(crate::specs::ReadSessions::session_kind_at))]
pub fn session_kind(word: &[u8], bytes: &[u8]) -> Option<Item>
    ensures { result ≡ session_kind_at word.now bytes.now }
{
    if is_word(word, b"begin") {
        return begin(bytes);
    }
    if is_word(word, b"write") {
        return write(bytes);
    }
    if is_word(word, b"read") {
        return read(bytes);
    }
    if is_word(word, b"committed") {
        return committed(bytes);
    }
    if is_word(word, b"end") {
        return end(bytes);
    }
    if is_word(word, b"vanish") {
        let session = session_of(last_field(b"s", bytes)?)?;
        return Some(Item::Vanish { session });
    }
    None
}

#[tactic(auto, unfolding(crate::specs::ReadSessions::begin_at))]
fn begin(bytes: &[u8]) -> Option<Item>
    ensures { result ≡ begin_at bytes.now }
{
    let (session, start, _) = two_fields(b"s", b" start=", bytes)?;
    let session = session_of(session)?;
    let start = stamp_of(start)?;
    Some(Item::Begin { session, start })
}

#[tactic(auto, unfolding(crate::specs::ReadSessions::write_at))]
fn write(bytes: &[u8]) -> Option<Item>
    ensures { result ≡ write_at bytes.now }
{
    let (session, start, rest) = two_fields(b"s", b" start=", bytes)?;
    let (key, rest) = field(b" k", rest)?;
    let rest = after(b" ", rest)?;
    let value = value(rest)?;
    let session = session_of(session)?;
    let start = stamp_of(start)?;
    let key = key_of(key)?;
    Some(Item::Write {
        session,
        start,
        key,
        value,
    })
}

#[tactic(auto, unfolding(crate::specs::ReadSessions::read_at))]
fn read(bytes: &[u8]) -> Option<Item>
    ensures { result ≡ read_at bytes.now }
{
    let (session, start, rest) = two_fields(b"s", b" start=", bytes)?;
    let (key, rest) = field(b" k", rest)?;
    let rest = after(b" ", rest)?;
    let answer = answer(rest)?;
    let session = session_of(session)?;
    let start = stamp_of(start)?;
    let key = key_of(key)?;
    Some(Item::Read {
        session,
        start,
        key,
        answer,
    })
}

#[tactic(auto, unfolding(crate::specs::ReadSessions::committed_at))]
fn committed(bytes: &[u8]) -> Option<Item>
    ensures { result ≡ committed_at bytes.now }
{
    let (session, start, rest) = two_fields(b"s", b" start=", bytes)?;
    let commit = last_stamp(b" commit=", rest)?;
    let session = session_of(session)?;
    let start = stamp_of(start)?;
    Some(Item::Committed {
        session,
        start,
        commit,
    })
}

#[tactic(auto, unfolding(crate::specs::ReadSessions::end_at))]
fn end(bytes: &[u8]) -> Option<Item>
    ensures { result ≡ end_at bytes.now }
{
    let (session, start, rest) = two_fields(b"s", b" start=", bytes)?;
    let rest = after(b" ", rest)?;
    let how = ending(rest)?;
    let session = session_of(session)?;
    let start = stamp_of(start)?;
    Some(Item::End {
        session,
        start,
        how,
    })
}

/// What a read found.
fn answer(bytes: &[u8]) -> Option<Option<Found>>
    ensures { result ≡ answer_at bytes.now }
{
    match no_answer(bytes) {
        Some(answer) => Some(answer),
        None => found(bytes),
    }
}

#[tactic(auto, unfolding(crate::specs::ReadSessions::no_answer_at))]
fn no_answer(bytes: &[u8]) -> Option<Option<Found>>
    ensures { result ≡ no_answer_at bytes.now }
{
    if is_word(bytes, b"none") {
        Some(None)
    } else {
        None
    }
}

#[tactic(auto, unfolding(crate::specs::ReadSessions::found_at))]
fn found(bytes: &[u8]) -> Option<Option<Found>>
    ensures { result ≡ found_at bytes.now }
{
    let (from, rest) = field(b"from=", bytes)?;
    let rest = after(b" ", rest)?;
    let value = value(rest)?;
    let from = stamp_of(from)?;
    Some(Some(Found { from, value }))
}

/// How a transaction ended, by its word.
#[tactic(auto, unfolding(crate::specs::ReadSessions::ending_at))]
pub fn ending(bytes: &[u8]) -> Option<Ending>
    ensures { result ≡ ending_at bytes.now }
{
    if is_word(bytes, b"read-only") {
        return Some(Ending::ReadOnly);
    }
    if is_word(bytes, b"aborted") {
        return Some(Ending::Aborted);
    }
    if is_word(bytes, b"dead") {
        return Some(Ending::Dead);
    }
    None
}
