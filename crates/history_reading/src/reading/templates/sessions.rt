// The templates of what a session does, each behind the first letter of its line.
ghost use Rattle.std.specs.Prelude.{◌≡◌};
ghost use Rattle.history_reading.specs.Templates.{begin_line, committed_line, write_line, answer_line, found_line, read_line};

use super::exact::{exact_end, exact_field, exact_started};
use crate::reading::words::{after, is_word, key_of, session_of, stamp_of, value};
use history_book::{Found, Item};

/// The begin whose line the bytes end, after its first letter. None for another line.
#[inline(never)]
#[tactic(auto, unfolding(crate::specs::Templates::begin_line))]
pub fn begin(bytes: &[u8]) -> Option<Item>
    ensures { result ≡ begin_line bytes.now }
{
    let (session, rest) = exact_field(b"egin s", bytes)?;
    let start = exact_end(b" start=", rest)?;
    let session = session_of(session)?;
    let start = stamp_of(start)?;
    Some(Item::Begin { session, start })
}

/// The commit that was answered, whose line the bytes end, after its first letter. None for another line.
#[inline(never)]
#[tactic(auto, unfolding(crate::specs::Templates::committed_line))]
pub fn committed(bytes: &[u8]) -> Option<Item>
    ensures { result ≡ committed_line bytes.now }
{
    let (session, start, rest) = exact_started(b"ommitted s", bytes)?;
    let commit = exact_end(b" commit=", rest)?;
    let session = session_of(session)?;
    let start = stamp_of(start)?;
    let commit = stamp_of(commit)?;
    Some(Item::Committed {
        session,
        start,
        commit,
    })
}

/// The write whose line the bytes end, after its first letter. None for another line.
#[inline(never)]
#[tactic(auto, unfolding(crate::specs::Templates::write_line))]
pub fn write(bytes: &[u8]) -> Option<Item>
    ensures { result ≡ write_line bytes.now }
{
    let (session, start, rest) = exact_started(b"rite s", bytes)?;
    let (key, rest) = exact_field(b" k", rest)?;
    let rest = after(b" ", rest)?;
    let value = value(rest)?;
    let session = session_of(session)?;
    let start = stamp_of(start)?;
    let key = key_of(key)?;
    Some(Item::Write {
        session,
        start,
        key,
        value,
    })
}

/// The read, of a version or of nothing, whose line the bytes end, after its first letter. None for another line.
#[inline(never)]
#[tactic(auto, unfolding(crate::specs::Templates::read_line))]
pub fn read(bytes: &[u8]) -> Option<Item>
    ensures { result ≡ read_line bytes.now }
{
    let (session, start, rest) = exact_started(b"ead s", bytes)?;
    let (key, rest) = exact_field(b" k", rest)?;
    let rest = after(b" ", rest)?;
    let answer = answer(rest)?;
    let session = session_of(session)?;
    let start = stamp_of(start)?;
    let key = key_of(key)?;
    Some(Item::Read {
        session,
        start,
        key,
        answer,
    })
}

/// What a read found.
#[tactic(auto, unfolding(crate::specs::Templates::answer_line))]
fn answer(bytes: &[u8]) -> Option<Option<Found>>
    ensures { result ≡ answer_line bytes.now }
{
    if is_word(bytes, b"none") {
        return Some(None);
    }
    found(bytes)
}

#[tactic(auto, unfolding(crate::specs::Templates::found_line))]
fn found(bytes: &[u8]) -> Option<Option<Found>>
    ensures { result ≡ found_line bytes.now }
{
    let (from, rest) = exact_field(b"from=", bytes)?;
    let rest = after(b" ", rest)?;
    let value = value(rest)?;
    let from = stamp_of(from)?;
    Some(Some(Found { from, value }))
}
