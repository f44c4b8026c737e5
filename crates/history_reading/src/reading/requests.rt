// The items of requests, and of placed commits, as reading finds them.
ghost use Rattle.std.specs.Prelude.{◌≡◌};
ghost use Rattle.std.specs.Option.{option_map};
ghost use Rattle.history_reading.specs.ReadRequests.{request_kind_at, asked_at, ask_begin_at, ask_commit_at, accept_at, draw_at, placed_at, drawn_at, no_commit_at, commit_at};

use super::words::{
    after, field, is_word, last_stamp, letter, node_of, session_of, stamp_of, term_of, two_fields,
};
use history_book::Item;
use stamp_base::Stamp;

/// The items of requests.
#[tactic(auto, unfolding(crate::specs::ReadRequests::request_kind_at))]
pub fn request_kind(word: &[u8], bytes: &[u8]) -> Option<Item>
    ensures { result ≡ request_kind_at word.now bytes.now }
{
    if is_word(word, b"ask-begin") {
        return ask_begin(bytes);
    }
    if is_word(word, b"ask-commit") {
        return ask_commit(bytes);
    }
    if is_word(word, b"accept") {
        return accept(bytes);
    }
    if is_word(word, b"draw") {
        return draw(bytes);
    }
    if is_word(word, b"placed") {
        return placed(bytes);
    }
    None
}

#[tactic(auto, unfolding(crate::specs::ReadRequests::ask_begin_at))]
fn ask_begin(bytes: &[u8]) -> Option<Item>
    ensures { result ≡ ask_begin_at bytes.now }
{
    let (session, node, _) = asked(bytes)?;
    let session = session_of(session)?;
    let node = node_of(node)?;
    Some(Item::AskBegin { session, node })
}

#[tactic(auto, unfolding(crate::specs::ReadRequests::ask_commit_at))]
fn ask_commit(bytes: &[u8]) -> Option<Item>
    ensures { result ≡ ask_commit_at bytes.now }
{
    let (session, node, rest) = asked(bytes)?;
    let start = last_stamp(b" start=", rest)?;
    let session = session_of(session)?;
    let node = node_of(node)?;
    Some(Item::AskCommit {
        session,
        node,
        start,
    })
}

#[tactic(auto, unfolding(crate::specs::ReadRequests::accept_at))]
fn accept(bytes: &[u8]) -> Option<Item>
    ensures { result ≡ accept_at bytes.now }
{
    let (session, node, rest) = asked(bytes)?;
    let (term, reading, _) = two_fields(b" term=", b" reading=", rest)?;
    let session = session_of(session)?;
    let node = node_of(node)?;
    let term = term_of(term)?;
    Some(Item::Accept {
        session,
        node,
        term,
        reading,
    })
}

#[tactic(auto, unfolding(crate::specs::ReadRequests::draw_at))]
fn draw(bytes: &[u8]) -> Option<Item>
    ensures { result ≡ draw_at bytes.now }
{
    let (session, node, rest) = asked(bytes)?;
    let (term, start, rest) = two_fields(b" term=", b" start=", rest)?;
    let commit = drawn(rest)?;
    let session = session_of(session)?;
    let node = node_of(node)?;
    let term = term_of(term)?;
    let start = stamp_of(start)?;
    Some(Item::Draw {
        session,
        node,
        term,
        start,
        commit,
    })
}

#[tactic(auto, unfolding(crate::specs::ReadRequests::placed_at))]
fn placed(bytes: &[u8]) -> Option<Item>
    ensures { result ≡ placed_at bytes.now }
{
    let (start, commit, _) = two_fields(b"start=", b" commit=", bytes)?;
    let start = stamp_of(start)?;
    let commit = stamp_of(commit)?;
    Some(Item::Placed { start, commit })
}

/// The session and the node of a request, and the bytes after them.
#[tactic(auto, unfolding(crate::specs::ReadRequests::asked_at))]
fn asked(bytes: &[u8]) -> Option<(u64, u64, &[u8])>
    ensures { option_map (λ asked. (asked.0, asked.1, asked.2.now)) result ≡ asked_at bytes.now }
{
    let (session, rest) = field(b"s", bytes)?;
    let rest = after(b" ", rest)?;
    let (node, rest) = letter(rest)?;
    Some((session, node, rest))
}

/// The commit of a draw: a begin draws none.
fn drawn(bytes: &[u8]) -> Option<Option<Stamp>>
    ensures { result ≡ drawn_at bytes.now }
{
    match no_commit(bytes) {
        Some(commit) => Some(commit),
        None => commit(bytes),
    }
}

#[tactic(auto, unfolding(crate::specs::ReadRequests::no_commit_at))]
fn no_commit(bytes: &[u8]) -> Option<Option<Stamp>>
    ensures { result ≡ no_commit_at bytes.now }
{
    if bytes.is_empty() { Some(None) } else { None }
}

#[tactic(auto, unfolding(crate::specs::ReadRequests::commit_at))]
fn commit(bytes: &[u8]) -> Option<Option<Stamp>>
    ensures { result ≡ commit_at bytes.now }
{
    let commit = last_stamp(b" commit=", bytes)?;
    Some(Some(commit))
}
