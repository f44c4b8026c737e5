// The templates of requests and of what becomes of them, each behind the first letter of its line.
ghost use Rattle.std.specs.Prelude.{◌≡◌};
ghost use Rattle.history_reading.specs.Templates.{request_line, ask_begin_line, ask_commit_line, accept_line, commit_line, draw_line, placed_line};

use super::exact::{alone, exact_asked, exact_end, exact_field};
use crate::reading::words::{node_of, session_of, stamp_of, term_of};
use history_book::Item;
use stamp_base::Stamp;

/// What a session asked, or a node accepted, whose line the bytes end, after its first letter. None for another line.
#[tactic(auto, unfolding(crate::specs::Templates::request_line))]
pub fn request(bytes: &[u8]) -> Option<Item>
    ensures { result ≡ request_line bytes.now }
{
    if let Some(item) = accept(bytes) {
        return Some(item);
    }
    if let Some(item) = ask_begin(bytes) {
        return Some(item);
    }
    ask_commit(bytes)
}

#[inline(never)]
#[tactic(auto, unfolding(crate::specs::Templates::ask_begin_line))]
fn ask_begin(bytes: &[u8]) -> Option<Item>
    ensures { result ≡ ask_begin_line bytes.now }
{
    let (session, node, rest) = exact_asked(b"sk-begin s", bytes)?;
    let node = alone(node, rest)?;
    let session = session_of(session)?;
    let node = node_of(node)?;
    Some(Item::AskBegin { session, node })
}

#[inline(never)]
#[tactic(auto, unfolding(crate::specs::Templates::ask_commit_line))]
fn ask_commit(bytes: &[u8]) -> Option<Item>
    ensures { result ≡ ask_commit_line bytes.now }
{
    let (session, node, rest) = exact_asked(b"sk-commit s", bytes)?;
    let start = exact_end(b" start=", rest)?;
    let session = session_of(session)?;
    let node = node_of(node)?;
    let start = stamp_of(start)?;
    Some(Item::AskCommit {
        session,
        node,
        start,
    })
}

#[inline(never)]
#[tactic(auto, unfolding(crate::specs::Templates::accept_line))]
fn accept(bytes: &[u8]) -> Option<Item>
    ensures { result ≡ accept_line bytes.now }
{
    let (session, node, rest) = exact_asked(b"ccept s", bytes)?;
    let (term, rest) = exact_field(b" term=", rest)?;
    let reading = exact_end(b" reading=", rest)?;
    let session = session_of(session)?;
    let node = node_of(node)?;
    let term = term_of(term)?;
    Some(Item::Accept {
        session,
        node,
        term,
        reading,
    })
}

/// The commit of a draw: a begin draws none.
#[tactic(auto, unfolding(crate::specs::Templates::commit_line))]
fn commit(bytes: &[u8]) -> Option<Option<Stamp>>
    ensures { result ≡ commit_line bytes.now }
{
    if bytes.is_empty() {
        return Some(None);
    }
    let commit = exact_end(b" commit=", bytes)?;
    let commit = stamp_of(commit)?;
    Some(Some(commit))
}

/// The draw whose line the bytes end, after its first letter. None for another line.
#[inline(never)]
#[tactic(auto, unfolding(crate::specs::Templates::draw_line))]
pub fn draw(bytes: &[u8]) -> Option<Item>
    ensures { result ≡ draw_line bytes.now }
{
    let (session, node, rest) = exact_asked(b"raw s", bytes)?;
    let (term, rest) = exact_field(b" term=", rest)?;
    let (start, rest) = exact_field(b" start=", rest)?;
    let commit = commit(rest)?;
    let session = session_of(session)?;
    let node = node_of(node)?;
    let term = term_of(term)?;
    let start = stamp_of(start)?;
    Some(Item::Draw {
        session,
        node,
        term,
        start,
        commit,
    })
}

/// The placed commit whose line the bytes end, after its first letter. None for another line.
#[inline(never)]
#[tactic(auto, unfolding(crate::specs::Templates::placed_line))]
pub fn placed(bytes: &[u8]) -> Option<Item>
    ensures { result ≡ placed_line bytes.now }
{
    let (start, rest) = exact_field(b"laced start=", bytes)?;
    let commit = exact_end(b" commit=", rest)?;
    let start = stamp_of(start)?;
    let commit = stamp_of(commit)?;
    Some(Item::Placed { start, commit })
}
