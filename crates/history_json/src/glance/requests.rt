// What requests go through, behind its first member.
use super::nodes::named;
use history_book::Item;
use history_reading::{field, node_of, session_of, stamp_of, term_of};
use stamp_base::Stamp;

/// An item `ask-begin` of the bytes behind its kind. None where they are not such members, in this order.
pub fn ask_begin(bytes: &[u8]) -> Option<Item> {
    let (node, session, _) = asked(bytes)?;
    let session = session_of(session)?;
    let node = node_of(node)?;
    Some(Item::AskBegin { session, node })
}

/// An item `ask-commit` of the bytes behind its kind. None where they are not such members, in this order.
pub fn ask_commit(bytes: &[u8]) -> Option<Item> {
    let (node, session, rest) = asked(bytes)?;
    let (start, _) = field(b"\",\"start\":", rest)?;
    let session = session_of(session)?;
    let node = node_of(node)?;
    let start = stamp_of(start)?;
    Some(Item::AskCommit {
        session,
        node,
        start,
    })
}

/// An item `accept` of the bytes behind its kind. None where they are not such members, in this order.
pub fn accept(bytes: &[u8]) -> Option<Item> {
    let (node, rest) = named(bytes)?;
    let (reading, rest) = field(b"\",\"reading\":", rest)?;
    let (session, rest) = field(b",\"session\":\"s", rest)?;
    let (term, _) = field(b"\",\"term\":", rest)?;
    let session = session_of(session)?;
    let node = node_of(node)?;
    let term = term_of(term)?;
    Some(Item::Accept {
        session,
        node,
        term,
        reading,
    })
}

/// An item `draw` of a begin, of the bytes behind its kind. None where they are not such members, in this order.
pub fn begin_draw(bytes: &[u8]) -> Option<Item> {
    drawn(None, bytes)
}

/// An item `draw` of this commit, of the bytes behind its kind. None where the number is no stamp, or they are not such members, in
/// this order.
pub fn commit_draw(commit: u64, bytes: &[u8]) -> Option<Item> {
    let commit = stamp_of(commit)?;
    drawn(Some(commit), bytes)
}

fn drawn(commit: Option<Stamp>, bytes: &[u8]) -> Option<Item> {
    let (node, session, rest) = asked(bytes)?;
    let (start, rest) = field(b"\",\"start\":", rest)?;
    let (term, _) = field(b",\"term\":", rest)?;
    let session = session_of(session)?;
    let node = node_of(node)?;
    let start = stamp_of(start)?;
    let term = term_of(term)?;
    Some(Item::Draw {
        session,
        node,
        term,
        start,
        commit,
    })
}

/// An item `placed` of this commit, of the bytes behind its kind. None where the number is no stamp, or they are not such members,
/// in this order.
pub fn placed(commit: u64, bytes: &[u8]) -> Option<Item> {
    let (start, _) = field(b",\"start\":", bytes)?;
    let start = stamp_of(start)?;
    let commit = stamp_of(commit)?;
    Some(Item::Placed { start, commit })
}

/// The numbers of a request's node and session, and the bytes after them.
fn asked(bytes: &[u8]) -> Option<(u64, u64, &[u8])> {
    let (node, rest) = named(bytes)?;
    let (session, rest) = field(b"\",\"session\":\"s", rest)?;
    Some((node, session, rest))
}
