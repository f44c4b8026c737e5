// A line that is written as histories are printed, taken apart at a glance. What it finds decides nothing: its own line does. It
// takes no memory.

mod actors;
mod nodes;
mod requests;
mod sessions;

use actors::of_actor;
use history_book::Item;
use history_reading::{after, field, is_word};
use nodes::{crash, of_ceiling, renew, tick};
use requests::{accept, ask_begin, ask_commit, begin_draw, commit_draw, placed};
use sessions::{begin, committed, end, of_key, read_some, vanish};

/// An item that the line may be, by the first of its members.
pub fn glance(line: &[u8]) -> Option<Item> {
    match line {
        [b'{', b'"', b'k', b'i', rest @ ..] => of_kind(after(b"nd\":\"", rest)?),
        [b'{', b'"', b'k', rest @ ..] => of_key(after(b"ey\":\"k", rest)?),
        [b'{', b'"', b'a', rest @ ..] => of_actor(after(b"ctor\":\"", rest)?),
        [b'{', b'"', b'c', b'o', rest @ ..] => of_commit(rest),
        [b'{', b'"', b'f', rest @ ..] => read_some(rest),
        [b'{', b'"', b'h', rest @ ..] => end(rest),
        [b'{', b'"', b'c', rest @ ..] => of_ceiling(rest),
        _ => None,
    }
}

/// The items whose first member is their kind.
fn of_kind(bytes: &[u8]) -> Option<Item> {
    let (kind, rest) = quoted(bytes)?;
    if is_word(kind, b"begin") {
        return begin(rest);
    }
    if is_word(kind, b"ask-begin") {
        return ask_begin(rest);
    }
    if is_word(kind, b"ask-commit") {
        return ask_commit(rest);
    }
    if is_word(kind, b"accept") {
        return accept(rest);
    }
    if is_word(kind, b"draw") {
        return begin_draw(rest);
    }
    of_rare_kind(kind, rest)
}

/// The items whose first member is their kind, of kinds that are rare.
fn of_rare_kind(kind: &[u8], rest: &[u8]) -> Option<Item> {
    if is_word(kind, b"tick") {
        return tick(rest);
    }
    if is_word(kind, b"renew") {
        return renew(rest);
    }
    if is_word(kind, b"crash") {
        return crash(rest);
    }
    if is_word(kind, b"vanish") {
        return vanish(rest);
    }
    None
}

/// The items whose first member is a commit.
fn of_commit(bytes: &[u8]) -> Option<Item> {
    let (commit, rest) = field(b"mmit\":", bytes)?;
    let (kind, rest) = quoted(after(b",\"kind\":\"", rest)?)?;
    if is_word(kind, b"committed") {
        return committed(commit, rest);
    }
    if is_word(kind, b"draw") {
        return commit_draw(commit, rest);
    }
    if is_word(kind, b"placed") {
        return placed(commit, rest);
    }
    None
}

/// The bytes before the first quote, and those after it.
fn quoted(bytes: &[u8]) -> Option<(&[u8], &[u8])> {
    for place in 0..bytes.len() {
        if bytes[place] == b'"' {
            return Some((&bytes[..place], &bytes[place + 1..]));
        }
    }
    None
}
