// What sessions do and are told, behind its first member.
use super::quoted;
use history_book::{Found, Item};
use history_reading::{
    after, ending, field, is_word, key_of, session_of, stamp_of, two_fields, value,
};
use stamp_base::KeyNo;

/// An item `begin` of the bytes behind its kind. None where they are not such members, in this order.
pub fn begin(bytes: &[u8]) -> Option<Item> {
    let (session, start, _) = started(bytes)?;
    let session = session_of(session)?;
    let start = stamp_of(start)?;
    Some(Item::Begin { session, start })
}

/// The items whose first member is a key.
pub fn of_key(bytes: &[u8]) -> Option<Item> {
    let (key, rest) = field(b"", bytes)?;
    let key = key_of(key)?;
    let (kind, rest) = quoted(after(b"\",\"kind\":\"", rest)?)?;
    if is_word(kind, b"write") {
        return write(key, rest);
    }
    if is_word(kind, b"read") {
        return read_none(key, rest);
    }
    None
}

fn write(key: KeyNo, bytes: &[u8]) -> Option<Item> {
    let (session, start, rest) = started(bytes)?;
    let (words, _) = quoted(after(b",\"value\":\"", rest)?)?;
    let value = value(words)?;
    let session = session_of(session)?;
    let start = stamp_of(start)?;
    Some(Item::Write {
        session,
        start,
        key,
        value,
    })
}

fn read_none(key: KeyNo, bytes: &[u8]) -> Option<Item> {
    let (session, start, _) = started(bytes)?;
    let session = session_of(session)?;
    let start = stamp_of(start)?;
    Some(Item::Read {
        session,
        start,
        key,
        answer: None,
    })
}

/// An item `read` that found a value, of the bytes behind the first letter of `from`. None where they are not such members, in this
/// order.
pub fn read_some(bytes: &[u8]) -> Option<Item> {
    let (from, rest) = field(b"rom\":", bytes)?;
    let (key, rest) = field(b",\"key\":\"k", rest)?;
    let (session, start, rest) = started(after(b"\",\"kind\":\"read\"", rest)?)?;
    let (words, _) = quoted(after(b",\"value\":\"", rest)?)?;
    let value = value(words)?;
    let from = stamp_of(from)?;
    let key = key_of(key)?;
    let session = session_of(session)?;
    let start = stamp_of(start)?;
    Some(Item::Read {
        session,
        start,
        key,
        answer: Some(Found { from, value }),
    })
}

/// An item `committed` with this commit, of the bytes behind its kind. None where the number is no stamp, or they are not such
/// members, in this order.
pub fn committed(commit: u64, bytes: &[u8]) -> Option<Item> {
    let (session, start, _) = started(bytes)?;
    let commit = stamp_of(commit)?;
    let session = session_of(session)?;
    let start = stamp_of(start)?;
    Some(Item::Committed {
        session,
        start,
        commit,
    })
}

/// An item `end` of the bytes behind the first letter of `how`. None where they are not such members, in this order.
pub fn end(bytes: &[u8]) -> Option<Item> {
    let (how, rest) = quoted(after(b"ow\":\"", bytes)?)?;
    let (session, start, _) = started(after(b",\"kind\":\"end\"", rest)?)?;
    let how = ending(how)?;
    let session = session_of(session)?;
    let start = stamp_of(start)?;
    Some(Item::End {
        session,
        start,
        how,
    })
}

/// An item `vanish` of the bytes behind its kind. None where they are not such members, in this order.
pub fn vanish(bytes: &[u8]) -> Option<Item> {
    let (session, _) = field(b",\"session\":\"s", bytes)?;
    let session = session_of(session)?;
    Some(Item::Vanish { session })
}

/// The numbers of a transaction's session and start, and the bytes after them.
fn started(bytes: &[u8]) -> Option<(u64, u64, &[u8])> {
    two_fields(b",\"session\":\"s", b"\",\"start\":", bytes)
}
