// What the clock and the nodes do, behind its first member.
use history_book::Item;
use history_reading::{after, field, letter, node_of, term_of};

/// An item `tick` of the bytes behind its kind. None where they are not such members, in this order.
pub fn tick(bytes: &[u8]) -> Option<Item> {
    let (to, _) = field(b",\"to\":", bytes)?;
    Some(Item::Tick { to })
}

/// The items whose first member is a ceiling.
pub fn of_ceiling(bytes: &[u8]) -> Option<Item> {
    let (ceiling, rest) = field(b"eiling\":", bytes)?;
    match rest {
        [b',', b'"', b'e', rest @ ..] => take(ceiling, rest),
        _ => extend(ceiling, rest),
    }
}

fn take(ceiling: u64, bytes: &[u8]) -> Option<Item> {
    let (epoch, rest) = field(b"poch\":", bytes)?;
    let (node, rest) = named(after(b",\"kind\":\"take\"", rest)?)?;
    let (reading, rest) = field(b"\",\"reading\":", rest)?;
    let (term, rest) = field(b",\"term\":", rest)?;
    let (until, _) = field(b",\"until\":", rest)?;
    let node = node_of(node)?;
    let term = term_of(term)?;
    Some(Item::Take {
        node,
        reading,
        term,
        epoch,
        until,
        ceiling,
    })
}

fn extend(ceiling: u64, bytes: &[u8]) -> Option<Item> {
    let (node, rest) = named(after(b",\"kind\":\"extend\"", bytes)?)?;
    let (term, _) = field(b"\",\"term\":", rest)?;
    let node = node_of(node)?;
    let term = term_of(term)?;
    Some(Item::Extend {
        node,
        term,
        ceiling,
    })
}

/// An item `renew` of the bytes behind its kind. None where they are not such members, in this order.
pub fn renew(bytes: &[u8]) -> Option<Item> {
    let (node, rest) = named(bytes)?;
    let (reading, rest) = field(b"\",\"reading\":", rest)?;
    let (term, rest) = field(b",\"term\":", rest)?;
    let (until, _) = field(b",\"until\":", rest)?;
    let node = node_of(node)?;
    let term = term_of(term)?;
    Some(Item::Renew {
        node,
        reading,
        term,
        until,
    })
}

/// An item `crash` of the bytes behind its kind. None where they are not such members, in this order.
pub fn crash(bytes: &[u8]) -> Option<Item> {
    let (node, rest) = named(bytes)?;
    let (term, _) = field(b"\",\"term\":", rest)?;
    let node = node_of(node)?;
    let term = term_of(term)?;
    Some(Item::Crash { node, term })
}

/// The number of the node that a member names, and the bytes after its letter.
pub fn named(bytes: &[u8]) -> Option<(u64, &[u8])> {
    letter(after(b",\"node\":\"", bytes)?)
}
