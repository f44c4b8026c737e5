// The parts that items share, as reading finds them at the front of some bytes.
ghost use Rattle.std.specs.Prelude.{◌≡◌, ◌+◌, ◌≤◌, length};
ghost use Rattle.std.specs.Option.{option_map};
ghost use Rattle.history_reading.specs.ReadWords.{word_len, first_word, after_word, is_word, after_text, number_from, field_at, last_field_at, two_fields_at, letter_at, node_of, session_of, key_of, stamp_of, term_of, last_stamp_at, value_at, name_at, node_actor_at, session_actor_at, actor_at};

use history_book::Actor;
use stamp_base::{KeyNo, Name, NodeNo, SessionNo, Stamp, Term, Value};

/// The bytes before the first blank, and those after it.
#[tactic(auto, unfolding(crate::specs::ReadWords::first_word, crate::specs::ReadWords::after_word))]
pub fn split_word(bytes: &[u8]) -> (&[u8], &[u8])
    ensures word { result.0.now ≡ first_word bytes.now }
    ensures rest { result.1.now ≡ after_word bytes.now }
{
    let len = word_len(bytes);
    if len < bytes.len() {
        (&bytes[..len], &bytes[len + 1..])
    } else {
        (bytes, &[])
    }
}

#[tactic(auto, unfolding(crate::specs::ReadWords::word_len))]
fn word_len(bytes: &[u8]) -> usize
    ensures len { result ≡ word_len bytes.now }
    ensures within { result ≤ length bytes.now }
{
    let mut rest = bytes;
    let mut len = 0;
    while let [b, more @ ..] = rest {
        if *b == b' ' {
            return len;
        }
        len += 1;
        rest = more;
    }
    len
}

/// Whether the bytes are the word. Most bytes that are not differ in the first place, so this stops there.
pub fn is_word(bytes: &[u8], word: &[u8]) -> bool
    ensures { result ≡ is_word word.now bytes.now }
{
    let mut left = word;
    let mut rest = bytes;
    while let [w, more @ ..] = left {
        match rest {
            [b, after @ ..] if w == b => rest = after,
            _ => return false,
        }
        left = more;
    }
    rest.is_empty()
}

/// The bytes after the text, where they begin with it.
#[tactic(auto, unfolding(crate::specs::ReadWords::after_text))]
pub fn after<'a>(text: &[u8], bytes: &'a [u8]) -> Option<&'a [u8]>
    ensures { option_map (λ rest. rest.now) result ≡ after_text text.now bytes.now }
{
    let mut left = text;
    let mut rest = bytes;
    while let [t, more @ ..] = left {
        match rest {
            [b, after @ ..] if t == b => rest = after,
            _ => return None,
        }
        left = more;
    }
    Some(rest)
}

/// The number of the digits in front, as far as it has 64 bits, and what follows them.
#[tactic(auto, unfolding(crate::specs::ReadWords::number_from))]
pub fn number(bytes: &[u8]) -> (u64, &[u8])
    ensures { (result.0, result.1.now) ≡ number_from 0 bytes.now }
{
    let mut number = 0;
    let mut rest = bytes;
    while let [b @ b'0'..=b'9', more @ ..] = rest {
        let digit = (*b - b'0') as u64;
        if number > (u64::MAX - digit) / 10 {
            return (number, rest);
        }
        number = 10 * number + digit;
        rest = more;
    }
    (number, rest)
}

/// The number behind a text, and the bytes after it.
#[tactic(auto, unfolding(crate::specs::ReadWords::field_at))]
pub fn field<'a>(text: &[u8], bytes: &'a [u8]) -> Option<(u64, &'a [u8])>
    ensures { option_map (λ found. (found.0, found.1.now)) result ≡ field_at text.now bytes.now }
{
    let rest = after(text, bytes)?;
    Some(number(rest))
}

/// The number behind a text, where it is the last of some words: what follows it is not looked at.
#[tactic(auto, unfolding(crate::specs::ReadWords::last_field_at))]
pub fn last_field(text: &[u8], bytes: &[u8]) -> Option<u64>
    ensures { result ≡ last_field_at text.now bytes.now }
{
    let (number, _) = field(text, bytes)?;
    Some(number)
}

/// The numbers behind two texts, and the bytes after them.
#[tactic(auto, unfolding(crate::specs::ReadWords::two_fields_at))]
pub fn two_fields<'a>(first: &[u8], second: &[u8], bytes: &'a [u8]) -> Option<(u64, u64, &'a [u8])>
    ensures { option_map (λ found. (found.0, found.1, found.2.now)) result ≡ two_fields_at first.now second.now bytes.now }
{
    let (one, rest) = field(first, bytes)?;
    let (other, rest) = field(second, rest)?;
    Some((one, other, rest))
}

/// A node by its letter, and the bytes after it.
#[tactic(auto, unfolding(crate::specs::ReadWords::letter_at))]
pub fn letter(bytes: &[u8]) -> Option<(u64, &[u8])>
    ensures { option_map (λ found. (found.0, found.1.now)) result ≡ letter_at bytes.now }
{
    match bytes {
        [b @ b'a'..=b'h', rest @ ..] => Some(((*b - b'a') as u64, rest)),
        _ => None,
    }
}

/// The node of this number.
#[tactic(auto, unfolding(crate::specs::ReadWords::node_of))]
pub fn node_of(number: u64) -> Option<NodeNo>
    ensures { result ≡ node_of number }
{
    NodeNo::new(number)
}

/// The session of this number.
#[tactic(auto, unfolding(crate::specs::ReadWords::session_of))]
pub fn session_of(number: u64) -> Option<SessionNo>
    ensures { result ≡ session_of number }
{
    SessionNo::new(number)
}

/// The key of this number.
#[tactic(auto, unfolding(crate::specs::ReadWords::key_of))]
pub fn key_of(number: u64) -> Option<KeyNo>
    ensures { result ≡ key_of number }
{
    KeyNo::new(number)
}

/// The stamp that the number is.
#[tactic(auto, unfolding(crate::specs::ReadWords::stamp_of))]
pub fn stamp_of(number: u64) -> Option<Stamp>
    ensures { result ≡ stamp_of number }
{
    Stamp::new(number)
}

/// The term that the number is.
#[tactic(auto, unfolding(crate::specs::ReadWords::term_of))]
pub fn term_of(number: u64) -> Option<Term>
    ensures { result ≡ term_of number }
{
    Term::new(number)
}

/// The stamp behind a text, where it is the last of some words.
#[tactic(auto, unfolding(crate::specs::ReadWords::last_stamp_at))]
pub fn last_stamp(text: &[u8], bytes: &[u8]) -> Option<Stamp>
    ensures { result ≡ last_stamp_at text.now bytes.now }
{
    let number = last_field(text, bytes)?;
    stamp_of(number)
}

/// The value that the bytes are.
#[tactic(auto, unfolding(crate::specs::ReadWords::value_at))]
pub fn value(bytes: &[u8]) -> Option<Value>
    ensures { result ≡ value_at bytes.now }
{
    Value::new(bytes)
}

/// The name that the bytes are.
#[tactic(auto, unfolding(crate::specs::ReadWords::name_at))]
pub fn name(bytes: &[u8]) -> Option<Name>
    ensures { result ≡ name_at bytes.now }
{
    Name::new(bytes)
}

/// The actor of this name.
#[tactic(auto, unfolding(crate::specs::ReadWords::actor_at))]
pub fn actor(bytes: &[u8]) -> Option<Actor>
    ensures { result ≡ actor_at bytes.now }
{
    if is_word(bytes, b"clock") {
        return Some(Actor::Clock);
    }
    if is_word(bytes, b"janitor") {
        return Some(Actor::Janitor);
    }
    match session_actor(bytes) {
        Some(actor) => Some(actor),
        None => node_actor(bytes),
    }
}

#[tactic(auto, unfolding(crate::specs::ReadWords::session_actor_at))]
fn session_actor(bytes: &[u8]) -> Option<Actor>
    ensures { result ≡ session_actor_at bytes.now }
{
    let (session, _) = field(b"s", bytes)?;
    let session = session_of(session)?;
    Some(Actor::Session(session))
}

#[tactic(auto, unfolding(crate::specs::ReadWords::node_actor_at))]
fn node_actor(bytes: &[u8]) -> Option<Actor>
    ensures { result ≡ node_actor_at bytes.now }
{
    let (node, _) = letter(bytes)?;
    let node = node_of(node)?;
    Some(Actor::Node(node))
}
