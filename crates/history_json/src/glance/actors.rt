// What any actor does, behind its first member.
use super::quoted;
use history_book::{Actor, Item, Note};
use history_reading::{actor, after, cause, field, is_word, name, stage, stamp_of, step, store};

/// The items whose first member is an actor.
pub fn of_actor(bytes: &[u8]) -> Option<Item> {
    let (words, rest) = quoted(bytes)?;
    let actor = actor(words)?;
    let (kind, rest) = quoted(after(b",\"kind\":\"", rest)?)?;
    if is_word(kind, b"step") {
        let what = step(told(b",\"text\":\"", rest)?)?;
        return Some(Item::Step { actor, what });
    }
    if is_word(kind, b"mark") {
        let (start, _) = field(b",\"start\":", rest)?;
        let start = stamp_of(start)?;
        return Some(Item::Mark { actor, start });
    }
    if is_word(kind, b"refused") {
        let cause = cause(told(b",\"text\":\"", rest)?)?;
        return Some(Item::Refused { actor, cause });
    }
    if is_word(kind, b"note") {
        return noted(actor, rest);
    }
    if is_word(kind, b"fault") {
        let store = store(told(b",\"store\":\"", rest)?)?;
        return Some(Item::Fault { actor, store });
    }
    None
}

fn noted(actor: Actor, bytes: &[u8]) -> Option<Item> {
    let (of, rest) = quoted(after(b",\"name\":\"", bytes)?)?;
    let word = told(b",\"note\":\"", rest)?;
    let note = note_of(word, of)?;
    Some(Item::Note { actor, note })
}

/// What is noted, by its word and what it is noted of.
fn note_of(word: &[u8], of: &[u8]) -> Option<Note> {
    if is_word(word, b"post") {
        return Some(Note::Post(name(of)?));
    }
    if is_word(word, b"await") {
        return Some(Note::Await(name(of)?));
    }
    if is_word(word, b"hold") {
        return Some(Note::Hold(stage(of)?));
    }
    if is_word(word, b"free") {
        return Some(Note::Free(stage(of)?));
    }
    None
}

/// The bytes between the texts of a member and the quote after them.
fn told<'a>(member: &[u8], bytes: &'a [u8]) -> Option<&'a [u8]> {
    let (words, _) = quoted(after(member, bytes)?)?;
    Some(words)
}
