// The items of any actor, as reading finds them.
ghost use Rattle.std.specs.Prelude.{◌≡◌};
ghost use Rattle.history_reading.specs.ReadActors.{actor_kind_at, item_of_at, note_at, note_kind_at, stage_at, store_at};

use super::causes::cause;
use super::steps::step;
use super::words::{actor, is_word, last_stamp, name, split_word};
use history_book::{Actor, Item, Note};
use stamp_base::{Stage, Store};

/// The items of any actor.
#[tactic(auto, unfolding(crate::specs::ReadActors::actor_kind_at))]
pub fn actor_kind(word: &[u8], bytes: &[u8]) -> Option<Item>
    ensures { result ≡ actor_kind_at word.now bytes.now }
{
    let (name, rest) = split_word(bytes);
    let actor = actor(name)?;
    item_of(word, actor, rest)
}

/// The actor's item, by the words behind its name.
#[tactic(auto, unfolding(crate::specs::ReadActors::item_of_at))]
fn item_of(word: &[u8], actor: Actor, bytes: &[u8]) -> Option<Item>
    ensures { result ≡ item_of_at word.now actor bytes.now }
{
    if is_word(word, b"note") {
        let note = note(bytes)?;
        return Some(Item::Note { actor, note });
    }
    if is_word(word, b"mark") {
        let start = last_stamp(b"start=", bytes)?;
        return Some(Item::Mark { actor, start });
    }
    if is_word(word, b"step") {
        let what = step(bytes)?;
        return Some(Item::Step { actor, what });
    }
    if is_word(word, b"refused") {
        let cause = cause(bytes)?;
        return Some(Item::Refused { actor, cause });
    }
    if is_word(word, b"fault") {
        let store = store(bytes)?;
        return Some(Item::Fault { actor, store });
    }
    None
}

fn note(bytes: &[u8]) -> Option<Note>
    ensures { result ≡ note_at bytes.now }
{
    let (word, rest) = split_word(bytes);
    note_kind(word, rest)
}

#[tactic(auto, unfolding(crate::specs::ReadActors::note_kind_at))]
fn note_kind(word: &[u8], bytes: &[u8]) -> Option<Note>
    ensures { result ≡ note_kind_at word.now bytes.now }
{
    if is_word(word, b"post") {
        let name = name(bytes)?;
        return Some(Note::Post(name));
    }
    if is_word(word, b"await") {
        let name = name(bytes)?;
        return Some(Note::Await(name));
    }
    if is_word(word, b"hold") {
        let stage = stage(bytes)?;
        return Some(Note::Hold(stage));
    }
    if is_word(word, b"free") {
        let stage = stage(bytes)?;
        return Some(Note::Free(stage));
    }
    None
}

/// The stage of this name.
#[tactic(auto, unfolding(crate::specs::ReadActors::stage_at))]
pub fn stage(bytes: &[u8]) -> Option<Stage>
    ensures { result ≡ stage_at bytes.now }
{
    if is_word(bytes, b"request") {
        return Some(Stage::Request);
    }
    if is_word(bytes, b"persist") {
        return Some(Stage::Persist);
    }
    if is_word(bytes, b"reply") {
        return Some(Stage::Reply);
    }
    None
}

/// The store of this name.
#[tactic(auto, unfolding(crate::specs::ReadActors::store_at))]
pub fn store(bytes: &[u8]) -> Option<Store>
    ensures { result ≡ store_at bytes.now }
{
    if is_word(bytes, b"cells") {
        return Some(Store::Cells);
    }
    if is_word(bytes, b"table") {
        return Some(Store::Table);
    }
    if is_word(bytes, b"master") {
        return Some(Store::Master);
    }
    None
}
