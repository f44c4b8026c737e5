// The members that an item's object has: each with its name and what it says.
ghost use Rattle.std.specs.Prelude.{◌≡◌, codes};
ghost use Rattle.serde_json.specs.Data.{string, number as number_data, unsigned};
ghost use Rattle.history_text.specs.CauseText.{cause_text};
ghost use Rattle.history_text.specs.StepText.{step_text};
ghost use Rattle.history_text.specs.Words.{node_text, session_text, key_text, actor_text};
ghost use Rattle.history_json.specs.Expected.{said_data};

use crate::texts::{actor_name, node_name, session_name};
use history_book::{Actor, Cause, StoreStep};
use stamp_base::{KeyNo, NodeNo, SessionNo};

/// What a member says.
#[derive(Clone, Copy)]
pub enum Said<'a> {
    /// A whole number.
    Number(u64),
    /// A text as it is.
    Text(&'a str),
    /// A key's name.
    Key(KeyNo),
    /// The text of a step on a store.
    Step(&'a StoreStep),
    /// The text of a refusal's cause.
    Cause(&'a Cause),
}

/// A member by its name.
#[derive(Clone, Copy)]
pub struct Member<'a> {
    /// Its name.
    pub name: &'static str,
    /// What it says.
    pub said: Said<'a>,
}

/// The member of this name that is a whole number.
pub fn whole(name: &'static str, number: u64) -> Member<'static>
    ensures name { result.name.now ≡ name.now }
    ensures said { said_data result.said ≡ number_data (unsigned number) }
{
    Member {
        name,
        said: Said::Number(number),
    }
}

/// The member of this name that is a text.
pub fn text<'a>(name: &'static str, words: &'a str) -> Member<'a>
    ensures name { result.name.now ≡ name.now }
    ensures said { said_data result.said ≡ string words.now }
{
    Member {
        name,
        said: Said::Text(words),
    }
}

/// The member that names the kind.
pub fn kind(word: &'static str) -> Member<'static>
    ensures name { result.name.now ≡ codes "kind" }
    ensures said { said_data result.said ≡ string word.now }
{
    text("kind", word)
}

/// The member that names a session.
pub fn session_member(session: SessionNo) -> Member<'static>
    ensures name { result.name.now ≡ codes "session" }
    ensures said { said_data result.said ≡ string (session_text session) }
{
    text("session", session_name(session))
}

/// The member that names a key.
pub fn key_member(key: KeyNo) -> Member<'static>
    ensures name { result.name.now ≡ codes "key" }
    ensures said { said_data result.said ≡ string (key_text key) }
{
    Member {
        name: "key",
        said: Said::Key(key),
    }
}

/// The member that names a node.
pub fn node_member(node: NodeNo) -> Member<'static>
    ensures name { result.name.now ≡ codes "node" }
    ensures said { said_data result.said ≡ string (node_text node) }
{
    text("node", node_name(node))
}

/// The member that names an actor.
pub fn actor_member(actor: Actor) -> Member<'static>
    ensures name { result.name.now ≡ codes "actor" }
    ensures said { said_data result.said ≡ string (actor_text actor) }
{
    text("actor", actor_name(actor))
}

/// The member that tells a step.
pub fn step_member(what: &StoreStep) -> Member<'_>
    ensures name { result.name.now ≡ codes "text" }
    ensures said { said_data result.said ≡ string (step_text what.now) }
{
    Member {
        name: "text",
        said: Said::Step(what),
    }
}

/// The member that tells a cause.
pub fn cause_member(cause: &Cause) -> Member<'_>
    ensures name { result.name.now ≡ codes "text" }
    ensures said { said_data result.said ≡ string (cause_text cause.now) }
{
    Member {
        name: "text",
        said: Said::Cause(cause),
    }
}
