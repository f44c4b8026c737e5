// The words that name a form, a stage, a store or how a call fails.
ghost use Rattle.std.specs.Prelude.{◌≡◌, map};
ghost use Rattle.std.specs.Str.{bytes_eq};
ghost use Rattle.session_script.specs.Grammar.{named, stages, stores, kinds, setup_forms, flag_word, verb_forms};

use crate::form::{SetupForm, VerbForm};
use history_book::Actor;
use port_io::Fate;
use stamp_base::{SetupFlag, SetupNumber, Stage, Store};

const SETUP_FORMS: [(&str, SetupForm); 13] = [
    ("nodes", SetupForm::Number(SetupNumber::Nodes)),
    ("lease", SetupForm::Number(SetupNumber::Lease)),
    ("skew", SetupForm::Number(SetupNumber::Skew)),
    ("range", SetupForm::Number(SetupNumber::Range)),
    ("buckets", SetupForm::Buckets),
    ("slots", SetupForm::Number(SetupNumber::Slots)),
    ("batch", SetupForm::Number(SetupNumber::Batch)),
    ("workers", SetupForm::Number(SetupNumber::Workers)),
    ("lead", SetupForm::Lead),
    ("fault", SetupForm::Fault),
    ("cache", SetupForm::Number(SetupNumber::Cache)),
    ("commits", SetupForm::Flag(SetupFlag::Direct)),
    ("reads", SetupForm::Flag(SetupFlag::Strict)),
];

const CLOCK_FORMS: [(&str, VerbForm); 3] = [
    ("tick", VerbForm::Tick),
    ("post", VerbForm::Post),
    ("await", VerbForm::Await),
];

const JANITOR_FORMS: [(&str, VerbForm); 6] = [
    ("sweep", VerbForm::Sweep),
    ("open", VerbForm::OpenSweep),
    ("step", VerbForm::SweepStep),
    ("finish", VerbForm::SweepFinish),
    ("post", VerbForm::Post),
    ("await", VerbForm::Await),
];

const NODE_FORMS: [(&str, VerbForm); 12] = [
    ("take", VerbForm::Take),
    ("renew", VerbForm::Renew),
    ("crash", VerbForm::Crash),
    ("hold", VerbForm::Hold),
    ("free", VerbForm::Free),
    ("accept", VerbForm::Accept),
    ("decide", VerbForm::Decide),
    ("put", VerbForm::Put),
    ("answer", VerbForm::Answer),
    ("extend", VerbForm::Extend),
    ("post", VerbForm::Post),
    ("await", VerbForm::Await),
];

const SESSION_FORMS: [(&str, VerbForm); 16] = [
    ("begin", VerbForm::Begin),
    ("commit", VerbForm::Commit),
    ("submit", VerbForm::Submit),
    ("collect", VerbForm::Collect),
    ("write", VerbForm::Write),
    ("read", VerbForm::Read),
    ("abort", VerbForm::Abort),
    ("heal", VerbForm::Heal),
    ("finish", VerbForm::Finish),
    ("vanish", VerbForm::Vanish),
    ("fetch", VerbForm::Fetch),
    ("step", VerbForm::Step),
    ("ask-begin", VerbForm::AskBegin),
    ("ask-commit", VerbForm::AskCommit),
    ("post", VerbForm::Post),
    ("await", VerbForm::Await),
];

const STAGES: [(&str, Stage); 3] = [
    ("request", Stage::Request),
    ("persist", Stage::Persist),
    ("reply", Stage::Reply),
];

const STORES: [(&str, Store); 3] = [
    ("cells", Store::Cells),
    ("table", Store::Table),
    ("master", Store::Master),
];

const KINDS: [(&str, Fate); 2] = [
    ("unchanged", Fate::FailsUnchanged),
    ("applied", Fate::FailsApplied),
];

/// The word that turns the flag on.
fn flag_word(flag: SetupFlag) -> &'static [u8]
    ensures { result.now ≡ flag_word flag }
{
    match flag {
        SetupFlag::Direct => b"direct",
        SetupFlag::Strict => b"strict",
    }
}

/// The form that a setup word names.
pub fn setup_form(word: &[u8]) -> Option<SetupForm>
    ensures { result ≡ named setup_forms word.now }
{
    look_up(&SETUP_FORMS, word)
}

/// The form that a verb names for an actor.
pub fn verb_form(actor: &Actor, verb: &[u8]) -> Option<VerbForm>
    ensures { result ≡ named (verb_forms actor.now) verb.now }
{
    match actor {
        Actor::Clock => look_up(&CLOCK_FORMS, verb),
        Actor::Janitor => look_up(&JANITOR_FORMS, verb),
        Actor::Node(_) => look_up(&NODE_FORMS, verb),
        Actor::Session(_) => look_up(&SESSION_FORMS, verb),
    }
}

/// A stage of a node.
pub fn stage_of(word: &[u8]) -> Option<Stage>
    ensures { result ≡ named stages word.now }
{
    look_up(&STAGES, word)
}

/// A store.
pub fn store_of(word: &[u8]) -> Option<Store>
    ensures { result ≡ named stores word.now }
{
    look_up(&STORES, word)
}

/// How a store call fails.
pub fn kind_of(word: &[u8]) -> Option<Fate>
    ensures { result ≡ named kinds word.now }
{
    look_up(&KINDS, word)
}

/// Whether the word turns the flag on.
pub fn turns_on(flag: SetupFlag, word: &[u8]) -> bool
    ensures { result ≡ bytes_eq word.now (flag_word flag) }
{
    is_same(word, flag_word(flag))
}

/// What the word stands for: what the first row of the table that has the word holds beside it.
fn look_up<T: Copy>(table: &[(&str, T)], word: &[u8]) -> Option<T>
    ensures { result ≡ named (map (λ row. (row.0.now, row.1)) table.now) word.now }
{
    for (text, meaning) in table {
        if is_same(word, text.as_bytes()) {
            return Some(*meaning);
        }
    }
    None
}

/// Whether a word is a text. Most words that are not have another length, or differ in the first byte.
pub fn is_same(word: &[u8], text: &[u8]) -> bool
    ensures { result ≡ bytes_eq word.now text.now }
{
    if word.len() != text.len() {
        return false;
    }
    let mut left = text;
    let mut rest = word;
    while let [t, more @ ..] = left {
        match rest {
            [b, after @ ..] if t == b => rest = after,
            _ => return false,
        }
        left = more;
    }
    rest.is_empty()
}
