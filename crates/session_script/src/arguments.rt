// What the words of a line name.
ghost use Rattle.std.specs.Prelude.{◌≡◌, ◌<◌, ◌≤◌, length, IfSome};
ghost use Rattle.session_script.specs.Arguments.{is_digit, leads_well, spelled_from, number_of, number_behind, session_of, key_of, node_of, target_of, value_of, name_of, actor_of};
ghost use Rattle.script_data.specs.Sound.{actor_needs, target_needs};

use crate::tables::is_same;
use history_book::Actor;
use script_data::Target;
use stamp_base::{KeyNo, Name, NodeNo, SessionNo, Setup, Value};

/// The actor that begins a line.
pub fn actor_of(setup: &Setup, word: &[u8]) -> Option<Actor>
    ensures actor { result ≡ actor_of setup.now.nodes word.now }
    ensures there { IfSome result (λ actor. actor_needs actor ≤ setup.now.nodes) }
{
    if is_same(word, b"clock") {
        return Some(Actor::Clock);
    }
    if is_same(word, b"janitor") {
        return Some(Actor::Janitor);
    }
    if let Some(node) = node_of(setup, word) {
        return Some(Actor::Node(node));
    }
    match session_of(word) {
        Some(session) => Some(Actor::Session(session)),
        None => None,
    }
}

/// A node of the setup, by its letter.
pub fn node_of(setup: &Setup, word: &[u8]) -> Option<NodeNo>
    ensures node { result ≡ node_of setup.now.nodes word.now }
    ensures there { IfSome result (λ node. node < setup.now.nodes) }
{
    match word {
        [letter] if b'a' <= *letter && (*letter as u64) < b'a' as u64 + setup.nodes => {
            NodeNo::new((*letter - b'a') as u64)
        }
        _ => None,
    }
}

/// Where a line is sent: `master`, or a node of the setup.
pub fn target_of(setup: &Setup, word: &[u8]) -> Option<Target>
    ensures target { result ≡ target_of setup.now.nodes word.now }
    ensures there { IfSome result (λ target. target_needs target ≤ setup.now.nodes) }
{
    if is_same(word, b"master") {
        return Some(Target::Master);
    }
    match node_of(setup, word) {
        Some(node) => Some(Target::Node(node)),
        None => None,
    }
}

/// A session, as `s0`.
pub fn session_of(word: &[u8]) -> Option<SessionNo>
    ensures { result ≡ session_of word.now }
{
    let number = number_behind(b's', word)?;
    SessionNo::new(number)
}

/// A key, as `k0`.
pub fn key_of(word: &[u8]) -> Option<KeyNo>
    ensures { result ≡ key_of word.now }
{
    let number = number_behind(b'k', word)?;
    KeyNo::new(number)
}

/// A value.
pub fn value_of(word: &[u8]) -> Option<Value>
    ensures { result ≡ value_of word.now }
{
    Value::new(word)
}

/// A name.
pub fn name_of(word: &[u8]) -> Option<Name>
    ensures { result ≡ name_of word.now }
{
    Name::new(word)
}

fn number_behind(letter: u8, word: &[u8]) -> Option<u64>
    ensures { result ≡ number_behind letter word.now }
{
    match word {
        [first, digits @ ..] if *first == letter => number_of(digits),
        _ => None,
    }
}

/// A number of at most 19 digits.
pub fn number_of(word: &[u8]) -> Option<u64>
    ensures { result ≡ number_of word.now }
{
    if leads_well(word) && word.len() <= 19 {
        spelled(word)
    } else {
        None
    }
}

fn leads_well(word: &[u8]) -> bool
    ensures { result ≡ leads_well word.now }
{
    match word {
        [] => false,
        [first, rest @ ..] => *first != b'0' || rest.is_empty(),
    }
}

/// The number that at most 19 digits spell.
#[tactic(auto, unfolding(crate::specs::Arguments::spelled_from))]
fn spelled(word: &[u8]) -> Option<u64>
    requires { length word.now ≤ 19 }
    ensures { result ≡ spelled_from 0 word.now }
{
    let mut number = 0;
    for b in word {
        if !is_digit(*b) {
            return None;
        }
        number = 10 * number + (*b - b'0') as u64;
    }
    Some(number)
}

fn is_digit(b: u8) -> bool
    ensures { result ≡ is_digit b }
{
    b'0' <= b && b <= b'9'
}
