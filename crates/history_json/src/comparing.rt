// The members of an object that was read beside those of an item, looked at where they lie.
ghost use Rattle.std.specs.Prelude.{◌≡◌, ◌↔◌, ◌∷◌, decimal, IsTrue};
ghost use Rattle.serde_json.specs.Data.{string, number as number_data, unsigned};
ghost use Rattle.serde_json.specs.View.{view, members_view};
ghost use Rattle.history_text.specs.CauseText.{cause_text};
ghost use Rattle.history_text.specs.StepText.{step_text};
ghost use Rattle.history_json.specs.Expected.{said_data, expected_members};

use crate::members::{Member, Said};
use crate::texts::{cause_line, step_line};
use history_book::{Cause, StoreStep};
use serde_json::{Map, Value};

/// Whether the members that were found are those that are expected, and no others. It takes no memory.
pub fn are_members(found: &Map<String, Value>, expected: &[Member<'_>]) -> bool
    ensures { IsTrue result ↔ (members_view found.now.entries ≡ expected_members expected.now) }
{
    let mut place = 0;
    for (name, value) in found.iter() {
        if place == expected.len() || !is_member(name.as_str(), value, &expected[place]) {
            return false;
        }
        place += 1;
    }
    place == expected.len()
}

/// Whether a member of this name and value is the one that is expected.
fn is_member(name: &str, value: &Value, expected: &Member<'_>) -> bool
    ensures { IsTrue result ↔ ((name.now ≡ expected.now.name.now) × (view value.now ≡ said_data expected.now.said)) }
{
    name == expected.name && is_said(value, &expected.said)
}

/// Whether the value says so.
fn is_said(value: &Value, said: &Said<'_>) -> bool
    ensures { IsTrue result ↔ (view value.now ≡ said_data said.now) }
{
    match said {
        Said::Number(number) => is_whole(value, *number),
        Said::Text(words) => is_text(value, words.as_bytes()),
        Said::Key(key) => is_numbered(value, b'k', key.value()),
        Said::Step(what) => is_step(value, **what),
        Said::Cause(cause) => is_cause(value, **cause),
    }
}

fn is_whole(value: &Value, number: u64) -> bool
    ensures { IsTrue result ↔ (view value.now ≡ number_data (unsigned number)) }
{
    match value.as_u64() {
        Some(found) => found == number,
        None => false,
    }
}

fn is_text(value: &Value, words: &[u8]) -> bool
    ensures { IsTrue result ↔ (view value.now ≡ string words.now) }
{
    match value.as_str() {
        Some(text) => text.as_bytes() == words,
        None => false,
    }
}

fn is_step(value: &Value, what: StoreStep) -> bool
    ensures { IsTrue result ↔ (view value.now ≡ string (step_text what)) }
{
    is_text(value, step_line(what).as_slice())
}

fn is_cause(value: &Value, cause: Cause) -> bool
    ensures { IsTrue result ↔ (view value.now ≡ string (cause_text cause)) }
{
    is_text(value, cause_line(cause).as_slice())
}

fn is_numbered(value: &Value, letter: u8, number: u64) -> bool
    ensures { IsTrue result ↔ (view value.now ≡ string (letter ∷ decimal number)) }
{
    match value.as_str() {
        Some(text) => is_letter_and_number(text.as_bytes(), letter, number),
        None => false,
    }
}

/// Whether the bytes are the letter and the digits of the number.
fn is_letter_and_number(bytes: &[u8], letter: u8, number: u64) -> bool
    ensures { IsTrue result ↔ (bytes.now ≡ letter ∷ decimal number) }
{
    let mut buffer = itoa::Buffer::new();
    let digits = buffer.format(number);
    match bytes.split_first() {
        Some((first, rest)) => *first == letter && rest == digits.as_bytes(),
        None => false,
    }
}
