// The words of the line that an object's members tell.
ghost use Rattle.std.specs.Prelude.{◌≡◌, ◌<◌, ◌++◌, [], length, OnOk, map, IfOk, IsTrue, IsFalse, None, Some};
ghost use Rattle.std.specs.Option.{option_map};
ghost use Rattle.serde_json.specs.Data.{Data};
ghost use Rattle.serde_json.specs.View.{view};
ghost use Rattle.history_json.specs.Words.{said_by, filled, words_of};

use crate::rows::row_of;
use serde_json::Value;
use std::alloc::{AllocError, Global};

/// The words of the object's kind, with what its members say. None where it has no such kind, or lacks a member of it. AllocError
/// where memory is refused.
#[tactic(auto, unfolding(crate::specs::Words::words_of))]
pub fn words_of(alloc: Global, object: &Value) -> Result<Option<Vec<u8>>, AllocError>
    ensures { IfOk result (λ found. option_map (λ words. words.items) found ≡ words_of (view object.now)) }
{
    let Some(kind) = object.get("kind").and_then(Value::as_str) else {
        return Ok(None);
    };
    let commit = object.get("commit").is_some();
    let from = object.get("from").is_some();
    match row_of(kind.as_bytes(), commit, from) {
        Some(row) => fill(alloc, row, object),
        None => Ok(None),
    }
}

/// The row's words, and in turn what the members of its names say.
fn fill(alloc: Global, row: &[&str], object: &Value) -> Result<Option<Vec<u8>>, AllocError>
    ensures { IfOk result (λ found. option_map (λ text. text.items) found ≡ filled [] (map (λ p. p.now) row.now) (view object.now)) }
{
    let mut text = Vec::with_capacity(alloc, 128)?;
    let mut left = row;
    while let [words, name, more @ ..] = left {
        text.extend_from_slice(words.as_bytes())?;
        let there = push_said(&mut text, object, name)?;
        if !there {
            return Ok(None);
        }
        left = more;
    }
    push_last(&mut text, left)?;
    Ok(Some(text))
}

/// Adds the words that stand alone at a row's end.
#[tactic(auto, unfolding(crate::specs::Words::filled))]
fn push_last(text: &mut Vec<u8>, row: &[&str]) -> Result<(), AllocError>
    requires { length row.now < 2 }
    ensures { OnOk result ((d : Data) → filled text.old.items (map (λ part. part.now) row.now) d ≡ Some text.new.items) }
{
    if let [words] = row {
        text.extend_from_slice(words.as_bytes())?;
    }
    Ok(())
}

/// Adds what the member says, and tells whether it says something.
#[tactic(auto, unfolding(crate::specs::Words::said_by))]
fn push_said(text: &mut Vec<u8>, object: &Value, name: &str) -> Result<bool, AllocError>
    ensures there { IfOk result (λ there. IsTrue there → option_map (λ said. text.old.items ++ said) (said_by name.now (view object.now)) ≡ Some text.new.items) }
    ensures missing { IfOk result (λ there. IsFalse there → said_by name.now (view object.now) ≡ None) }
{
    if let Some(said) = object.get(name).and_then(Value::as_str) {
        text.extend_from_slice(said.as_bytes())?;
        return Ok(true);
    }
    if let Some(number) = object.get(name).and_then(Value::as_u64) {
        let mut buffer = itoa::Buffer::new();
        text.extend_from_slice(buffer.format(number).as_bytes())?;
        return Ok(true);
    }
    Ok(false)
}
