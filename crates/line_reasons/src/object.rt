// What is wrong with a line of JSON.
ghost use Rattle.std.specs.Prelude.{◌≡◌, IfOk, codes, map};
ghost use Rattle.std.specs.Option.{option_map};
ghost use Rattle.serde_json.specs.View.{view};
ghost use Rattle.line_reasons.specs.Objects.{IsOfCount, IsOfMembers, TellsJson, TellsObject, or_nothing, text_of};

use crate::fault::LineFault;
use crate::members::{has_more, wrong_in};
use history_json::row_of;
use serde_json::Value;
use stamp_base::NoMemory;
use std::alloc::Global;

/// What is wrong with a line of JSON that is no item. NoMemory where memory is refused.
pub fn json_fault(alloc: Global, line: &[u8]) -> Result<LineFault, NoMemory>
    ensures { IfOk result (TellsJson line.now) }
{
    match Value::from_slice(alloc, line) {
        Ok(value) => value_fault(alloc, &value),
        Err(error) if error.is_memory() => Err(NoMemory),
        Err(_) => Ok(LineFault::NoJson),
    }
}

fn value_fault(alloc: Global, value: &Value) -> Result<LineFault, NoMemory>
    ensures { IfOk result (TellsObject (view value.now)) }
{
    if !value.is_object() {
        return Ok(LineFault::NoObject);
    }
    let Some(kind) = text_of(value, "kind") else {
        return Ok(LineFault::NoKind);
    };
    let commit = value.get("commit").is_some();
    let from = value.get("from").is_some();
    match row_of(kind, commit, from) {
        Some(row) => object_fault(alloc, kind, row, value),
        None => Ok(LineFault::UnknownKind),
    }
}

fn text_of<'a>(value: &'a Value, name: &str) -> Option<&'a [u8]>
    ensures { option_map (λ said. said.now) result ≡ text_of name.now (view value.now) }
{
    match value.get(name).and_then(Value::as_str) {
        Some(said) => Some(said.as_bytes()),
        None => None,
    }
}

fn object_fault(
    alloc: Global,
    kind: &[u8],
    row: &[&'static str],
    value: &Value,
) -> Result<LineFault, NoMemory>
    ensures { IfOk result (IsOfMembers kind.now (map (λ part. part.now) row.now) (view value.now)) }
{
    match wrong_in(alloc, kind, noted(value), row, value)? {
        Some(fault) => Ok(fault),
        None => Ok(count_fault(row, value)),
    }
}

/// What the member `note` says, and nothing where it is no text.
fn noted(value: &Value) -> &[u8]
    ensures { result.now ≡ or_nothing (text_of (codes "note") (view value.now)) }
{
    match text_of(value, "note") {
        Some(said) => said,
        None => b"",
    }
}

fn count_fault(row: &[&'static str], value: &Value) -> LineFault
    ensures { IsOfCount (map (λ part. part.now) row.now) (view value.now) result }
{
    if has_more(row, value) {
        LineFault::TooMany
    } else {
        LineFault::Other
    }
}
