// The members of an object beside the row of its kind.
ghost use Rattle.std.specs.Prelude.{◌≡◌, ◌≤◌, IfOk, IfSome, IsFalse, IsTrue, length, map};
ghost use Rattle.serde_json.specs.Find.{as_str};
ghost use Rattle.serde_json.specs.View.{view};
ghost use Rattle.line_reasons.specs.Wants.{IsNoValue};
ghost use Rattle.line_reasons.specs.Objects.{HasMore, IsWrongIn, digits_of, names_in, said_as};

use crate::fault::LineFault;
use crate::value::is_value;
use crate::wants::{Wants, wants_of};
use history_text::LineBuf;
use serde_json::Value;
use stamp_base::NoMemory;
use std::alloc::Global;

/// The first member of the row that is missing, or says what it doesn't want. NoMemory where memory is refused.
#[tactic(auto, unfolding(crate::specs::Objects::IsWrongIn))]
pub fn wrong_in(
    alloc: Global,
    kind: &[u8],
    noted: &[u8],
    row: &[&'static str],
    value: &Value,
) -> Result<Option<LineFault>, NoMemory>
    ensures { IfOk result (λ found. IfSome found (IsWrongIn kind.now noted.now (map (λ part. part.now) row.now) (view value.now))) }
{
    let [_, name, more @ ..] = row else {
        return Ok(None);
    };
    let Some(said) = value.get(*name) else {
        return Ok(Some(LineFault::Missing { name: *name }));
    };
    let wants = wants_of(kind, noted, name.as_bytes());
    if is_right(alloc, wants, said)? {
        wrong_in(alloc, kind, noted, more, value)
    } else {
        Ok(Some(LineFault::Member { name: *name, wants }))
    }
}

/// Whether a member says what is wanted.
fn is_right(alloc: Global, wants: Wants, said: &Value) -> Result<bool, NoMemory>
    ensures { IfOk result (λ right. IsFalse right → IfSome (said_as wants (view said.now)) (IsNoValue wants)) }
{
    match wants {
        Wants::Number | Wants::Term | Wants::Stamp => is_right_number(alloc, wants, said),
        _ => is_right_text(alloc, wants, said),
    }
}

fn is_right_number(alloc: Global, wants: Wants, said: &Value) -> Result<bool, NoMemory>
    ensures { IfOk result (λ right. IsFalse right → IfSome (digits_of (view said.now)) (IsNoValue wants)) }
{
    match said.as_u64() {
        Some(number) => {
            let mut digits = LineBuf::new();
            digits.push_number(number);
            is_value(alloc, wants, digits.as_slice())
        }
        None => Ok(false),
    }
}

fn is_right_text(alloc: Global, wants: Wants, said: &Value) -> Result<bool, NoMemory>
    ensures { IfOk result (λ right. IsFalse right → IfSome (as_str (view said.now)) (IsNoValue wants)) }
{
    match said.as_str() {
        Some(text) => is_value(alloc, wants, text.as_bytes()),
        None => Ok(false),
    }
}

/// Whether the object has more members than its kind and those that the row names.
pub fn has_more(row: &[&'static str], value: &Value) -> bool
    ensures { IsTrue result → HasMore (map (λ part. part.now) row.now) (view value.now) }
{
    match value.as_object() {
        Some(members) if names_in(row) + 1 < members.len() => true,
        _ => false,
    }
}

#[tactic(auto, unfolding(crate::specs::Objects::names_in))]
fn names_in(row: &[&'static str]) -> usize
    ensures names { result ≡ names_in (map (λ part. part.now) row.now) }
    ensures within { result ≤ length row.now }
{
    let mut left = row;
    let mut names = 0;
    while let [_, _, more @ ..] = left {
        names += 1;
        left = more;
    }
    names
}
