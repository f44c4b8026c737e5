// Where a line of text breaks off from the row of its kind.
ghost use Rattle.std.specs.Prelude.{◌≡◌, map, IfOk, MatchOption};
ghost use Rattle.history_reading.specs.ReadWords.{after_text};
ghost use Rattle.line_reasons.specs.TextLines.{BreaksOff, EndsWrong, behind_it, said_of};

use crate::fault::LineFault;
use crate::text_line::{after, first_word, word_len};
use crate::value::is_value;
use crate::wants::{is_word, wants_of};
use stamp_base::NoMemory;
use std::alloc::Global;

/// Where the bytes break off from words and members in turn, behind a member that says so. NoMemory where memory is refused.
#[tactic(auto, unfolding(crate::specs::TextLines::BreaksOff))]
pub fn broken(
    alloc: Global,
    kind: &[u8],
    before: &[u8],
    row: &[&'static str],
    bytes: &[u8],
) -> Result<LineFault, NoMemory>
    ensures { IfOk result (BreaksOff kind.now before.now (map (λ part. part.now) row.now) bytes.now) }
{
    match row {
        [] => Ok(end_fault(bytes)),
        [words] => Ok(last_fault(words.as_bytes(), bytes)),
        [words, name, more @ ..] => {
            let Some(rest) = after(words.as_bytes(), bytes) else {
                return Ok(LineFault::Missing { name: *name });
            };
            let said = said_of(name.as_bytes(), rest);
            let wants = wants_of(kind, before, name.as_bytes());
            if is_value(alloc, wants, said)? {
                broken(alloc, kind, said, more, behind_it(name.as_bytes(), rest))
            } else {
                Ok(LineFault::Member { name: *name, wants })
            }
        }
    }
}

/// What is wrong behind the last member.
fn end_fault(bytes: &[u8]) -> LineFault
    ensures { EndsWrong bytes.now result }
{
    if bytes.is_empty() {
        LineFault::Other
    } else {
        LineFault::TooLong
    }
}

/// What is wrong with words that stand alone at a row's end.
fn last_fault(words: &[u8], bytes: &[u8]) -> LineFault
    ensures { MatchOption (after_text words.now bytes.now) (result ≡ LineFault.NoAnswer) (λ rest. EndsWrong rest result) }
{
    match after(words, bytes) {
        Some(rest) => end_fault(rest),
        None => LineFault::NoAnswer,
    }
}

/// What the member at the front says: its word, or for a step and a cause all bytes.
fn said_of<'a>(name: &[u8], bytes: &'a [u8]) -> &'a [u8]
    ensures { result.now ≡ said_of name.now bytes.now }
{
    if is_word(name, b"text") {
        bytes
    } else {
        first_word(bytes)
    }
}

fn behind_it<'a>(name: &[u8], bytes: &'a [u8]) -> &'a [u8]
    ensures { result.now ≡ behind_it name.now bytes.now }
{
    if is_word(name, b"text") {
        b""
    } else {
        &bytes[word_len(bytes)..]
    }
}
