// How a wrong list is told.
ghost use Rattle.std.specs.Prelude.{◌≡◌, ◌++◌, OnOk};
ghost use Rattle.trace_report.specs.Lists.{beside_text, done_text, flaw_name, list_text, other_text, wrong_list_text};
ghost use Rattle.trace_report.specs.Parts.{line_at, name_at};

use crate::parts::{push_line, push_name};
use list_ranks::{Flaw, WrongList};
use stamp_base::NoMemory;
use trace_index::Attempt;
use trace_reading::{Recording, push_words};

/// What the field calls what is wrong with a list.
pub fn flaw_name(flaw: Flaw) -> &'static str
    ensures { result.now ≡ flaw_name flaw }
{
    match flaw {
        Flaw::Dirty => "dirty read (G1a)",
        Flaw::Turned | Flaw::Split => "list out of order",
        Flaw::Missing | Flaw::Cut => "list with a gap",
        Flaw::Different => "incompatible order",
    }
}

/// What the other transaction did at the key.
fn beside_text(flaw: Flaw) -> &'static str
    ensures { result.now ≡ beside_text flaw }
{
    match flaw {
        Flaw::Dirty | Flaw::Turned | Flaw::Split | Flaw::Missing | Flaw::Cut => " append ",
        Flaw::Different => " r ",
    }
}

/// Adds a wrong list, by its line and that of what it is wrong beside. NoMemory where memory is refused.
pub fn push_wrong_list(
    text: &mut Vec<u8>,
    recording: &Recording,
    attempts: &[Attempt],
    wrong: WrongList,
) -> Result<(), NoMemory>
    ensures { OnOk result (text.new.items ≡ text.old.items ++ wrong_list_text recording.now.names attempts.now wrong) }
{
    push_list(text, recording, attempts, wrong.reader, wrong.key)?;
    push_other(
        text,
        recording,
        attempts,
        wrong.other,
        wrong.key,
        wrong.flaw,
    )
}

/// Adds that the transaction read a list of the key.
#[tactic(auto, unfolding(crate::specs::Lists::list_text))]
fn push_list(
    text: &mut Vec<u8>,
    recording: &Recording,
    attempts: &[Attempt],
    txn: usize,
    key: u64,
) -> Result<(), NoMemory>
    ensures { OnOk result (text.new.items ≡ text.old.items ++ list_text (name_at recording.now.names key) (line_at attempts.now txn)) }
{
    push_words(text, "  line ")?;
    push_line(text, attempts, txn)?;
    push_words(text, " r ")?;
    push_name(text, recording, key)
}

/// Adds what the other transaction did at the key, and its line.
#[tactic(auto, unfolding(crate::specs::Lists::other_text))]
fn push_other(
    text: &mut Vec<u8>,
    recording: &Recording,
    attempts: &[Attempt],
    txn: usize,
    key: u64,
    flaw: Flaw,
) -> Result<(), NoMemory>
    ensures { OnOk result (text.new.items ≡ text.old.items ++ other_text (name_at recording.now.names key) (line_at attempts.now txn) flaw) }
{
    push_words(text, " beside line ")?;
    push_line(text, attempts, txn)?;
    push_done(text, recording, key, flaw)
}

#[tactic(auto, unfolding(crate::specs::Lists::done_text))]
fn push_done(
    text: &mut Vec<u8>,
    recording: &Recording,
    key: u64,
    flaw: Flaw,
) -> Result<(), NoMemory>
    ensures { OnOk result (text.new.items ≡ text.old.items ++ done_text (name_at recording.now.names key) flaw) }
{
    push_words(text, beside_text(flaw))?;
    push_name(text, recording, key)?;
    push_words(text, "\n")
}
