// What is told of a trace.
ghost use Rattle.std.specs.Prelude.{◌≡◌, ◌++◌, OnOk};
ghost use Rattle.trace_report.specs.Verdict.{holds_text, level_text, refused_text, unclear_text, undecided_text, wanted_text, what_text, where_text, why_text, wrong_read_text};

use crate::parts::{push_line, push_name};
use stamp_base::NoMemory;
use trace_index::{Attempt, Unclear};
use trace_reading::{Recording, push_number, push_words};
use trace_rules::{Level, Wanted};

/// Adds that the trace is as asked, and how many transactions it has. NoMemory where memory is refused.
pub fn push_holds(
    text: &mut Vec<u8>,
    level: Level,
    wanted: Wanted,
    transactions: usize,
) -> Result<(), NoMemory>
    ensures { OnOk result (text.new.items ≡ text.old.items ++ holds_text level wanted transactions) }
{
    push_words(text, level_text(level))?;
    push_words(text, wanted_text(wanted))?;
    push_words(text, " transactions=")?;
    push_number(text, transactions as u64)?;
    push_words(text, "\n")
}

/// Adds that the trace is not as asked, with the name of what is wrong. NoMemory where memory is refused.
pub fn push_refused(
    text: &mut Vec<u8>,
    level: Level,
    wanted: Wanted,
    name: &str,
) -> Result<(), NoMemory>
    ensures { OnOk result (text.new.items ≡ text.old.items ++ refused_text level wanted name.now) }
{
    push_words(text, "not ")?;
    push_words(text, level_text(level))?;
    push_words(text, wanted_text(wanted))?;
    push_words(text, ": ")?;
    push_words(text, name)?;
    push_words(text, "\n")
}

/// Adds a wrong read of the transaction at the key. NoMemory where memory is refused.
pub fn push_wrong_read(
    text: &mut Vec<u8>,
    recording: &Recording,
    attempts: &[Attempt],
    txn: usize,
    key: u64,
) -> Result<(), NoMemory>
    ensures { OnOk result (text.new.items ≡ text.old.items ++ wrong_read_text recording.now.names attempts.now txn key) }
{
    push_words(text, "  line ")?;
    push_line(text, attempts, txn)?;
    push_words(text, " r ")?;
    push_name(text, recording, key)?;
    push_words(text, "\n")
}

/// Adds that the order of the key's writers is not decided. NoMemory where memory is refused.
pub fn push_undecided(text: &mut Vec<u8>, recording: &Recording, key: u64) -> Result<(), NoMemory>
    ensures { OnOk result (text.new.items ≡ text.old.items ++ undecided_text recording.now.names key) }
{
    push_words(text, "not decided: writers of ")?;
    push_name(text, recording, key)?;
    push_words(text, "\n")
}

/// Adds of which operation it is not clear who wrote what. NoMemory where memory is refused.
pub fn push_unclear(
    text: &mut Vec<u8>,
    recording: &Recording,
    attempts: &[Attempt],
    txn: usize,
    member: u64,
    key: u64,
    value: u64,
    what: Unclear,
) -> Result<(), NoMemory>
    ensures { OnOk result (text.new.items ≡ text.old.items ++ unclear_text recording.now.names attempts.now txn member key value what) }
{
    push_where(text, attempts, txn, member)?;
    push_what(text, recording, value, what)?;
    push_words(text, why_text(what))?;
    push_name(text, recording, key)?;
    push_words(text, "\n")
}

fn level_text(level: Level) -> &'static str
    ensures { result.now ≡ level_text level }
{
    match level {
        Level::Snapshot => "snapshot isolated",
        Level::Serializable => "serializable",
    }
}

fn wanted_text(wanted: Wanted) -> &'static str
    ensures { result.now ≡ wanted_text wanted }
{
    match wanted {
        Wanted::Nothing => "",
        Wanted::Sessions => " in sessions",
        Wanted::RealTime => " in real time",
    }
}

fn why_text(what: Unclear) -> &'static str
    ensures { result.now ≡ why_text what }
{
    match what {
        Unclear::WrittenTwice => " is written twice at ",
        Unclear::WrittenByNobody => " is read and written by nobody at ",
        Unclear::VersionTwice => " is told of two writers at ",
        Unclear::BothWays => "a list and a single value are told at ",
    }
}

/// Adds the line and member of an operation.
#[tactic(auto, unfolding(crate::specs::Verdict::where_text))]
fn push_where(
    text: &mut Vec<u8>,
    attempts: &[Attempt],
    txn: usize,
    member: u64,
) -> Result<(), NoMemory>
    ensures { OnOk result (text.new.items ≡ text.old.items ++ where_text attempts.now txn member) }
{
    push_words(text, "trace line ")?;
    push_line(text, attempts, txn)?;
    push_words(text, ": value[")?;
    push_number(text, member)?;
    push_words(text, "]: ")
}

/// Adds a version by its number, or a value by its name.
fn push_what(
    text: &mut Vec<u8>,
    recording: &Recording,
    value: u64,
    what: Unclear,
) -> Result<(), NoMemory>
    ensures { OnOk result (text.new.items ≡ text.old.items ++ what_text recording.now.names value what) }
{
    match what {
        Unclear::VersionTwice => {
            push_words(text, "version ")?;
            push_number(text, value)
        }
        Unclear::WrittenTwice | Unclear::WrittenByNobody => push_name(text, recording, value),
        Unclear::BothWays => Ok(()),
    }
}
