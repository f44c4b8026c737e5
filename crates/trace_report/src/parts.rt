// The names and lines that are told.
ghost use Rattle.std.specs.Prelude.{◌≡◌, ◌++◌, decimal, OnOk};
ghost use Rattle.trace_report.specs.Parts.{line_at, name_at};

use stamp_base::NoMemory;
use trace_index::Attempt;
use trace_reading::{Recording, push_number};

/// Adds the name of this number. NoMemory where memory is refused.
pub fn push_name(text: &mut Vec<u8>, recording: &Recording, number: u64) -> Result<(), NoMemory>
    ensures { OnOk result (text.new.items ≡ text.old.items ++ name_at recording.now.names number) }
{
    if let Some(name) = recording.name(number) {
        text.extend_from_slice(name)?;
    }
    Ok(())
}

/// Adds the number of the line of the transaction at this place. NoMemory where memory is refused.
pub fn push_line(text: &mut Vec<u8>, attempts: &[Attempt], txn: usize) -> Result<(), NoMemory>
    ensures { OnOk result (text.new.items ≡ text.old.items ++ decimal (line_at attempts.now txn)) }
{
    push_number(text, line_at(attempts, txn))
}

fn line_at(attempts: &[Attempt], txn: usize) -> u64
    ensures { result ≡ line_at attempts.now txn }
{
    match attempts.get(txn) {
        Some(attempt) => attempt.line,
        None => 0,
    }
}
