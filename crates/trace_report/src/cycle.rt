// A cycle, one line a step.
ghost use Rattle.std.specs.Prelude.{◌≡◌, ◌++◌, OnOk};
ghost use Rattle.trace_report.specs.Parts.{name_at};
ghost use Rattle.trace_report.specs.Cycle.{cycle_text, first_text, read_text, second_text, step_text, way_text, written_text};

use crate::parts::{push_line, push_name};
use crate::step::{Step, Way};
use stamp_base::NoMemory;
use trace_index::Attempt;
use trace_reading::{Recording, push_words};

/// Adds the cycle: for each step the two transactions by their lines, what each did, and why the first comes before the other.
/// NoMemory where memory is refused.
pub fn push_cycle(
    text: &mut Vec<u8>,
    recording: &Recording,
    attempts: &[Attempt],
    steps: &[Step],
) -> Result<(), NoMemory>
    ensures { OnOk result (text.new.items ≡ text.old.items ++ cycle_text recording.now.names attempts.now steps.now) }
{
    for step in steps {
        push_step(text, recording, attempts, step)?;
    }
    Ok(())
}

fn push_step(
    text: &mut Vec<u8>,
    recording: &Recording,
    attempts: &[Attempt],
    step: &Step,
) -> Result<(), NoMemory>
    ensures { OnOk result (text.new.items ≡ text.old.items ++ step_text recording.now.names attempts.now step.now) }
{
    push_words(text, "  line ")?;
    push_line(text, attempts, step.from)?;
    push_first(text, recording, step.way, step.key)?;
    push_words(text, " before line ")?;
    push_line(text, attempts, step.to)?;
    push_second(text, recording, step.way, step.key)?;
    push_words(text, " (")?;
    push_words(text, way_text(step.way))?;
    push_words(text, ")\n")
}

/// Adds what the first of the two did at the key.
fn push_first(text: &mut Vec<u8>, recording: &Recording, way: Way, key: u64) -> Result<(), NoMemory>
    ensures { OnOk result (text.new.items ≡ text.old.items ++ first_text way (name_at recording.now.names key)) }
{
    match way {
        Way::Next | Way::Read => push_written(text, recording, key),
        Way::Missed => push_read(text, recording, key),
        Way::Session | Way::Time => Ok(()),
    }
}

/// Adds what the second did there.
fn push_second(
    text: &mut Vec<u8>,
    recording: &Recording,
    way: Way,
    key: u64,
) -> Result<(), NoMemory>
    ensures { OnOk result (text.new.items ≡ text.old.items ++ second_text way (name_at recording.now.names key)) }
{
    match way {
        Way::Next | Way::Missed => push_written(text, recording, key),
        Way::Read => push_read(text, recording, key),
        Way::Session | Way::Time => Ok(()),
    }
}

fn push_written(text: &mut Vec<u8>, recording: &Recording, key: u64) -> Result<(), NoMemory>
    ensures { OnOk result (text.new.items ≡ text.old.items ++ written_text (name_at recording.now.names key)) }
{
    push_words(text, " w ")?;
    push_name(text, recording, key)
}

fn push_read(text: &mut Vec<u8>, recording: &Recording, key: u64) -> Result<(), NoMemory>
    ensures { OnOk result (text.new.items ≡ text.old.items ++ read_text (name_at recording.now.names key)) }
{
    push_words(text, " r ")?;
    push_name(text, recording, key)
}

fn way_text(way: Way) -> &'static str
    ensures { result.now ≡ way_text way }
{
    match way {
        Way::Next => "ww",
        Way::Read => "wr",
        Way::Missed => "rw",
        Way::Session => "session",
        Way::Time => "real time",
    }
}
