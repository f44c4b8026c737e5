// The text of an archive: what a reader finds there at each key, and how many rows there were and are.
ghost use Rattle.std.specs.Prelude.{◌≡◌, ◌≤◌, ◌++◌, Some, length, IfOk, OnOk};
ghost use Rattle.cell_compaction.specs.Rest.{read_from};
ghost use Rattle.omid_top.specs.Compaction.{archive_text, counts_line, found_line};

use cell_compaction::{Archive, TooOld};
use history_text::LineBuf;
use stamp_base::{KeyNo, NoMemory, Stamp, TxnId, Value};
use std::alloc::Global;

/// What a reader at the water finds in the archive of that water, and the numbers of rows. NoMemory where memory is refused.
pub fn text_of(alloc: Global, archive: &Archive, water: Stamp) -> Result<Vec<u8>, NoMemory>
    requires { archive.now.water ≡ water }
    ensures { IfOk result (λ text. text.items ≡ archive_text (read_from archive.now.rows water) archive.now.before (length archive.now.rows) water) }
{
    let mut text = Vec::new(alloc);
    for number in 0..KeyNo::COUNT {
        let Some(key) = KeyNo::new(number as u64) else {
            unreachable!();
        };
        push_found(&mut text, archive, water, key)?;
    }
    push_counts(&mut text, archive, water)?;
    Ok(text)
}

/// Adds the line of the key, where the reader finds something there.
#[tactic(auto, using(crate::proofs::ArchiveTexts::found_there, crate::proofs::ArchiveTexts::found_nowhere))]
fn push_found(
    text: &mut Vec<u8>,
    archive: &Archive,
    start: Stamp,
    key: KeyNo,
) -> Result<(), NoMemory>
    requires { archive.now.water ≤ start }
    ensures { OnOk result (text.new.items ≡ text.old.items ++ found_line key (read_from archive.now.rows start key)) }
{
    match archive.read_at(start, key) {
        Ok(Some((version, value))) => push_line(text, key, version, &value),
        Ok(None) => Ok(()),
        Err(TooOld { .. }) => unreachable!(),
    }
}

fn push_line(text: &mut Vec<u8>, key: KeyNo, version: TxnId, value: &Value) -> Result<(), NoMemory>
    ensures { OnOk result (text.new.items ≡ text.old.items ++ found_line key (Some (record { from = version; value = value.now }))) }
{
    let mut line = LineBuf::new();
    line.push_field(b"k", key.value());
    line.push_field(b" from=", version.value());
    line.push_text(b" ");
    line.push_text(value.as_slice());
    line.push_text(b"\n");
    text.extend_from_slice(line.as_slice())?;
    Ok(())
}

fn push_counts(text: &mut Vec<u8>, archive: &Archive, water: Stamp) -> Result<(), NoMemory>
    ensures { OnOk result (text.new.items ≡ text.old.items ++ counts_line archive.now.before (length archive.now.rows) water) }
{
    let mut line = LineBuf::new();
    line.push_field(b"rows before=", archive.before());
    line.push_field(b" after=", archive.after());
    line.push_field(b" water=", water.value());
    line.push_text(b"\n");
    text.extend_from_slice(line.as_slice())?;
    Ok(())
}
