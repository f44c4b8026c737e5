// Reading a history of either format: the items that its lines are.
ghost use Rattle.std.specs.Prelude.{◌≡◌, ◌≤◌, length, IfErr, IfOk, IfSome, OnOk, Some};
ghost use Rattle.history_text.specs.Fits.{FitsItem};
ghost use Rattle.history_book.specs.declared.item.Item.{Item};
ghost use Rattle.history_json.specs.History.{line_format, format_of, IsLineOf, AreItems, IsNoItem, IsFaultOf, IsFaultAt, AddsLine};

use crate::line::from_line;
use history_book::Item;
use history_reading::{HistoryFault, cut_line, read_item};
use stamp_base::{BYTE_LIMIT, NoMemory};
use std::alloc::Global;

/// How the lines of a history are written.
#[derive(Clone, Copy, Debug, PartialEq, Eq)]
pub enum Format {
    /// Lines of words.
    Text,
    /// Lines of JSON, an object each.
    Json,
}

/// The items that the lines are, all in one format: JSON where the first line that says something begins with a brace. A line of no
/// bytes says nothing, and the last line may end without a line feed. At, with the number of the first line that is no item, from
/// 1, or 0 where the bytes are more than 16,777,216; NoMemory where memory is refused.
pub fn read_history(alloc: Global, bytes: &[u8]) -> Result<Vec<Item>, HistoryFault>
    ensures read { IfOk result (λ items. AreItems bytes.now items.items) }
    ensures bad { IfErr result (λ fault. IsFaultOf bytes.now fault) }
{
    if bytes.len() > BYTE_LIMIT {
        return Err(HistoryFault::At { line: 0 });
    }
    read_lines(alloc, bytes)
}

/// The format of the bytes' history.
pub fn format_of(bytes: &[u8]) -> Format
    ensures { result ≡ format_of bytes.now }
{
    let mut rest = bytes;
    while let Some((line, more)) = cut_line(rest) {
        if !line.is_empty() {
            return line_format(line);
        }
        rest = more;
    }
    line_format(rest)
}

/// The format that a history's first line shows.
fn line_format(line: &[u8]) -> Format
    ensures { result ≡ line_format line.now }
{
    match line {
        [b'{', ..] => Format::Json,
        _ => Format::Text,
    }
}

fn read_lines(alloc: Global, bytes: &[u8]) -> Result<Vec<Item>, HistoryFault>
    requires { length bytes.now ≤ BYTE_LIMIT }
    ensures read { IfOk result (λ items. AreItems bytes.now items.items) }
    ensures bad { IfErr result (λ fault. IsFaultOf bytes.now fault) }
{
    let format = format_of(bytes);
    let mut items = Vec::new(alloc);
    let mut rest = bytes;
    let mut done = 0;
    while let Some((line, more)) = cut_line(rest) {
        add_line(alloc, &mut items, format, done + 1, line)?;
        rest = more;
        done += 1;
    }
    // What follows the last line feed is a line too, and mostly an empty one.
    add_line(alloc, &mut items, format, done + 1, rest)?;
    Ok(items)
}

/// Adds the item that the line of this number is, where it says something.
fn add_line(
    alloc: Global,
    items: &mut Vec<Item>,
    format: Format,
    number: u64,
    line: &[u8],
) -> Result<(), HistoryFault>
    ensures read { OnOk result (AddsLine format line.now items.old.items items.new.items) }
    ensures right { OnOk result (IsNoItem format line.now → ⊥) }
    ensures bad { IfErr result (λ fault. IsFaultAt format number line.now fault) }
{
    if line.is_empty() {
        return Ok(());
    }
    match read_line(alloc, format, line) {
        Ok(Some(item)) => Ok(items.extend_from_slice(&[item])?),
        Ok(None) => Err(HistoryFault::At { line: number }),
        Err(NoMemory) => Err(HistoryFault::NoMemory),
    }
}

/// The item that the line is in this format.
fn read_line(alloc: Global, format: Format, line: &[u8]) -> Result<Option<Item>, NoMemory>
    ensures found { IfOk result (λ found. IfSome found (IsLineOf format line.now)) }
    ensures fits { IfOk result (λ found. IfSome found FitsItem) }
    ensures only { IfOk result (λ found. (item : Item) → FitsItem item → IsLineOf format line.now item → found ≡ Some item) }
{
    match format {
        Format::Text => Ok(read_item(line)),
        Format::Json => from_line(alloc, line),
    }
}
