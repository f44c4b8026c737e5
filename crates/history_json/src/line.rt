// An item's line of JSON, written and read.
ghost use Rattle.std.specs.Prelude.{◌≡◌, ◌≤◌, ◌↔◌, length, IfOk, IfSome, IsTrue, Some, string_bytes};
ghost use Rattle.history_book.specs.declared.item.Item.{Item};
ghost use Rattle.history_text.specs.Fits.{FitsItem};
ghost use Rattle.history_json.specs.Json.{json_line, json_text, IsJsonLineOf};

use crate::glance::glance;
use crate::item::item_of;
use crate::templates::print_object;
use crate::texts::text_of;
use history_book::Item;
use history_text::LineBuf;
use serde_json::Value;
use stamp_base::NoMemory;
use std::alloc::Global;

/// Leaves the item's line as a history prints it, with its line feed, in the buffer, and nothing else. It takes no memory.
pub fn print_line(item: &Item, line: &mut LineBuf)
    ensures text { line.new ≡ json_text item.now }
    ensures fits { FitsItem item.now }
    ensures room { length (json_text item.now) ≤ 256 }
{
    print_object(item, line);
    line.push_text(b"\n");
}

/// The item's line without its line feed. `from_line` reads it as the item. NoMemory where memory is refused.
pub fn to_line(alloc: Global, item: &Item) -> Result<String, NoMemory>
    ensures text { IfOk result (λ line. string_bytes line ≡ json_line item.now) }
    ensures read_again { IfOk result (λ line. IsJsonLineOf (string_bytes line) item.now) }
{
    let mut line = LineBuf::new();
    print_object(item, &mut line);
    Ok(String::from_str(alloc, text_of(line.as_slice()))?)
}

/// The item whose line of JSON the bytes are. Blanks, escapes and the order of the members are free. None where they are none.
/// NoMemory where memory is refused. It stands apart from the loop that reads a history's lines.
#[inline(never)]
pub fn from_line(alloc: Global, line: &[u8]) -> Result<Option<Item>, NoMemory>
    ensures found { IfOk result (λ found. IfSome found (IsJsonLineOf line.now)) }
    ensures fits { IfOk result (λ found. IfSome found FitsItem) }
    ensures only { IfOk result (λ found. (item : Item) → FitsItem item → IsJsonLineOf line.now item → found ≡ Some item) }
{
    match printed_item(line) {
        Some(item) => Ok(Some(item)),
        None => read_value(alloc, line),
    }
}

/// The item whose line of JSON the bytes are, by way of a value. It stands apart, so that a printed line does not pay
/// for its locals.
#[inline(never)]
fn read_value(alloc: Global, line: &[u8]) -> Result<Option<Item>, NoMemory>
    ensures found { IfOk result (λ found. IfSome found (IsJsonLineOf line.now)) }
    ensures fits { IfOk result (λ found. IfSome found FitsItem) }
    ensures only { IfOk result (λ found. (item : Item) → FitsItem item → IsJsonLineOf line.now item → found ≡ Some item) }
{
    match Value::from_slice(alloc, line) {
        Ok(value) => Ok(item_of(alloc, &value)?),
        Err(error) if error.is_memory() => Err(NoMemory),
        Err(_) => Ok(None),
    }
}

/// The item whose line of JSON the bytes are, where they are that line as it is printed. Mostly they are, and this is
/// far quicker than reading a value. A line with an escape is left to the reader of values.
fn printed_item(line: &[u8]) -> Option<Item>
    ensures found { IfSome result (IsJsonLineOf line.now) }
    ensures fits { IfSome result FitsItem }
{
    let item = glance(line)?;
    let same = is_printed(line, &item);
    if same { Some(item) } else { None }
}

/// Whether the bytes are the item's line as it is printed.
fn is_printed(line: &[u8], item: &Item) -> bool
    ensures same { IsTrue result ↔ (line.now ≡ json_line item.now) }
    ensures fits { FitsItem item.now }
    ensures again { IsJsonLineOf (json_line item.now) item.now }
{
    let mut printed = LineBuf::new();
    print_object(item, &mut printed);
    line == printed.as_slice()
}

/// The item's line as a history prints it, with its line feed. NoMemory where memory is refused.
pub fn printed_line(alloc: Global, item: &Item) -> Result<String, NoMemory>
    ensures { IfOk result (λ line. string_bytes line ≡ json_text item.now) }
{
    let mut line = to_line(alloc, item)?;
    line.push_str("\n")?;
    Ok(line)
}
