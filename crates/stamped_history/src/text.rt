// The text of a history.
ghost use Rattle.std.specs.Prelude.{◌≡◌, ◌++◌, IfOk, OnOk, flat_map};
ghost use Rattle.history_text.specs.Text.{printed, text_of as text_in};

use crate::limits::{Limit, NoHistory};
use history_book::Item;
use history_text::{LineBuf, print_item};
use stamp_base::BYTE_LIMIT;
use std::alloc::{AllocError, Global};

/// The text of the items. Past where it has more bytes than a history may; NoMemory where memory is refused.
pub fn text_of(alloc: Global, items: &[Item]) -> Result<Vec<u8>, NoHistory>
    ensures { IfOk result (λ text. text.items ≡ printed items.now) }
{
    let mut text = Vec::new(alloc);
    push_lines(&mut text, items)?;
    if text.len() > BYTE_LIMIT {
        return Err(NoHistory::Past(Limit::Bytes));
    }
    Ok(text)
}

fn push_lines(text: &mut Vec<u8>, items: &[Item]) -> Result<(), AllocError>
    ensures { OnOk result (text.new.items ≡ text.old.items ++ flat_map text_in items.now) }
{
    for item in items {
        push_line(text, item)?;
    }
    Ok(())
}

fn push_line(text: &mut Vec<u8>, item: &Item) -> Result<(), AllocError>
    ensures { OnOk result (text.new.items ≡ text.old.items ++ text_in item.now) }
{
    let mut line = LineBuf::new();
    print_item(item, &mut line);
    text.extend_from_slice(line.as_slice())
}
