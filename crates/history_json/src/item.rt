// The item that a JSON value is.
ghost use Rattle.std.specs.Prelude.{◌≡◌, ◌↔◌, IfOk, IfSome, IsTrue, Some};
ghost use Rattle.serde_json.specs.View.{view};
ghost use Rattle.history_book.specs.declared.item.Item.{Item};
ghost use Rattle.history_text.specs.Fits.{FitsItem};
ghost use Rattle.history_json.specs.Object.{data_of};

use crate::objects::are_members_of;
use crate::words::words_of;
use history_book::Item;
use history_reading::read_item;
use serde_json::Value;
use std::alloc::{AllocError, Global};

/// The item that the value is. None where it is none. AllocError where memory is refused.
pub fn item_of(alloc: Global, value: &Value) -> Result<Option<Item>, AllocError>
    ensures found { IfOk result (λ found. IfSome found (λ item. view value.now ≡ data_of item)) }
    ensures fits { IfOk result (λ found. IfSome found FitsItem) }
    ensures only { IfOk result (λ found. (item : Item) → FitsItem item → view value.now ≡ data_of item → found ≡ Some item) }
{
    let Some(item) = candidate(alloc, value)? else {
        return Ok(None);
    };
    let same = is_object_of(value, &item);
    Ok(if same { Some(item) } else { None })
}

/// An item that the value may be: its object decides.
fn candidate(alloc: Global, value: &Value) -> Result<Option<Item>, AllocError>
    ensures fits { IfOk result (λ found. IfSome found FitsItem) }
    ensures only { IfOk result (λ found. (item : Item) → FitsItem item → view value.now ≡ data_of item → found ≡ Some item) }
{
    match words_of(alloc, value)? {
        Some(words) => Ok(read_item(&words)),
        None => Ok(None),
    }
}

/// Whether the value is the item's object. It takes no memory.
fn is_object_of(value: &Value, item: &Item) -> bool
    ensures { IsTrue result ↔ (view value.now ≡ data_of item.now) }
{
    match value.as_object() {
        Some(found) => are_members_of(found, item),
        None => false,
    }
}
