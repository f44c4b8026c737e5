// A tick and a note, which touch nothing but the clock and the posted names.
ghost use Rattle.std.specs.Prelude.{◌≡◌, IfOk, OnErr, Some};
ghost use Rattle.split_parts.specs.Acts.{Acts};
ghost use Rattle.split_parts.specs.Direct.{item_noted};
ghost use Rattle.split_parts.specs.Parts.{seen};

use crate::{Acted, Lent};
use history_book::{Book, Item};
use machine::Event;
use stamp_base::NoMemory;
use std::alloc::Global;

/// The item of a tick or a note.
pub(crate) fn noted_item(event: &Event) -> Option<Item>
    ensures { result ≡ item_noted event.now }
{
    match event {
        Event::Tick { to } => Some(Item::Tick { to: *to }),
        Event::Note { actor, note } => Some(Item::Note {
            actor: *actor,
            note: *note,
        }),
        _ => None,
    }
}

/// The event of which this is the item.
pub(crate) fn act_noted(
    alloc: Global,
    lent: &mut Lent<'_>,
    event: &Event,
    item: Item,
) -> Result<Acted, NoMemory>
    requires { item_noted event.now ≡ Some item }
    ensures acted { IfOk result (λ acted. Acts (seen lent.old) (seen lent.new) event.now acted) }
    ensures refused { OnErr result (seen lent.new ≡ seen lent.old) }
{
    let name = lent.new_name(event)?;
    let mut book = Book::new(alloc);
    book.append(item)?;
    lent.note(event, name);
    Ok(Acted {
        items: book.into_items(),
        stopped: None,
    })
}
