// The clock ticks, and actors note their part in the script.
ghost use Rattle.std.specs.Prelude.{◌≡◌};
ghost use Rattle.machine.specs.Effect.{done};
ghost use Rattle.machine.specs.Events.Clock.{tick_items, note_items};
ghost use Rattle.event_parts.specs.Made.{Makes, no_parts};

use event_parts::Stopped;
use history_book::{Actor, Book, Item, Note};

/// The base clock stands at `to`. NoMemory where memory is refused.
pub fn tick(book: &mut Book, to: u64) -> Result<(), Stopped>
    ensures made { Makes (done no_parts (tick_items to)) no_parts no_parts book.old.items book.new.items result }
    ensures spare { book.new.spare ≡ book.old.spare }
{
    book.append(Item::Tick { to })?;
    Ok(())
}

/// The actor notes its part in the script. NoMemory where memory is refused.
pub fn note(book: &mut Book, actor: Actor, note: Note) -> Result<(), Stopped>
    ensures made { Makes (done no_parts (note_items actor note)) no_parts no_parts book.old.items book.new.items result }
    ensures spare { book.new.spare ≡ book.old.spare }
{
    book.append(Item::Note { actor, note })?;
    Ok(())
}
