// A session is gone for good.
ghost use Rattle.std.specs.Prelude.{◌≡◌};
ghost use Rattle.machine.specs.Events.Vanish.{vanish_on};
ghost use Rattle.event_parts.specs.Made.{Makes};

use event_parts::{Client, Stopped, ledger};
use history_book::{Actor, Book, Item};
use stamp_base::SessionNo;

/// The session vanishes: refused where it is gone. Its cells, its entry in the commit table and its request stay.
pub fn vanish(book: &mut Book, client: &mut Client, session: SessionNo) -> Result<(), Stopped>
    ensures made { Makes (vanish_on session client.old) client.old client.new book.old.items book.new.items result }
    ensures spare { book.new.spare ≡ book.old.spare }
{
    if let Err(cause) = client.check_vanish() {
        return ledger::refuse(book, Actor::Session(session), cause);
    }
    book.append(Item::Vanish { session })?;
    client.vanished();
    Ok(())
}
