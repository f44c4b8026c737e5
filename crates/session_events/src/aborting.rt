// A session ends its transaction without a commit.
ghost use Rattle.std.specs.Prelude.{◌≡◌};
ghost use Rattle.machine.specs.Events.Abort.{abort_on};
ghost use Rattle.event_parts.specs.Made.{Makes};

use event_parts::{Client, Stopped, ledger};
use history_book::{Actor, Book, Ending, Item};
use stamp_base::SessionNo;

/// The session ends its transaction: refused as gone, without a transaction or busy. What it wrote is to be undone.
pub fn abort(book: &mut Book, client: &mut Client, session: SessionNo) -> Result<(), Stopped>
    ensures made { Makes (abort_on session client.old) client.old client.new book.old.items book.new.items result }
    ensures spare { book.new.spare ≡ book.old.spare }
{
    if let Err(cause) = client.check_work() {
        return ledger::refuse(book, Actor::Session(session), cause);
    }
    match client.start() {
        Some(start) => {
            let how = Ending::Aborted;
            book.append(Item::End {
                session,
                start,
                how,
            })?;
            client.aborted();
            Ok(())
        }
        None => Ok(()),
    }
}
