// A session writes a value at a key.
ghost use Rattle.std.specs.Prelude.{◌≡◌, ◌≤◌, ◌++◌, ◌∷◌, [], Err, None, Some, IfSome};
ghost use Rattle.system_parts.specs.Rows.{IsBare};
ghost use Rattle.machine.specs.Events.Write.{write_refused, write_on, write_open as write_open_on, write_asks};
ghost use Rattle.event_parts.specs.Made.{Makes, Asks};

use cell_store::{Cells, StoreError};
use event_parts::{Client, Stopped, ledger};
use history_book::{Actor, Book, Ending, Item};
use port_io::Weather;
use stamp_base::{KeyNo, SessionNo, Stamp, Store, Value};

/// The session writes the value at the key, as a bare cell whose version is its start: refused as gone, without a
/// transaction, busy, or with too many keys. A failed write ends the transaction, with the key among those that are undone.
pub fn write<W: Weather>(
    weather: &mut W,
    book: &mut Book,
    client: &mut Client,
    cells: &mut Cells,
    session: SessionNo,
    key: KeyNo,
    value: Value,
) -> Result<(), Stopped>
    requires { write_refused client.old key ≡ None → IfSome client.old.entry.start (λ start. IsBare cells.old.rows key start) }
    ensures made { Makes (write_on session key value (W.ahead weather.old Store.Cells 0) client.old cells.old.rows)
        (client.old, cells.old.rows) (client.new, cells.new.rows) book.old.items book.new.items result }
    ensures spare { book.new.spare ≡ book.old.spare }
    ensures asked { Asks result (write_asks key client.old) (W.ahead weather.old) (W.ahead weather.new)
        (W.faults weather.old) (W.faults weather.new) }
{
    if let Err(cause) = client.check_write(key) {
        return ledger::refuse(book, Actor::Session(session), cause);
    }
    match client.start() {
        Some(start) => write_open(weather, book, client, cells, session, start, key, value),
        None => Ok(()),
    }
}

fn write_open<W: Weather>(
    weather: &mut W,
    book: &mut Book,
    client: &mut Client,
    cells: &mut Cells,
    session: SessionNo,
    start: Stamp,
    key: KeyNo,
    value: Value,
) -> Result<(), Stopped>
    requires free { write_refused client.old key ≡ None }
    requires bare { IsBare cells.old.rows key start }
    ensures made { Makes (write_open_on session key value (W.ahead weather.old Store.Cells 0) client.old cells.old.rows None (Some start))
        (client.old, cells.old.rows) (client.new, cells.new.rows) book.old.items book.new.items result }
    ensures spare { book.new.spare ≡ book.old.spare }
    ensures asked { Asks result (Some Store.Cells) (W.ahead weather.old) (W.ahead weather.new)
        (W.faults weather.old) (W.faults weather.new) }
{
    book.make_room(2)?;
    match cells.put(weather, key, start, value) {
        Ok(()) => {
            client.wrote(key);
            book.append_in_room(Item::Write {
                session,
                start,
                key,
                value,
            });
            Ok(())
        }
        Err(StoreError::StoreFault) => {
            client.wrote(key);
            client.aborted();
            tell_failed(book, session, start)
        }
        Err(StoreError::NoMemory) => Err(Stopped::NoMemory),
    }
}

/// The write failed, and its transaction has ended.
fn tell_failed(book: &mut Book, session: SessionNo, start: Stamp) -> Result<(), Stopped>
    requires { 2 ≤ book.old.room }
    ensures items { book.new.items ≡ book.old.items ++ Item.Fault (Actor.Session session) Store.Cells ∷ Item.End session start Ending.Aborted ∷ [] }
    ensures spare { book.new.spare ≡ book.old.spare }
    ensures answer { result ≡ Err (Stopped.StoreFault Store.Cells) }
{
    let actor = Actor::Session(session);
    let store = Store::Cells;
    book.append_in_room(Item::Fault { actor, store });
    let how = Ending::Aborted;
    book.append_in_room(Item::End {
        session,
        start,
        how,
    });
    Err(Stopped::StoreFault(Store::Cells))
}
