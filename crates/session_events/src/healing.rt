// A session sets the shadow that its last read offers.
ghost use Rattle.std.specs.Prelude.{◌≡◌, Some, IfSome};
ghost use Rattle.system_parts.specs.Rows.{HasOnly};
ghost use Rattle.system_parts.specs.Pairs.{Pairs};
ghost use Rattle.machine.specs.Events.Heal.{heal_on, heal_at, heal_asks, offer_of, no_offer_cause as no_offer_cause_of};
ghost use Rattle.event_parts.specs.Made.{Makes, Asks};

use cell_store::{Cells, StoreFault};
use event_parts::{Client, Stopped, ledger};
use history_book::{Actor, Book, Cause, Item, StoreStep};
use port_io::Weather;
use stamp_base::{KeyNo, SessionNo, Stamp, Store, TxnId};
use system_parts::State;

/// The session sets the shadow that it was offered: refused as gone, or idle where there is no offer. Done or failed, the
/// offer is used up. The commit table is not looked at.
pub fn heal<W: Weather>(
    weather: &mut W,
    book: &mut Book,
    client: &mut Client,
    cells: &mut Cells,
    session: SessionNo,
) -> Result<(), Stopped>
    requires { IfSome (offer_of client.old) (λ offer. HasOnly cells.old.rows offer.0 offer.1 offer.2) }
    ensures made { (pairs : Pairs) → Makes (heal_on session (W.ahead weather.old Store.Cells 0) client.old cells.old.rows pairs)
        (client.old, cells.old.rows) (client.new, cells.new.rows) book.old.items book.new.items result }
    ensures spare { book.new.spare ≡ book.old.spare }
    ensures asked { Asks result (heal_asks client.old) (W.ahead weather.old) (W.ahead weather.new)
        (W.faults weather.old) (W.faults weather.new) }
{
    match client.offer() {
        None => ledger::refuse(
            book,
            Actor::Session(session),
            no_offer_cause(client.state()),
        ),
        Some((key, txn, commit)) => heal_offered(
            weather, book, client, cells, session, key, txn, commit,
        ),
    }
}

fn heal_offered<W: Weather>(
    weather: &mut W,
    book: &mut Book,
    client: &mut Client,
    cells: &mut Cells,
    session: SessionNo,
    key: KeyNo,
    txn: TxnId,
    commit: Stamp,
) -> Result<(), Stopped>
    requires { HasOnly cells.old.rows key txn commit }
    ensures made { (pairs : Pairs) → Makes (heal_at session (W.ahead weather.old Store.Cells 0) client.old cells.old.rows pairs (Some (key, txn, commit)))
        (client.old, cells.old.rows) (client.new, cells.new.rows) book.old.items book.new.items result }
    ensures spare { book.new.spare ≡ book.old.spare }
    ensures asked { Asks result (Some Store.Cells) (W.ahead weather.old) (W.ahead weather.new)
        (W.faults weather.old) (W.faults weather.new) }
{
    book.make_room(2)?;
    let set = cells.set_shadow(weather, key, txn, commit);
    client.offers_none();
    let actor = Actor::Session(session);
    match set {
        Ok(()) => {
            let what = StoreStep::Shadow { key, txn, commit };
            book.append_in_room(Item::Step { actor, what });
            Ok(())
        }
        Err(StoreFault) => ledger::fail(book, actor, Store::Cells, None),
    }
}

fn no_offer_cause(state: State) -> Cause
    ensures { result ≡ no_offer_cause_of state }
{
    match state {
        State::Gone => Cause::Gone,
        _ => Cause::Idle,
    }
}
