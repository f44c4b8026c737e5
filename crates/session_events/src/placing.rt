// A session places the record of a commit that was handed to it.
ghost use Rattle.std.specs.Prelude.{◌≡◌, ◌≤◌, ◌++◌, ◌∷◌, [], List, Err, Some};
ghost use Rattle.system_parts.specs.Rows.{Row};
ghost use Rattle.system_parts.specs.SessionSteps.{handed_commit};
ghost use Rattle.machine.specs.Events.Place.{place_on};
ghost use Rattle.machine.specs.Events.Step.{placed_among, step_on, step_asks};
ghost use Rattle.event_parts.specs.Made.{Makes, Asks, fate_ahead};
ghost use Rattle.event_parts.specs.Kept.{made_items};

use commit_table::{Put, StoreFault, Table};
use event_parts::{Client, Stopped, ledger};
use history_book::{Actor, Book, Cause, Item, StoreStep};
use port_io::Weather;
use stamp_base::{Mark, SessionNo, Stamp, Store};

/// The session places the record of its commit, unless a mark stands in its place: the transaction has its commit, or is to be
/// undone and is refused as Invalid. Where the call fails the outcome is open, which is told as Open. No cell changes.
pub(crate) fn place<W: Weather>(
    weather: &mut W,
    book: &mut Book,
    client: &mut Client,
    table: &mut Table,
    session: SessionNo,
    start: Stamp,
    commit: Stamp,
) -> Result<(), Stopped>
    requires { handed_commit client.old.entry ≡ Some (start, commit) }
    ensures made { (rows : List Row) → Makes (step_on session (fate_ahead (step_asks client.old) (W.ahead weather.old)) client.old rows table.old.pairs)
        (client.old, rows, table.old.pairs) (client.new, rows, table.new.pairs) book.old.items book.new.items result }
    ensures spare { book.new.spare ≡ book.old.spare }
    ensures places { table.new.places ≡ table.old.places }
    ensures asked { Asks result (Some Store.Table) (W.ahead weather.old) (W.ahead weather.new)
        (W.faults weather.old) (W.faults weather.new) }
{
    place_record(weather, book, client, table, session, start, commit)
}

#[tactic(auto, using(crate::proofs::OwnPlacings::is_placing))]
fn place_record<W: Weather>(
    weather: &mut W,
    book: &mut Book,
    client: &mut Client,
    table: &mut Table,
    session: SessionNo,
    start: Stamp,
    commit: Stamp,
) -> Result<(), Stopped>
    requires { handed_commit client.old.entry ≡ Some (start, commit) }
    ensures made { (rows : List Row) → Makes (placed_among rows (place_on session start commit (W.ahead weather.old Store.Table 0) client.old table.old.pairs))
        (client.old, rows, table.old.pairs) (client.new, rows, table.new.pairs) book.old.items book.new.items result }
    ensures spare { book.new.spare ≡ book.old.spare }
    ensures places { table.new.places ≡ table.old.places }
    ensures asked { Asks result (Some Store.Table) (W.ahead weather.old) (W.ahead weather.new)
        (W.faults weather.old) (W.faults weather.new) }
{
    // All memory is taken before the store call and before anything changes.
    book.make_room(3)?;
    table.make_room()?;
    let before = table.mark_of(start);
    match table.put_in_room(weather, start, Mark::Committed(commit)) {
        Ok(Put::Placed) => {
            client.committed(commit);
            tell_placed(book, session, start, commit);
            Ok(())
        }
        Ok(Put::Found(_)) => {
            client.aborted();
            tell_found(book, session, start)
        }
        Err(StoreFault) => {
            client.opened();
            let made = ledger::placed_item(before, table.mark_of(start), start, commit);
            tell_failed(book, session, start, made)
        }
    }
}

/// The record stands, and so the transaction has its commit.
fn tell_placed(book: &mut Book, session: SessionNo, start: Stamp, commit: Stamp)
    requires { 2 ≤ book.old.room }
    ensures items { book.new.items ≡ book.old.items ++ Item.Placed start commit ∷ Item.Committed session start commit ∷ [] }
    ensures spare { book.new.spare ≡ book.old.spare }
{
    book.append_in_room(Item::Placed { start, commit });
    book.append_in_room(Item::Committed {
        session,
        start,
        commit,
    });
}

/// A mark stands in the record's place.
fn tell_found(book: &mut Book, session: SessionNo, start: Stamp) -> Result<(), Stopped>
    requires { 2 ≤ book.old.room }
    ensures items { book.new.items ≡ book.old.items ++ Item.Step (Actor.Session session) (StoreStep.PutFound start) ∷ Item.Refused (Actor.Session session) (Cause.Invalid start) ∷ [] }
    ensures spare { book.new.spare ≡ book.old.spare }
    ensures answer { result ≡ Err (Stopped.Refused (Cause.Invalid start)) }
{
    book.append_in_room(Item::Step {
        actor: Actor::Session(session),
        what: StoreStep::PutFound { txn: start },
    });
    ledger::tell(book, Actor::Session(session), Cause::Invalid { start })
}

/// The placing has failed. The record that it made all the same stands before the fault.
fn tell_failed(
    book: &mut Book,
    session: SessionNo,
    start: Stamp,
    made: Option<Item>,
) -> Result<(), Stopped>
    requires { 3 ≤ book.old.room }
    ensures items { book.new.items ≡ book.old.items ++ made_items made ++ Item.Fault (Actor.Session session) Store.Table ∷ Item.Refused (Actor.Session session) (Cause.Open start) ∷ [] }
    ensures spare { book.new.spare ≡ book.old.spare }
    ensures answer { result ≡ Err (Stopped.StoreFault Store.Table) }
{
    let failed = ledger::fail(book, Actor::Session(session), Store::Table, made);
    let _ = ledger::tell(book, Actor::Session(session), Cause::Open { start });
    failed
}
