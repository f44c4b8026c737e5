// A session makes the next step of what it has under way, or places the record of its commit.
ghost use Rattle.std.specs.Prelude.{◌≡◌, ◌≤◌, None, Some};
ghost use Rattle.system_parts.specs.SessionSteps.{handed_commit};
ghost use Rattle.system_parts.specs.Sweep.{IsKeys};
ghost use Rattle.machine.specs.StoreSteps as steps;
ghost use Rattle.machine.specs.Events.Step.{step_on, step_at, step_asks, store_asked, next_of, work_of};
ghost use Rattle.event_parts.specs.Made.{Makes, Asks, fate_ahead};
ghost use Rattle.session_events.specs.Meeting.{KeepsShadow, KeepsShadowNext};
ghost use Rattle.event_parts.specs.Working.{MayStep};

use crate::asks;
use crate::placing::place;
use cell_store::{Cells, StoreFault};
use commit_table::Table;
use event_parts::{Client, Stopped, ledger};
use history_book::{Actor, Book};
use port_io::Weather;
use stamp_base::SessionNo;
use system_parts::Ask;

/// The session makes the next step of its read, of the resolve of its own commit, or of its completion, or places the record of
/// a commit that was handed to it: refused as gone or idle. A failed step ends a read without an answer, lets a resolve start
/// over, and frees a session that completes; after a failed placing the outcome is open.
pub fn step<W: Weather>(
    weather: &mut W,
    book: &mut Book,
    client: &mut Client,
    cells: &mut Cells,
    table: &mut Table,
    session: SessionNo,
) -> Result<(), Stopped>
    requires { MayStep client.old → handed_commit client.old.entry ≡ None → KeepsShadowNext (next_of (work_of client.old)) cells.old.rows }
    ensures made { Makes (step_on session (fate_ahead (step_asks client.old) (W.ahead weather.old)) client.old cells.old.rows table.old.pairs)
        (client.old, cells.old.rows, table.old.pairs) (client.new, cells.new.rows, table.new.pairs) book.old.items book.new.items result }
    ensures spare { book.new.spare ≡ book.old.spare }
    ensures places { table.new.places ≡ table.old.places }
    ensures asked { Asks result (step_asks client.old) (W.ahead weather.old) (W.ahead weather.new)
        (W.faults weather.old) (W.faults weather.new) }
{
    if let Err(cause) = client.check_step() {
        return ledger::refuse(book, Actor::Session(session), cause);
    }
    match client.to_place() {
        Some((start, commit)) => place(weather, book, client, table, session, start, commit),
        None => step_work(weather, book, client, cells, table, session),
    }
}

/// The session makes the next step of the read, the resolve or the completion that is under way.
fn step_work<W: Weather>(
    weather: &mut W,
    book: &mut Book,
    client: &mut Client,
    cells: &mut Cells,
    table: &mut Table,
    session: SessionNo,
) -> Result<(), Stopped>
    requires { KeepsShadowNext (next_of (work_of client.old)) cells.old.rows }
    ensures made { Makes (step_at session (fate_ahead (store_asked (next_of (work_of client.old))) (W.ahead weather.old)) client.old cells.old.rows table.old.pairs (work_of client.old))
        (client.old, cells.old.rows, table.old.pairs) (client.new, cells.new.rows, table.new.pairs) book.old.items book.new.items result }
    ensures spare { book.new.spare ≡ book.old.spare }
    ensures places { table.new.places ≡ table.old.places }
    ensures asked { Asks result (store_asked (next_of (work_of client.old))) (W.ahead weather.old) (W.ahead weather.new)
        (W.faults weather.old) (W.faults weather.new) }
{
    book.make_room(2)?;
    match client.next() {
        None => Ok(()),
        Some(ask) => step_asked(weather, book, client, cells, table, session, &ask),
    }
}

#[tactic(auto, using(crate::proofs::WorkSteps::step_heard, crate::proofs::WorkSteps::step_faulted))]
fn step_asked<W: Weather>(
    weather: &mut W,
    book: &mut Book,
    client: &mut Client,
    cells: &mut Cells,
    table: &mut Table,
    session: SessionNo,
    ask: &Ask,
) -> Result<(), Stopped>
    requires room { 2 ≤ book.old.room }
    requires next { next_of (work_of client.old) ≡ Some ask.now }
    requires no_listing { IsKeys ask.now → ⊥ }
    requires shadow { KeepsShadow ask.now cells.old.rows }
    ensures made { Makes (step_at session (W.ahead weather.old (steps.store_of ask.now) 0) client.old cells.old.rows table.old.pairs (work_of client.old))
        (client.old, cells.old.rows, table.old.pairs) (client.new, cells.new.rows, table.new.pairs) book.old.items book.new.items result }
    ensures spare { book.new.spare ≡ book.old.spare }
    ensures places { table.new.places ≡ table.old.places }
    ensures asked { Asks result (Some (steps.store_of ask.now)) (W.ahead weather.old) (W.ahead weather.new)
        (W.faults weather.old) (W.faults weather.new) }
{
    // All memory is taken before the store call and before anything changes.
    asks::make_room(ask, table)?;
    client.make_ready()?;
    match asks::meet(weather, book, Actor::Session(session), ask, cells, table) {
        Ok(answer) => {
            client.told(book, session, answer);
            Ok(())
        }
        Err(StoreFault) => {
            client.failed();
            Err(Stopped::StoreFault(asks::store_of(ask)))
        }
    }
}
