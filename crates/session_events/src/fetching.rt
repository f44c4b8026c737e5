// A session begins a read.
ghost use Rattle.std.specs.Prelude.{◌≡◌, ◌≤◌, ◌++◌, ◌∷◌, None};
ghost use Rattle.stamp_base.specs.Setups.{numbers_of};
ghost use Rattle.system_parts.specs.Rows.{fetched};
ghost use Rattle.system_parts.specs.KeyRead.{AreFetched};
ghost use Rattle.system_parts.specs.Recalled.{recalled_over};
ghost use Rattle.machine.specs.Events.Fetch.{marks_every, client_recalled, read_items, fetch_on, fetch_by, fetch_asks, fetch_refused};
ghost use Rattle.event_parts.specs.Made.{Makes, Asks};

use cell_store::{Cells, Front};
use event_parts::{Client, Stopped, ledger};
use history_book::{Actor, Book, Item, StoreStep};
use port_io::{Fate, Weather};
use reader_resolve::ReadRun;
use stamp_base::{KeyNo, SessionNo, Setup, Stamp, Store};

/// The session fetches the key's cells and begins a read over them: refused as gone, without a transaction, busy, or with
/// too many keys in the read set. The key joins the read set, where the setup has it kept. A read that needs no step on the
/// stores has its answer at once; a failed fetch ends it without one, and the read set stays.
pub fn fetch<W: Weather>(
    weather: &mut W,
    book: &mut Book,
    client: &mut Client,
    cells: &Cells,
    setup: &Setup,
    session: SessionNo,
    key: KeyNo,
) -> Result<(), Stopped>
    ensures made { Makes (fetch_on (numbers_of setup.now) session key (W.ahead weather.old Store.Cells 0) client.old cells.now.rows)
        client.old client.new book.old.items book.new.items result }
    ensures spare { book.new.spare ≡ book.old.spare }
    ensures asked { Asks result (fetch_asks (numbers_of setup.now) key client.old) (W.ahead weather.old) (W.ahead weather.new)
        (W.faults weather.old) (W.faults weather.new) }
{
    if let Err(cause) = client.check_fetch(setup, key) {
        return ledger::refuse(book, Actor::Session(session), cause);
    }
    match (client.start(), client.epoch()) {
        (Some(start), Some(epoch)) => fetch_open(
            weather, book, client, cells, setup, session, start, epoch, key,
        ),
        _ => Ok(()),
    }
}

fn fetch_open<W: Weather>(
    weather: &mut W,
    book: &mut Book,
    client: &mut Client,
    cells: &Cells,
    setup: &Setup,
    session: SessionNo,
    start: Stamp,
    epoch: u64,
    key: KeyNo,
) -> Result<(), Stopped>
    requires { fetch_refused (numbers_of setup.now) client.old key ≡ None }
    ensures made { Makes (fetch_by (numbers_of setup.now) session start epoch key (W.ahead weather.old Store.Cells 0) client.old (fetched cells.now.rows key start))
        client.old client.new book.old.items book.new.items result }
    ensures spare { book.new.spare ≡ book.old.spare }
    ensures asked { Asks result (Some Store.Cells) (W.ahead weather.old) (W.ahead weather.new)
        (W.faults weather.old) (W.faults weather.new) }
{
    // All memory is taken before the store call and before anything changes.
    book.make_room(2)?;
    let front = cells.front(key, start)?;
    client.put_fresh()?;
    match ledger::fate_of(weather, Store::Cells) {
        Fate::Works => {
            client.fetched(setup, key);
            read_begun(book, client, setup, session, start, epoch, key, front);
            Ok(())
        }
        Fate::FailsUnchanged | Fate::FailsApplied => {
            client.offers_none();
            ledger::fail(book, Actor::Session(session), Store::Cells, None)
        }
    }
}

/// The cells were fetched: the read goes over them, as far as it comes by itself and by what its session keeps. It may mark
/// every version where sessions place their commits.
#[tactic(auto, using(event_parts::proofs::Recalls::start_comes))]
fn read_begun(
    book: &mut Book,
    client: &mut Client,
    setup: &Setup,
    session: SessionNo,
    start: Stamp,
    epoch: u64,
    key: KeyNo,
    front: Front,
)
    requires room { 2 ≤ book.old.room }
    requires fetched { AreFetched start front.cells.items }
    ensures client { client.new ≡ client_recalled client.old (recalled_over (marks_every (numbers_of setup.now)) key start epoch front.cells.items client.old.cache) }
    ensures items { book.new.items ≡ book.old.items ++ Item.Step (Actor.Session session) (StoreStep.Fetch key front.versions)
        ∷ read_items session start key (recalled_over (marks_every (numbers_of setup.now)) key start epoch front.cells.items client.old.cache).0 }
    ensures spare { book.new.spare ≡ book.old.spare }
{
    let what = StoreStep::Fetch {
        key,
        cells: front.versions,
    };
    book.append_in_room(Item::Step {
        actor: Actor::Session(session),
        what,
    });
    let (run, next) = ReadRun::start(key, start, epoch, setup.direct, front.cells);
    let then = client.reads(run, next);
    ledger::tell_read(book, session, start, key, &then);
}
