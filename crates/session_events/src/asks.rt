// The asks of the step machines as calls on the stores, and the stores' answers back.
ghost use Rattle.std.specs.Prelude.{◌≡◌, ◌≤◌, IfOk, OnOk, Some};
ghost use Rattle.port_io.specs.Fates.{fated};
ghost use Rattle.system_parts.specs.StoreCalls.{AsksOnce};
ghost use Rattle.system_parts.specs.Asks.{Fits};
ghost use Rattle.system_parts.specs.Sweep.{IsKeys};
ghost use Rattle.machine.specs.StoreSteps as steps;
ghost use Rattle.event_parts.specs.Kept.{made_items};
ghost use Rattle.session_events.specs.Meeting.{HasRoomFor, KeepsShadow, IsMet, answer_of, places_mark, placed_items, told_of_put};

use cell_store::{Cells, StoreFault};
use commit_table::{Put, Table};
use event_parts::ledger;
use history_book::{Actor, Book, Item, Seen, StoreStep};
use port_io::Weather;
use stamp_base::{Mark, NoMemory, Store, TxnId};
use system_parts::{Ask, Cell, Told};

/// Makes room for the mark that the step may place, so that the step takes no memory. What the table has stays.
pub(crate) fn make_room(ask: &Ask, table: &mut Table) -> Result<(), NoMemory>
    ensures room { OnOk result (HasRoomFor ask.now table.new.has_room) }
    ensures pairs { table.new.pairs ≡ table.old.pairs }
    ensures places { table.new.places ≡ table.old.places }
{
    match ask {
        Ask::Mark(_) => table.make_room(),
        _ => Ok(()),
    }
}

/// Makes the step, which lists no keys, by one call on its store, and appends its items. The answer fits the step, and leaves room
/// for one more item. Of what a failed call did all the same only a mark that was placed is shown.
pub(crate) fn meet<W: Weather>(
    weather: &mut W,
    book: &mut Book,
    actor: Actor,
    ask: &Ask,
    cells: &mut Cells,
    table: &mut Table,
) -> Result<Told, StoreFault>
    requires room { 2 ≤ book.old.room }
    requires mark { HasRoomFor ask.now table.old.has_room }
    requires shadow { KeepsShadow ask.now cells.old.rows }
    requires no_listing { IsKeys ask.now → ⊥ }
    ensures met { IsMet (steps.met actor ask.now (W.ahead weather.old (steps.store_of ask.now) 0)
        cells.old.rows table.old.pairs) cells.new.rows table.new.pairs book.old.items book.new.items (answer_of result) }
    ensures spare { book.new.spare ≡ book.old.spare }
    ensures fits { IfOk result (λ answer. Fits ask.now answer) }
    ensures room { OnOk result (1 ≤ book.new.room) }
    ensures places { table.new.places ≡ table.old.places }
    ensures call { AsksOnce (steps.store_of ask.now) (W.ahead weather.old) (W.ahead weather.new)
        (W.faults weather.old) (W.faults weather.new) }
{
    let unmarked = may_place(ask, table);
    match call(weather, ask, cells, table) {
        Ok(answer) => {
            let item = step_item(actor, ask, &answer);
            book.append_in_room(item);
            Ok(answer)
        }
        Err(StoreFault) => {
            let still_unmarked = may_place(ask, table);
            let made = placed_item(unmarked, still_unmarked, &actor, ask);
            let _ = ledger::fail(book, actor, store_of(ask), made);
            Err(StoreFault)
        }
    }
}

/// The call on the step's store.
fn call<W: Weather>(
    weather: &mut W,
    ask: &Ask,
    cells: &mut Cells,
    table: &mut Table,
) -> Result<Told, StoreFault>
    requires mark { HasRoomFor ask.now table.old.has_room }
    requires shadow { KeepsShadow ask.now cells.old.rows }
    requires no_listing { IsKeys ask.now → ⊥ }
    ensures rows { cells.new.rows ≡ fated (W.ahead weather.old (steps.store_of ask.now) 0)
        cells.old.rows (steps.rows_after ask.now cells.old.rows) }
    ensures pairs { table.new.pairs ≡ fated (W.ahead weather.old (steps.store_of ask.now) 0)
        table.old.pairs (steps.pairs_after ask.now table.old.pairs) }
    ensures answer { answer_of result ≡ steps.told_under (W.ahead weather.old (steps.store_of ask.now) 0)
        (steps.told_by ask.now cells.old.rows table.old.pairs) }
    ensures fits { IfOk result (λ answer. Fits ask.now answer) }
    ensures places { table.new.places ≡ table.old.places }
    ensures call { AsksOnce (steps.store_of ask.now) (W.ahead weather.old) (W.ahead weather.new)
        (W.faults weather.old) (W.faults weather.new) }
{
    match ask {
        Ask::Get(txn) => match table.get(weather, *txn) {
            Ok(found) => Ok(told_entry(&found)),
            Err(_) => Err(StoreFault),
        },
        Ask::Mark(txn) => match table.put_in_room(weather, *txn, Mark::Invalid) {
            Ok(put) => Ok(told_put(&put)),
            Err(_) => Err(StoreFault),
        },
        Ask::Look(key, txn) => match cells.look(weather, *key, *txn) {
            Ok(found) => Ok(told_cell(&found)),
            Err(_) => Err(StoreFault),
        },
        Ask::Shadow(key, txn, commit) => match cells.set_shadow(weather, *key, *txn, *commit) {
            Ok(()) => Ok(Told::Done),
            Err(_) => Err(StoreFault),
        },
        Ask::Remove(txn) => match table.remove_committed(weather, *txn) {
            Ok(()) => Ok(Told::Done),
            Err(_) => Err(StoreFault),
        },
        Ask::Erase(key, txn) => match cells.remove_bare(weather, *key, *txn) {
            Ok(()) => Ok(Told::Done),
            Err(_) => Err(StoreFault),
        },
        Ask::Keys(_) => unreachable!(),
    }
}

/// Whether the step would place a mark.
fn may_place(ask: &Ask, table: &Table) -> bool
    ensures { result ≡ places_mark ask.now table.now.pairs }
{
    match ask {
        Ask::Mark(txn) => table.mark_of(*txn).is_none(),
        _ => false,
    }
}

/// The store that the step asks.
pub(crate) fn store_of(ask: &Ask) -> Store
    ensures { result ≡ steps.store_of ask.now }
{
    match ask {
        Ask::Get(_) | Ask::Mark(_) | Ask::Remove(_) => Store::Table,
        Ask::Look(..) | Ask::Shadow(..) | Ask::Erase(..) | Ask::Keys(_) => Store::Cells,
    }
}

fn told_entry(found: &Option<Mark>) -> Told
    ensures { result ≡ steps.told_entry found.now }
{
    match found {
        None => Told::Absent,
        Some(Mark::Invalid) => Told::Invalid,
        Some(Mark::Committed(commit)) => Told::Committed(*commit),
    }
}

fn told_put(put: &Put) -> Told
    ensures { result ≡ told_of_put put.now }
{
    match put {
        Put::Placed => Told::Marked,
        Put::Found(mark) => told_entry(&Some(*mark)),
    }
}

fn told_cell(found: &Option<Cell>) -> Told
    ensures { result ≡ steps.told_cell found.now }
{
    match found {
        None => Told::Gone,
        Some(Cell { shadow: None, .. }) => Told::Bare,
        Some(
            Cell {
                shadow: Some(commit),
                ..
            },
        ) => Told::Shadowed(*commit),
    }
}

/// The mark that a failed step placed all the same: none stood before the call, and one stands now.
fn placed_item(unmarked: bool, still_unmarked: bool, actor: &Actor, ask: &Ask) -> Option<Item>
    ensures { made_items result ≡ placed_items unmarked still_unmarked actor.now ask.now }
{
    match ask {
        Ask::Mark(start) if unmarked && !still_unmarked => Some(Item::Mark {
            actor: *actor,
            start: *start,
        }),
        _ => None,
    }
}

/// The item of a step that was answered.
fn step_item(actor: Actor, ask: &Ask, answer: &Told) -> Item
    requires { IsKeys ask.now → ⊥ }
    ensures { result ≡ steps.step_item actor ask.now answer.now }
{
    match ask {
        Ask::Get(txn) => shown(
            actor,
            StoreStep::Get {
                txn: *txn,
                answer: entry_of(answer),
            },
        ),
        Ask::Mark(txn) => mark_item(actor, *txn, &entry_of(answer)),
        Ask::Look(key, txn) => shown(
            actor,
            StoreStep::Look {
                key: *key,
                txn: *txn,
                answer: seen_of(answer),
            },
        ),
        Ask::Shadow(key, txn, commit) => shown(
            actor,
            StoreStep::Shadow {
                key: *key,
                txn: *txn,
                commit: *commit,
            },
        ),
        Ask::Remove(txn) => shown(actor, StoreStep::Remove { txn: *txn }),
        Ask::Erase(key, txn) => shown(
            actor,
            StoreStep::Erase {
                key: *key,
                txn: *txn,
            },
        ),
        Ask::Keys(_) => unreachable!(),
    }
}

/// A mark was placed, or an entry was found in its place.
fn mark_item(actor: Actor, txn: TxnId, found: &Option<Mark>) -> Item
    ensures { result ≡ steps.mark_item actor txn found.now }
{
    match found {
        None => Item::Mark { actor, start: txn },
        Some(mark) => shown(actor, StoreStep::MarkFound { txn, mark: *mark }),
    }
}

fn shown(actor: Actor, what: StoreStep) -> Item
    ensures { result ≡ Item.Step actor what }
{
    Item::Step { actor, what }
}

fn entry_of(answer: &Told) -> Option<Mark>
    ensures { result ≡ steps.entry_of answer.now }
{
    match answer {
        Told::Invalid => Some(Mark::Invalid),
        Told::Committed(commit) => Some(Mark::Committed(*commit)),
        _ => None,
    }
}

fn seen_of(answer: &Told) -> Seen
    ensures { result ≡ steps.seen_of answer.now }
{
    match answer {
        Told::Gone => Seen::Gone,
        Told::Shadowed(commit) => Seen::Commit(*commit),
        _ => Seen::Bare,
    }
}
