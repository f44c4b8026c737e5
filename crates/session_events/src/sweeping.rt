// The janitor sweeps a transaction whose session has vanished.
ghost use Rattle.std.specs.Prelude.{◌≡◌, ◌≤◌, ◌++◌, None, Some, IfSome, IsSomeAnd, is_none};
ghost use Rattle.std.specs.List.Sorted.{IsStrictlyIncreasing};
ghost use Rattle.system_parts.specs.Pairs.{Pairs};
ghost use Rattle.system_parts.specs.Asks.{FitsNext};
ghost use Rattle.system_parts.specs.Sweep.{IsKeys, IsListing, is_undecided, sweep_ask, sweep_told, sweep_listed};
ghost use Rattle.machine.specs.StoreSteps as steps;
ghost use Rattle.machine.specs.Events.SweepOpen.{sweep_open_on};
ghost use Rattle.machine.specs.Events.SweepStep.{sweep_step_on, sweep_step_asks, sweep_at, sweep_lists, sweep_met, sweep_left, undecided_items, undecided_stop};
ghost use Rattle.event_parts.specs.Made.{Makes, Asks, fate_ahead, ended};
ghost use Rattle.session_events.specs.Meeting.{HasRoomFor, KeepsShadow, KeepsShadowNext, undecided_cause};

use crate::asks;
use cell_store::{Cells, StoreFault};
use commit_table::{StoreError, Table};
use event_parts::{Stopped, ledger};
use history_book::{Actor, Book, Cause, Item, StoreStep};
use invalidator::Sweep;
use port_io::Weather;
use stamp_base::{KeyNo, NodeNo, Store, TxnId};
use system_parts::{Ask, Told};
use takeover_core::Post;

/// The janitor begins to sweep the transaction, by the epoch of the node's instance: refused as busy where a sweep is open,
/// then as NoOracle. Nothing is told.
pub fn sweep_open(
    book: &mut Book,
    sweep: &mut Option<Sweep>,
    post: &Post,
    node: NodeNo,
    txn: TxnId,
) -> Result<(), Stopped>
    ensures made { Makes (sweep_open_on node txn post.now sweep.old) sweep.old sweep.new book.old.items book.new.items result }
    ensures spare { book.new.spare ≡ book.old.spare }
{
    if sweep.is_some() {
        return ledger::refuse(book, Actor::Janitor, Cause::Busy);
    }
    match &post.instance {
        None => ledger::refuse(book, Actor::Janitor, Cause::NoOracle { node }),
        Some(instance) => {
            *sweep = Some(Sweep::open(txn, instance.epoch()));
            Ok(())
        }
    }
}

/// The janitor makes the next step of the open sweep: refused as idle where none is open. A failed step ends the sweep, and
/// so does one that leaves it undecided, which is told at once.
pub fn sweep_step<W: Weather>(
    weather: &mut W,
    book: &mut Book,
    sweep: &mut Option<Sweep>,
    cells: &mut Cells,
    table: &mut Table,
) -> Result<(), Stopped>
    requires { IfSome sweep.old (λ s. KeepsShadowNext (sweep_ask s) cells.old.rows) }
    ensures made { Makes (sweep_step_on (fate_ahead (sweep_step_asks sweep.old) (W.ahead weather.old)) sweep.old cells.old.rows table.old.pairs)
        (sweep.old, cells.old.rows, table.old.pairs) (sweep.new, cells.new.rows, table.new.pairs) book.old.items book.new.items result }
    ensures spare { book.new.spare ≡ book.old.spare }
    ensures places { table.new.places ≡ table.old.places }
    ensures asked { Asks result (sweep_step_asks sweep.old) (W.ahead weather.old) (W.ahead weather.new)
        (W.faults weather.old) (W.faults weather.new) }
{
    match sweep {
        None => ledger::refuse(book, Actor::Janitor, Cause::Idle),
        Some(open) => match open.next() {
            Some(ask) => sweep_asked(weather, book, sweep, cells, table, &ask),
            None => {
                *sweep = None;
                Ok(())
            }
        },
    }
}

fn sweep_asked<W: Weather>(
    weather: &mut W,
    book: &mut Book,
    sweep: &mut Option<Sweep>,
    cells: &mut Cells,
    table: &mut Table,
    ask: &Ask,
) -> Result<(), Stopped>
    requires next { IsSomeAnd sweep.old (λ s. sweep_ask s ≡ Some ask.now) }
    requires shadow { KeepsShadow ask.now cells.old.rows }
    ensures made { IfSome sweep.old (λ s. Makes (sweep_at s (W.ahead weather.old (steps.store_of ask.now) 0) cells.old.rows table.old.pairs (Some ask.now))
        (sweep.old, cells.old.rows, table.old.pairs) (sweep.new, cells.new.rows, table.new.pairs) book.old.items book.new.items result) }
    ensures spare { book.new.spare ≡ book.old.spare }
    ensures places { table.new.places ≡ table.old.places }
    ensures asked { Asks result (Some (steps.store_of ask.now)) (W.ahead weather.old) (W.ahead weather.new)
        (W.faults weather.old) (W.faults weather.new) }
{
    match ask {
        Ask::Keys(txn) => list_keys(weather, book, sweep, cells, *txn),
        _ => meet_asked(weather, book, sweep, cells, table, ask),
    }
}

/// The keys of the transaction's cells are listed.
fn list_keys<W: Weather>(
    weather: &mut W,
    book: &mut Book,
    sweep: &mut Option<Sweep>,
    cells: &Cells,
    txn: TxnId,
) -> Result<(), Stopped>
    requires next { IsSomeAnd sweep.old (λ s. sweep_ask s ≡ Some (Ask.Keys txn)) }
    ensures made { (pairs : Pairs) → IfSome sweep.old (λ s. Makes (sweep_lists s txn (W.ahead weather.old Store.Cells 0) cells.now.rows pairs)
        (sweep.old, cells.now.rows, pairs) (sweep.new, cells.now.rows, pairs) book.old.items book.new.items result) }
    ensures spare { book.new.spare ≡ book.old.spare }
    ensures asked { Asks result (Some Store.Cells) (W.ahead weather.old) (W.ahead weather.new)
        (W.faults weather.old) (W.faults weather.new) }
{
    book.make_room(2)?;
    match cells.keys_of(weather, txn) {
        Ok(keys) => {
            let count = keys.len() as u64;
            take_keys(sweep, keys);
            book.append_in_room(Item::Step {
                actor: Actor::Janitor,
                what: StoreStep::Keys { txn, count },
            });
            Ok(())
        }
        Err(StoreError::StoreFault) => {
            *sweep = None;
            ledger::fail(book, Actor::Janitor, Store::Cells, None)
        }
        Err(StoreError::NoMemory) => Err(Stopped::NoMemory),
    }
}

/// Any other step is met by one call, in room that is made for it.
fn meet_asked<W: Weather>(
    weather: &mut W,
    book: &mut Book,
    sweep: &mut Option<Sweep>,
    cells: &mut Cells,
    table: &mut Table,
    ask: &Ask,
) -> Result<(), Stopped>
    requires next { IsSomeAnd sweep.old (λ s. sweep_ask s ≡ Some ask.now) }
    requires shadow { KeepsShadow ask.now cells.old.rows }
    requires no_listing { IsKeys ask.now → ⊥ }
    ensures made { IfSome sweep.old (λ s. Makes (sweep_met s ask.now (steps.met Actor.Janitor ask.now (W.ahead weather.old (steps.store_of ask.now) 0) cells.old.rows table.old.pairs))
        (sweep.old, cells.old.rows, table.old.pairs) (sweep.new, cells.new.rows, table.new.pairs) book.old.items book.new.items result) }
    ensures spare { book.new.spare ≡ book.old.spare }
    ensures places { table.new.places ≡ table.old.places }
    ensures asked { Asks result (Some (steps.store_of ask.now)) (W.ahead weather.old) (W.ahead weather.new)
        (W.faults weather.old) (W.faults weather.new) }
{
    book.make_room(2)?;
    asks::make_room(ask, table)?;
    meet_in_room(weather, book, sweep, cells, table, ask)
}

fn meet_in_room<W: Weather>(
    weather: &mut W,
    book: &mut Book,
    sweep: &mut Option<Sweep>,
    cells: &mut Cells,
    table: &mut Table,
    ask: &Ask,
) -> Result<(), Stopped>
    requires room { 2 ≤ book.old.room }
    requires mark { HasRoomFor ask.now table.old.has_room }
    requires next { IsSomeAnd sweep.old (λ s. sweep_ask s ≡ Some ask.now) }
    requires shadow { KeepsShadow ask.now cells.old.rows }
    requires no_listing { IsKeys ask.now → ⊥ }
    ensures made { IfSome sweep.old (λ s. Makes (sweep_met s ask.now (steps.met Actor.Janitor ask.now (W.ahead weather.old (steps.store_of ask.now) 0) cells.old.rows table.old.pairs))
        (sweep.old, cells.old.rows, table.old.pairs) (sweep.new, cells.new.rows, table.new.pairs) book.old.items book.new.items result) }
    ensures spare { book.new.spare ≡ book.old.spare }
    ensures places { table.new.places ≡ table.old.places }
    ensures asked { Asks result (Some (steps.store_of ask.now)) (W.ahead weather.old) (W.ahead weather.new)
        (W.faults weather.old) (W.faults weather.new) }
{
    match asks::meet(weather, book, Actor::Janitor, ask, cells, table) {
        Ok(answer) => take_answer(book, sweep, answer),
        Err(StoreFault) => {
            *sweep = None;
            Err(Stopped::StoreFault(asks::store_of(ask)))
        }
    }
}

/// The sweep goes on with these keys.
fn take_keys(sweep: &mut Option<Sweep>, keys: Vec<KeyNo>)
    requires listing { IfSome sweep.old IsListing }
    requires ascending { IsStrictlyIncreasing keys.items }
    ensures { IfSome sweep.old (λ s. sweep.new ≡ sweep_left (sweep_listed s keys.items)) }
{
    if let Some(open) = sweep {
        open.listed(keys);
    }
    close_ended(sweep);
}

/// The sweep goes on by the answer, or ends, and is told where it stays undecided.
fn take_answer(book: &mut Book, sweep: &mut Option<Sweep>, answer: Told) -> Result<(), Stopped>
    requires room { 1 ≤ book.old.room }
    requires answer { IsSomeAnd sweep.old (λ s. FitsNext (sweep_ask s) answer) }
    ensures sweep { IfSome sweep.old (λ s. sweep.new ≡ sweep_left (sweep_told s answer)) }
    ensures items { IfSome sweep.old (λ s. book.new.items ≡ book.old.items ++ undecided_items s (is_undecided (sweep_told s answer))) }
    ensures spare { book.new.spare ≡ book.old.spare }
    ensures answer { IfSome sweep.old (λ s. result ≡ ended (undecided_stop s (is_undecided (sweep_told s answer)))) }
{
    let undecided = told_undecided(sweep, answer);
    close_ended(sweep);
    match undecided {
        Some(cause) => ledger::tell(book, Actor::Janitor, cause),
        None => Ok(()),
    }
}

/// The sweep takes the answer. Why it is undecided, if it is.
fn told_undecided(sweep: &mut Option<Sweep>, answer: Told) -> Option<Cause>
    requires { IsSomeAnd sweep.old (λ s. FitsNext (sweep_ask s) answer) }
    ensures sweep { IfSome sweep.old (λ s. sweep.new ≡ Some (sweep_told s answer)) }
    ensures cause { IfSome sweep.old (λ s. result ≡ undecided_cause s (is_undecided (sweep_told s answer))) }
{
    let open = sweep.as_mut()?;
    open.told(answer);
    if open.undecided() {
        Some(Cause::Undecided {
            start: open.txn(),
            epoch: open.epoch(),
        })
    } else {
        None
    }
}

/// A sweep that has ended is open no longer.
fn close_ended(sweep: &mut Option<Sweep>)
    ensures { IfSome sweep.old (λ s. sweep.new ≡ sweep_left s) }
{
    if has_ended(sweep) {
        *sweep = None;
    }
}

fn has_ended(sweep: &Option<Sweep>) -> bool
    ensures { IfSome sweep.now (λ s. result ≡ is_none (sweep_ask s)) }
{
    match sweep {
        Some(open) => open.next().is_none(),
        None => false,
    }
}
