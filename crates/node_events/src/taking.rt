// A node takes the master record.
ghost use Rattle.std.specs.Prelude.{◌≡◌, ◌≤◌, ◌^◌, IfOk, None, Some};
ghost use Rattle.stamp_base.specs.Setups.{numbers_of};
ghost use Rattle.machine.specs.Events.Take.{rules_of, take_on, take_vacant as take_vacant_on, take_asks, take_item as take_item_of};
ghost use Rattle.stamp_base.specs.Ranges.{IsStampRange};
ghost use Rattle.event_parts.specs.Made.{Makes, Asks};
ghost use Rattle.event_parts.specs.Kept.{made_items, opened_by, kept_if};

use event_parts::{Stopped, ledger};
use history_book::{Actor, Book, Cause, Item};
use master_record::Master;
use oracle_core::Instance;
use port_io::{Fate, OneFate, Weather};
use stamp_base::{NoMemory, NodeNo, Setup, Store};
use std::alloc::Global;
use system_parts::{Grant, TakeRefused};
use takeover_core::Post;

/// The node takes the record, where it has no instance: refused as Holding where it has one, then as Early or Spent as the
/// record says. A failed call hides these refusals, and leaves the node without an instance even where it took effect.
pub fn take<W: Weather>(
    weather: &mut W,
    book: &mut Book,
    alloc: Global,
    setup: &Setup,
    post: &mut Post,
    master: &mut Master,
    node: NodeNo,
    reading: u64,
) -> Result<(), Stopped>
    requires reading { reading ≤ 2 ^ 61 }
    requires rules { master.old.rules ≡ rules_of (numbers_of setup.now) }
    ensures made { Makes (take_on (numbers_of setup.now) node reading (W.ahead weather.old Store.Master 0) post.old master.old.state)
        (post.old, master.old.state) (post.new, master.new.state) book.old.items book.new.items result }
    ensures spare { book.new.spare ≡ book.old.spare }
    ensures rules { master.new.rules ≡ master.old.rules }
    ensures asked { Asks result (take_asks post.old) (W.ahead weather.old) (W.ahead weather.new)
        (W.faults weather.old) (W.faults weather.new) }
{
    match post.may_take() {
        Err(cause) => ledger::refuse(book, Actor::Node(node), cause),
        Ok(()) => take_vacant(weather, book, alloc, setup, post, master, node, reading),
    }
}

#[tactic(auto, using(crate::proofs::KeptItems::kept_as_answered))]
fn take_vacant<W: Weather>(
    weather: &mut W,
    book: &mut Book,
    alloc: Global,
    setup: &Setup,
    post: &mut Post,
    master: &mut Master,
    node: NodeNo,
    reading: u64,
) -> Result<(), Stopped>
    requires reading { reading ≤ 2 ^ 61 }
    requires rules { master.old.rules ≡ rules_of (numbers_of setup.now) }
    requires vacant { post.old ≡ None }
    ensures made { Makes (take_vacant_on (numbers_of setup.now) node reading (W.ahead weather.old Store.Master 0) master.old.state)
        (None, master.old.state) (post.new, master.new.state) book.old.items book.new.items result }
    ensures spare { book.new.spare ≡ book.old.spare }
    ensures rules { master.new.rules ≡ master.old.rules }
    ensures asked { Asks result (Some Store.Master) (W.ahead weather.old) (W.ahead weather.new)
        (W.faults weather.old) (W.faults weather.new) }
{
    book.make_room(2)?;
    let granted = master.grant_at(reading);
    let opened = open_granted(alloc, setup, node, &granted)?;
    let fate = ledger::fate_of(weather, Store::Master);
    match master.take(&mut OneFate::new(fate), node, reading) {
        Ok(grant) => {
            serve(post, opened);
            book.append_in_room(take_item(node, reading, &grant));
            Ok(())
        }
        Err(TakeRefused::StoreFault) => {
            let made = kept_item(fate, node, reading, &granted);
            ledger::fail(book, Actor::Node(node), Store::Master, made)
        }
        Err(TakeRefused::Early { reading, until }) => {
            ledger::tell(book, Actor::Node(node), Cause::Early { reading, until })
        }
        Err(TakeRefused::Spent { ceiling }) => {
            ledger::tell(book, Actor::Node(node), Cause::Spent { ceiling })
        }
    }
}

/// The instance of a grant. All its memory is taken here.
fn open_granted(
    alloc: Global,
    setup: &Setup,
    node: NodeNo,
    granted: &Result<Grant, TakeRefused>,
) -> Result<Option<Instance>, NoMemory>
    requires { IfOk granted.now (λ grant. IsStampRange grant.epoch grant.ceiling) }
    ensures { IfOk result (λ opened. opened ≡ opened_by (numbers_of setup.now) node granted.now) }
{
    match granted {
        Ok(grant) => {
            let opened = Instance::open(alloc, *grant, node, setup)?;
            Ok(Some(opened))
        }
        Err(_) => Ok(None),
    }
}

/// The instance of the grant serves at the node.
fn serve(post: &mut Post, opened: Option<Instance>)
    requires { post.old ≡ None }
    ensures { post.new ≡ opened }
{
    if let Some(instance) = opened {
        post.granted(instance);
    }
}

/// What a failed take made all the same.
fn kept_item(
    fate: Fate,
    node: NodeNo,
    reading: u64,
    granted: &Result<Grant, TakeRefused>,
) -> Option<Item>
    ensures { made_items result ≡ kept_if fate granted.now (take_item_of node reading) }
{
    match (fate, granted) {
        (Fate::FailsApplied, Ok(grant)) => Some(take_item(node, reading, grant)),
        _ => None,
    }
}

fn take_item(node: NodeNo, reading: u64, grant: &Grant) -> Item
    ensures { result ≡ take_item_of node reading grant.now }
{
    Item::Take {
        node,
        reading,
        term: grant.term,
        epoch: grant.epoch,
        until: grant.until,
        ceiling: grant.ceiling,
    }
}
