// A node renews its lease.
ghost use Rattle.std.specs.Prelude.{◌≡◌, ◌≤◌, ◌^◌, ◌∷◌, ◌++◌, [], Err, Some};
ghost use Rattle.stamp_base.specs.SetupNumbers.{SetupNumbers};
ghost use Rattle.system_parts.specs.InstanceSteps.{IsStop, instance_stopped};
ghost use Rattle.machine.specs.Events.Take.{rules_of};
ghost use Rattle.machine.specs.Events.Renew.{renew_on, renew_at, renew_asks};
ghost use Rattle.event_parts.specs.Made.{Makes, Asks};
ghost use Rattle.event_parts.specs.Kept.{made_items, kept_if};

use event_parts::{Stopped, ledger};
use history_book::{Actor, Book, Cause, Item};
use master_record::Master;
use oracle_core::Instance;
use port_io::{Fate, OneFate, Weather};
use stamp_base::{NodeNo, Store, Term};
use system_parts::RenewRefused;
use takeover_core::Post;

/// The node's lease lasts to the reading and the lease's length: refused as NoOracle where it has no instance, then as
/// Replaced as the record says, which the instance keeps. A failed call that took effect moves the record alone.
pub fn renew<W: Weather>(
    weather: &mut W,
    book: &mut Book,
    post: &mut Post,
    master: &mut Master,
    node: NodeNo,
    reading: u64,
) -> Result<(), Stopped>
    requires { reading ≤ 2 ^ 61 }
    ensures made { (setup : SetupNumbers) → master.old.rules ≡ rules_of setup →
        Makes (renew_on setup node reading (W.ahead weather.old Store.Master 0) post.old master.old.state)
        (post.old, master.old.state) (post.new, master.new.state) book.old.items book.new.items result }
    ensures spare { book.new.spare ≡ book.old.spare }
    ensures rules { master.new.rules ≡ master.old.rules }
    ensures asked { Asks result (renew_asks post.old) (W.ahead weather.old) (W.ahead weather.new)
        (W.faults weather.old) (W.faults weather.new) }
{
    let Some(instance) = &mut post.instance else {
        return ledger::refuse(book, Actor::Node(node), Cause::NoOracle { node });
    };
    renew_held(weather, book, instance, master, node, reading)
}

fn renew_held<W: Weather>(
    weather: &mut W,
    book: &mut Book,
    instance: &mut Instance,
    master: &mut Master,
    node: NodeNo,
    reading: u64,
) -> Result<(), Stopped>
    requires { reading ≤ 2 ^ 61 }
    ensures made { (setup : SetupNumbers) → master.old.rules ≡ rules_of setup →
        Makes (renew_at setup node reading (W.ahead weather.old Store.Master 0) instance.old master.old.state)
        (Some instance.old, master.old.state) (Some instance.new, master.new.state) book.old.items book.new.items result }
    ensures spare { book.new.spare ≡ book.old.spare }
    ensures rules { master.new.rules ≡ master.old.rules }
    ensures asked { Asks result (Some Store.Master) (W.ahead weather.old) (W.ahead weather.new)
        (W.faults weather.old) (W.faults weather.new) }
{
    book.make_room(2)?;
    let term = instance.term();
    let renewal = master.renewal_at(term, reading);
    let fate = ledger::fate_of(weather, Store::Master);
    match master.renew(&mut OneFate::new(fate), term, reading) {
        Ok(until) => {
            instance.renewed(until);
            book.append_in_room(renew_item(node, reading, term, until));
            Ok(())
        }
        Err(RenewRefused::StoreFault) => {
            let made = kept_item(fate, node, reading, term, renewal);
            ledger::fail(book, Actor::Node(node), Store::Master, made)
        }
        Err(RenewRefused::Replaced { found }) => {
            stop(book, instance, node, Cause::Replaced { found })
        }
    }
}

/// The instance keeps the record's refusal, and the node is told it.
pub(crate) fn stop(
    book: &mut Book,
    instance: &mut Instance,
    node: NodeNo,
    cause: Cause,
) -> Result<(), Stopped>
    requires room { 1 ≤ book.old.room }
    requires cause { IsStop cause }
    ensures instance { instance.new ≡ instance_stopped instance.old cause }
    ensures items { book.new.items ≡ book.old.items ++ Item.Refused (Actor.Node node) cause ∷ [] }
    ensures spare { book.new.spare ≡ book.old.spare }
    ensures answer { result ≡ Err (Stopped.Refused cause) }
{
    let kept = cause;
    instance.stopped(kept);
    ledger::tell(book, Actor::Node(node), cause)
}

/// What a failed renewal made all the same.
fn kept_item(
    fate: Fate,
    node: NodeNo,
    reading: u64,
    term: Term,
    renewal: Result<u64, RenewRefused>,
) -> Option<Item>
    ensures { made_items result ≡ kept_if fate renewal (Item.Renew node reading term) }
{
    match (fate, renewal) {
        (Fate::FailsApplied, Ok(until)) => Some(renew_item(node, reading, term, until)),
        _ => None,
    }
}

fn renew_item(node: NodeNo, reading: u64, term: Term, until: u64) -> Item
    ensures { result ≡ Item.Renew node reading term until }
{
    Item::Renew {
        node,
        reading,
        term,
        until,
    }
}
