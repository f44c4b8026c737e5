// A node asks for a further range of stamps.
ghost use Rattle.std.specs.Prelude.{◌≡◌, ◌≤◌, Some, IfSome};
ghost use Rattle.stamp_base.specs.SetupNumbers.{SetupNumbers};
ghost use Rattle.machine.specs.Events.Take.{rules_of};
ghost use Rattle.machine.specs.Events.Extend.{extend_on, extend_at, extend_asks};
ghost use Rattle.event_parts.specs.Made.{Makes, Asks};
ghost use Rattle.event_parts.specs.Kept.{made_items, kept_if};

use crate::renewing::stop;
use event_parts::{Stopped, ledger};
use history_book::{Actor, Book, Cause, Item};
use master_record::Master;
use oracle_core::Instance;
use port_io::{Fate, OneFate, Weather};
use stamp_base::{NodeNo, Store, Term};
use system_parts::ExtendRefused;
use takeover_core::Post;

/// The node's instance may draw one range more: refused as NoOracle where it has no instance, then as Replaced or Spent as
/// the record says, which the instance keeps. A failed call that took effect moves the record alone.
pub fn extend<W: Weather>(
    weather: &mut W,
    book: &mut Book,
    post: &mut Post,
    master: &mut Master,
    node: NodeNo,
) -> Result<(), Stopped>
    requires { IfSome post.old (λ i. i.term ≡ master.old.state.term → i.ceiling ≤ master.old.state.ceiling) }
    ensures made { (setup : SetupNumbers) → master.old.rules ≡ rules_of setup →
        Makes (extend_on setup node (W.ahead weather.old Store.Master 0) post.old master.old.state)
        (post.old, master.old.state) (post.new, master.new.state) book.old.items book.new.items result }
    ensures spare { book.new.spare ≡ book.old.spare }
    ensures rules { master.new.rules ≡ master.old.rules }
    ensures asked { Asks result (extend_asks post.old) (W.ahead weather.old) (W.ahead weather.new)
        (W.faults weather.old) (W.faults weather.new) }
{
    let Some(instance) = &mut post.instance else {
        return ledger::refuse(book, Actor::Node(node), Cause::NoOracle { node });
    };
    extend_held(weather, book, instance, master, node)
}

fn extend_held<W: Weather>(
    weather: &mut W,
    book: &mut Book,
    instance: &mut Instance,
    master: &mut Master,
    node: NodeNo,
) -> Result<(), Stopped>
    requires { instance.old.term ≡ master.old.state.term → instance.old.ceiling ≤ master.old.state.ceiling }
    ensures made { (setup : SetupNumbers) → master.old.rules ≡ rules_of setup →
        Makes (extend_at setup node (W.ahead weather.old Store.Master 0) instance.old master.old.state)
        (Some instance.old, master.old.state) (Some instance.new, master.new.state) book.old.items book.new.items result }
    ensures spare { book.new.spare ≡ book.old.spare }
    ensures rules { master.new.rules ≡ master.old.rules }
    ensures asked { Asks result (Some Store.Master) (W.ahead weather.old) (W.ahead weather.new)
        (W.faults weather.old) (W.faults weather.new) }
{
    book.make_room(2)?;
    let term = instance.term();
    let extension = master.extension_of(term);
    let fate = ledger::fate_of(weather, Store::Master);
    match master.extend(&mut OneFate::new(fate), term) {
        Ok(ceiling) => {
            instance.widened(ceiling);
            book.append_in_room(extend_item(node, term, ceiling));
            Ok(())
        }
        Err(ExtendRefused::StoreFault) => {
            let made = kept_item(fate, node, term, extension);
            ledger::fail(book, Actor::Node(node), Store::Master, made)
        }
        Err(ExtendRefused::Replaced { found }) => {
            stop(book, instance, node, Cause::Replaced { found })
        }
        Err(ExtendRefused::Spent { ceiling }) => {
            stop(book, instance, node, Cause::Spent { ceiling })
        }
    }
}

/// What a failed extension made all the same.
fn kept_item(
    fate: Fate,
    node: NodeNo,
    term: Term,
    extension: Result<u64, ExtendRefused>,
) -> Option<Item>
    ensures { made_items result ≡ kept_if fate extension (Item.Extend node term) }
{
    match (fate, extension) {
        (Fate::FailsApplied, Ok(ceiling)) => Some(extend_item(node, term, ceiling)),
        _ => None,
    }
}

fn extend_item(node: NodeNo, term: Term, ceiling: u64) -> Item
    ensures { result ≡ Item.Extend node term ceiling }
{
    Item::Extend {
        node,
        term,
        ceiling,
    }
}
