// A node places the record of a session's commit.
ghost use Rattle.std.specs.Prelude.{◌≡◌, ◌+◌, ◌≤◌, length, Some, IsTrue};
ghost use Rattle.std.specs.FinSet as set;
ghost use Rattle.system_parts.specs.Instance.{held_of};
ghost use Rattle.system_parts.specs.InstanceSteps.{instance_settle};
ghost use Rattle.machine.specs.Events.Put.{put_on, put_commit, put_asks, commit_asks, to_place as to_place_of};
ghost use Rattle.event_parts.specs.Made.{Makes, Asks};
ghost use Rattle.event_parts.specs.Served.{held_at, is_to_put, HasRoomIf, HasPlaceFor, SpendsIf, NeverLacks, NeverLacksIf, places_after};

use commit_table::{Put, StoreFault, Table};
use event_parts::{Stopped, ledger};
use history_book::{Actor, Book, Cause, Item, StoreStep};
use oracle_core::Instance;
use port_io::Weather;
use stamp_base::{Mark, NodeNo, SessionNo, Stamp, Store};
use system_parts::{Held, Progress, Request, Settled};
use takeover_core::Post;

/// The node places the record of the session's commit, unless a mark stands in its place: refused as NoOracle, then as
/// NoRequest unless the commit was drawn and is not settled. The commit is settled in all ways, also where the call fails. It
/// uses up its place in the table, and neither the table nor the book takes memory for it.
pub fn put<W: Weather>(
    weather: &mut W,
    book: &mut Book,
    post: &mut Post,
    table: &mut Table,
    node: NodeNo,
    session: SessionNo,
) -> Result<(), Stopped>
    requires room { HasRoomIf (is_to_put (held_at post.old session)) 2 book.old.spare }
    requires place { HasPlaceFor (to_place_of (held_at post.old session)) table.old.places }
    ensures made { Makes (put_on node session (W.ahead weather.old Store.Table 0) post.old table.old.pairs)
        (post.old, table.old.pairs) (post.new, table.new.pairs) book.old.items book.new.items result }
    ensures spare { SpendsIf (is_to_put (held_at post.old session)) book.old.spare book.old.items book.new.spare book.new.items }
    ensures places { table.new.places ≡ places_after (to_place_of (held_at post.old session)) table.old.places }
    ensures served { NeverLacksIf (is_to_put (held_at post.old session)) result }
    ensures asked { Asks result (put_asks session post.old) (W.ahead weather.old) (W.ahead weather.new)
        (W.faults weather.old) (W.faults weather.new) }
{
    match &mut post.instance {
        None => ledger::refuse(book, Actor::Node(node), Cause::NoOracle { node }),
        Some(instance) => put_at(weather, book, instance, table, node, session),
    }
}

fn put_at<W: Weather>(
    weather: &mut W,
    book: &mut Book,
    instance: &mut Instance,
    table: &mut Table,
    node: NodeNo,
    session: SessionNo,
) -> Result<(), Stopped>
    requires room { HasRoomIf (is_to_put (held_of instance.old session)) 2 book.old.spare }
    requires place { HasPlaceFor (to_place_of (held_of instance.old session)) table.old.places }
    ensures made { Makes (put_commit node session (W.ahead weather.old Store.Table 0) instance.old table.old.pairs (to_place_of (held_of instance.old session)))
        (Some instance.old, table.old.pairs) (Some instance.new, table.new.pairs) book.old.items book.new.items result }
    ensures spare { SpendsIf (is_to_put (held_of instance.old session)) book.old.spare book.old.items book.new.spare book.new.items }
    ensures places { table.new.places ≡ places_after (to_place_of (held_of instance.old session)) table.old.places }
    ensures served { NeverLacksIf (is_to_put (held_of instance.old session)) result }
    ensures asked { Asks result (commit_asks (to_place_of (held_of instance.old session))) (W.ahead weather.old) (W.ahead weather.new)
        (W.faults weather.old) (W.faults weather.new) }
{
    match to_place(&instance.held(session)) {
        None => ledger::refuse(book, Actor::Node(node), Cause::NoRequest { session }),
        Some((start, commit)) => put_drawn(
            weather, book, instance, table, node, session, start, commit,
        ),
    }
}

/// The node places a commit that was drawn, in room and in a place that were reserved for it.
fn put_drawn<W: Weather>(
    weather: &mut W,
    book: &mut Book,
    instance: &mut Instance,
    table: &mut Table,
    node: NodeNo,
    session: SessionNo,
    start: Stamp,
    commit: Stamp,
) -> Result<(), Stopped>
    requires room { 2 ≤ book.old.spare }
    requires place { IsTrue (set.contains table.old.places start) }
    ensures made { Makes (put_commit node session (W.ahead weather.old Store.Table 0) instance.old table.old.pairs (Some (start, commit)))
        (Some instance.old, table.old.pairs) (Some instance.new, table.new.pairs) book.old.items book.new.items result }
    ensures spare { book.new.spare + length book.new.items ≡ book.old.spare + length book.old.items }
    ensures places { table.new.places ≡ set.remove table.old.places start }
    ensures served { NeverLacks result }
    ensures asked { Asks result (Some Store.Table) (W.ahead weather.old) (W.ahead weather.new)
        (W.faults weather.old) (W.faults weather.new) }
{
    let before = table.mark_of(start);
    match table.put_reserved(weather, start, Mark::Committed(commit)) {
        Ok(Put::Placed) => {
            settle(instance, session, Settled::Placed);
            book.append_reserved(Item::Placed { start, commit });
            Ok(())
        }
        Ok(Put::Found(_)) => {
            settle(instance, session, Settled::Invalid);
            book.append_reserved(Item::Step {
                actor: Actor::Node(node),
                what: StoreStep::PutFound { txn: start },
            });
            Ok(())
        }
        Err(StoreFault) => {
            settle(instance, session, Settled::Faulted);
            let made = ledger::placed_item(before, table.mark_of(start), start, commit);
            ledger::fail_reserved(book, Actor::Node(node), Store::Table, made)
        }
    }
}

/// The start and the commit of a commit that was drawn, and that the oracle is to place.
pub(crate) fn to_place(held: &Option<Held>) -> Option<(Stamp, Stamp)>
    ensures { result ≡ to_place_of held.now }
{
    match held {
        Some(
            Held {
                request: Request::Commit { start, .. },
                progress: Progress::Drawn { stamp },
                ..
            },
        ) => Some((*start, *stamp)),
        _ => None,
    }
}

/// The commit is settled. It was drawn, so this is not refused.
fn settle(instance: &mut Instance, session: SessionNo, how: Settled)
    ensures { instance.new ≡ (instance_settle instance.old session how).left }
{
    let _ = instance.settle(session, how);
}
