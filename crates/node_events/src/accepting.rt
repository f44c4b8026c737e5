// A node accepts a session's request, and reserves what the request needs from then on.
ghost use Rattle.std.specs.Prelude.{◌≡◌, ◌≤◌, Some, OnOk, is_ok};
ghost use Rattle.system_parts.specs.Instance.{held_of};
ghost use Rattle.system_parts.specs.InstanceSteps.{instance_accept};
ghost use Rattle.machine.specs.Events.Accept.{accept_on, accept_request, accept_by};
ghost use Rattle.event_parts.specs.Made.{Makes};
ghost use Rattle.event_parts.specs.Served.{held_at};
ghost use Rattle.event_parts.specs.Waiting.{Waits, WaitsFor, WaitsAt};
ghost use Rattle.node_events.specs.Reserved.{ReservesFive, is_direct, HasPlace, HeldHasPlace, KeepPlaces};

use commit_table::Table;
use event_parts::{Client, Stopped, ledger};
use history_book::{Actor, Book, Cause, Item};
use oracle_core::Instance;
use stamp_base::{NoMemory, NodeNo, SessionNo};
use system_parts::Request;
use takeover_core::Post;

/// How many items a request may append once it was accepted: a commit NoStamp, Draw, Placed, a fault and its answer.
const ITEMS: usize = 5;

/// The node accepts the session's request: refused as NoOracle, then as NoRequest unless it was asked, then as Expired or
/// OldEpoch, which end the request. No other event looks at the lease. All memory that the request needs from then on is
/// reserved first, and none for a request that is refused; where memory is refused a place may have been reserved, and no item. A
/// commit that its session is to place needs no place in the table.
pub fn accept(
    book: &mut Book,
    post: &mut Post,
    table: &mut Table,
    client: &mut Client,
    node: NodeNo,
    session: SessionNo,
    reading: u64,
) -> Result<(), Stopped>
    requires { WaitsAt post.old session client.old.entry }
    ensures made { Makes (accept_on node session reading post.old client.old) (post.old, client.old) (post.new, client.new)
        book.old.items book.new.items result }
    ensures spare { ReservesFive result book.old.spare book.new.spare }
    ensures pairs { table.new.pairs ≡ table.old.pairs }
    ensures place { OnOk result (HeldHasPlace (is_direct post.old) table.new.places (held_at post.old session)) }
    ensures places { KeepPlaces table.old.places table.new.places }
{
    match &mut post.instance {
        None => ledger::refuse(book, Actor::Node(node), Cause::NoOracle { node }),
        Some(instance) => accept_at(book, instance, table, client, node, session, reading),
    }
}

fn accept_at(
    book: &mut Book,
    instance: &mut Instance,
    table: &mut Table,
    client: &mut Client,
    node: NodeNo,
    session: SessionNo,
    reading: u64,
) -> Result<(), Stopped>
    requires { WaitsFor (held_of instance.old session) client.old.entry }
    ensures made { Makes (accept_request node session reading instance.old client.old (held_of instance.old session))
        (Some instance.old, client.old) (Some instance.new, client.new) book.old.items book.new.items result }
    ensures spare { ReservesFive result book.old.spare book.new.spare }
    ensures pairs { table.new.pairs ≡ table.old.pairs }
    ensures place { OnOk result (HeldHasPlace instance.old.direct table.new.places (held_of instance.old session)) }
    ensures places { KeepPlaces table.old.places table.new.places }
{
    match instance.held(session) {
        None => ledger::refuse(book, Actor::Node(node), Cause::NoRequest { session }),
        Some(held) => accept_held(
            book,
            instance,
            table,
            client,
            node,
            session,
            reading,
            &held.request,
        ),
    }
}

fn accept_held(
    book: &mut Book,
    instance: &mut Instance,
    table: &mut Table,
    client: &mut Client,
    node: NodeNo,
    session: SessionNo,
    reading: u64,
    request: &Request,
) -> Result<(), Stopped>
    requires { Waits request.now client.old.entry }
    ensures made { Makes (accept_by node session reading request.now (instance_accept instance.old session reading).left client.old (instance_accept instance.old session reading).answer)
        (Some instance.old, client.old) (Some instance.new, client.new) book.old.items book.new.items result }
    ensures spare { ReservesFive result book.old.spare book.new.spare }
    ensures pairs { table.new.pairs ≡ table.old.pairs }
    ensures place { OnOk result (HasPlace instance.old.direct table.new.places request.now) }
    ensures places { KeepPlaces table.old.places table.new.places }
{
    book.make_room(1)?;
    if !instance.may_accept(session, reading) {
        return accept_or_refuse(book, instance, client, node, session, reading, request);
    }
    reserve_place(table, instance.direct(), request)?;
    book.reserve(ITEMS)?;
    accept_or_refuse(book, instance, client, node, session, reading, request)
}

/// A commit that the oracle is to place has a place in the table from now on.
fn reserve_place(table: &mut Table, direct: bool, request: &Request) -> Result<(), NoMemory>
    ensures pairs { table.new.pairs ≡ table.old.pairs }
    ensures place { OnOk result (HasPlace direct table.new.places request.now) }
    ensures places { KeepPlaces table.old.places table.new.places }
{
    match request {
        Request::Commit { start, .. } if !direct => table.reserve(*start),
        _ => Ok(()),
    }
}

/// The instance accepts the request or refuses it, which is told in room that was made.
fn accept_or_refuse(
    book: &mut Book,
    instance: &mut Instance,
    client: &mut Client,
    node: NodeNo,
    session: SessionNo,
    reading: u64,
    request: &Request,
) -> Result<(), Stopped>
    requires room { 1 ≤ book.old.room }
    requires waits { Waits request.now client.old.entry }
    ensures made { Makes (accept_by node session reading request.now (instance_accept instance.old session reading).left client.old (instance_accept instance.old session reading).answer)
        (Some instance.old, client.old) (Some instance.new, client.new) book.old.items book.new.items result }
    ensures spare { book.new.spare ≡ book.old.spare }
    ensures accepts { is_ok result ≡ is_ok (instance_accept instance.old session reading).answer }
{
    let accepted = instance.accept(session, reading);
    match &accepted {
        Ok(()) => {
            book.append_in_room(Item::Accept {
                session,
                node,
                term: instance.term(),
                reading,
            });
            Ok(())
        }
        Err(cause @ Cause::NoRequest { .. }) => ledger::tell(book, Actor::Node(node), *cause),
        Err(cause) => {
            client.refused(request);
            ledger::tell(book, Actor::Session(session), *cause)
        }
    }
}
