// A node decides a session's request.
ghost use Rattle.std.specs.Prelude.{◌≡◌, ◌+◌, ◌≤◌, length, Some};
ghost use Rattle.system_parts.specs.Instance.{held_of};
ghost use Rattle.system_parts.specs.InstanceLaws.{stamp_of};
ghost use Rattle.machine.specs.Events.Decide.{decide_on, decide_request, decide_by, decide_both as both_decided, draw_item as draw_item_of};
ghost use Rattle.event_parts.specs.Made.{Makes};
ghost use Rattle.event_parts.specs.Served.{held_at, decides_at, is_to_decide, HasRoomIf, SpendsIf, NeverLacks, NeverLacksIf};
ghost use Rattle.event_parts.specs.Waiting.{Waits, WaitsFor, WaitsAt};
ghost use Rattle.node_events.specs.Against.{verdict_against};

use event_parts::{Client, Stopped, ledger};
use history_book::{Actor, Book, Cause, Item};
use oracle_core::Instance;
use read_sets::{ReadSet, check_both};
use stamp_base::{NodeNo, SessionNo, Stamp, Term};
use system_parts::{Decided, Held, Progress, Request, Verdict};
use takeover_core::Post;

/// The node draws the stamp of the session's request: refused as NoOracle, then as NoRequest unless it was accepted, then as
/// Conflict or Hidden by the keys that the transaction wrote and then by those of its read set, or by the record's refusal
/// that the instance keeps, which end the request, or as NoStamp, which it is told once. What is told of a request that was
/// accepted takes no memory.
pub fn decide(
    book: &mut Book,
    post: &mut Post,
    client: &mut Client,
    node: NodeNo,
    session: SessionNo,
) -> Result<(), Stopped>
    requires waits { WaitsAt post.old session client.old.entry }
    requires room { HasRoomIf (is_to_decide (held_at post.old session)) 1 book.old.spare }
    ensures made { Makes (decide_on node session post.old client.old) (post.old, client.old) (post.new, client.new)
        book.old.items book.new.items result }
    ensures spare { SpendsIf (is_to_decide (held_at post.old session)) book.old.spare book.old.items book.new.spare book.new.items }
    ensures served { NeverLacksIf (is_to_decide (held_at post.old session)) result }
{
    match &mut post.instance {
        None => ledger::refuse(book, Actor::Node(node), Cause::NoOracle { node }),
        Some(instance) => decide_at(book, instance, client, node, session),
    }
}

fn decide_at(
    book: &mut Book,
    instance: &mut Instance,
    client: &mut Client,
    node: NodeNo,
    session: SessionNo,
) -> Result<(), Stopped>
    requires waits { WaitsFor (held_of instance.old session) client.old.entry }
    requires room { HasRoomIf (is_to_decide (held_of instance.old session)) 1 book.old.spare }
    ensures made { Makes (decide_request node session instance.old client.old (held_of instance.old session))
        (Some instance.old, client.old) (Some instance.new, client.new) book.old.items book.new.items result }
    ensures spare { SpendsIf (is_to_decide (held_of instance.old session)) book.old.spare book.old.items book.new.spare book.new.items }
    ensures served { NeverLacksIf (is_to_decide (held_of instance.old session)) result }
{
    match instance.held(session) {
        None => ledger::refuse(book, Actor::Node(node), Cause::NoRequest { session }),
        Some(held) => decide_held(book, instance, client, node, session, &held),
    }
}

fn decide_held(
    book: &mut Book,
    instance: &mut Instance,
    client: &mut Client,
    node: NodeNo,
    session: SessionNo,
    held: &Held,
) -> Result<(), Stopped>
    requires held { held_of instance.old session ≡ Some held.now }
    requires waits { Waits held.now.request client.old.entry }
    requires room { HasRoomIf (decides_at held.now.progress) 1 book.old.spare }
    ensures made { Makes (decide_by node session held.now (both_decided instance.old session client.old.reads).left client.old (both_decided instance.old session client.old.reads).answer)
        (Some instance.old, client.old) (Some instance.new, client.new) book.old.items book.new.items result }
    ensures spare { SpendsIf (decides_at held.now.progress) book.old.spare book.old.items book.new.spare book.new.items }
    ensures served { NeverLacksIf (decides_at held.now.progress) result }
{
    match &held.progress {
        Progress::Accepted => decide_accepted(book, instance, client, node, session, held),
        Progress::Asked
        | Progress::Drawn { .. }
        | Progress::Settled { .. }
        | Progress::Handed { .. } => {
            ledger::refuse(book, Actor::Node(node), Cause::NoRequest { session })
        }
    }
}

/// The node decides a request that was accepted, in room that was reserved for it.
fn decide_accepted(
    book: &mut Book,
    instance: &mut Instance,
    client: &mut Client,
    node: NodeNo,
    session: SessionNo,
    held: &Held,
) -> Result<(), Stopped>
    requires held { held_of instance.old session ≡ Some held.now }
    requires waits { Waits held.now.request client.old.entry }
    requires room { 1 ≤ book.old.spare }
    ensures made { Makes (decide_by node session held.now (both_decided instance.old session client.old.reads).left client.old (both_decided instance.old session client.old.reads).answer)
        (Some instance.old, client.old) (Some instance.new, client.new) book.old.items book.new.items result }
    ensures spare { book.new.spare + length book.new.items ≡ book.old.spare + length book.old.items }
    ensures served { NeverLacks result }
{
    let decided = decide_both(instance, session, held, client.read_set());
    match &decided {
        Ok(drawn) => {
            let stamp = stamp_drawn(drawn);
            book.append_reserved(draw_item(node, instance.term(), &held.request, stamp));
            Ok(())
        }
        Err(cause @ Cause::NoRequest { .. }) => {
            ledger::tell_reserved(book, Actor::Node(node), *cause)
        }
        Err(cause @ Cause::NoStamp { .. }) => {
            ledger::tell_once(book, held.told_no_stamp, Actor::Session(session), *cause)
        }
        Err(cause) => {
            client.refused(&held.request);
            ledger::tell_reserved(book, Actor::Session(session), *cause)
        }
    }
}

/// The instance's decision, in which the keys that were read count too.
#[tactic(auto, using(crate::proofs::BothSets::decides_alone))]
fn decide_both(
    instance: &mut Instance,
    session: SessionNo,
    held: &Held,
    reads: &ReadSet,
) -> Result<Decided, Cause>
    requires { held_of instance.old session ≡ Some held.now }
    ensures left { instance.new ≡ (both_decided instance.old session reads.now).left }
    ensures answer { result ≡ (both_decided instance.old session reads.now).answer }
{
    match verdict_against(instance, held, reads) {
        Verdict::Free => instance.decide(session),
        Verdict::Conflict { key, by } => {
            let _ = instance.refuse(session);
            Err(Cause::Conflict { key, by })
        }
        Verdict::Hidden { key, water } => {
            let _ = instance.refuse(session);
            Err(Cause::Hidden { key, water })
        }
    }
}

/// What the conflict memory has against a commit that was accepted, by what its transaction wrote and read. Where none of these
/// keys was read, the decision itself looks at what was written.
fn verdict_against(instance: &Instance, held: &Held, reads: &ReadSet) -> Verdict
    ensures { result ≡ verdict_against held.now.progress held.now.request instance.now.buckets reads.now }
{
    match held {
        Held {
            request: Request::Commit { start, keys, .. },
            progress: Progress::Accepted,
            ..
        } if !reads.keys().as_slice().is_empty() => {
            check_both(instance.buckets(), *start, keys, reads)
        }
        _ => Verdict::Free,
    }
}

fn stamp_drawn(decided: &Decided) -> Stamp
    ensures { result ≡ stamp_of decided.now }
{
    match decided {
        Decided::Started(start) => *start,
        Decided::Drawn(commit) => *commit,
    }
}

/// The stamp is a begin's start, or a commit.
fn draw_item(node: NodeNo, term: Term, request: &Request, stamp: Stamp) -> Item
    ensures { result ≡ draw_item_of node term request.now stamp }
{
    match request {
        Request::Begin { session } => Item::Draw {
            session: *session,
            node,
            term,
            start: stamp,
            commit: None,
        },
        Request::Commit { session, start, .. } => Item::Draw {
            session: *session,
            node,
            term,
            start: *start,
            commit: Some(stamp),
        },
    }
}
