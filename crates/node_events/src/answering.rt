// A node answers a session's request.
ghost use Rattle.std.specs.Prelude.{◌≡◌, ◌+◌, ◌≤◌, ◌++◌, length, Some};
ghost use Rattle.system_parts.specs.Instance.{held_of, stamps_at};
ghost use Rattle.system_parts.specs.InstanceSteps.{instance_answer};
ghost use Rattle.machine.specs.Events.Answer.{answer_on, answer_request, answer_by};
ghost use Rattle.event_parts.specs.Made.{Makes, ended};
ghost use Rattle.event_parts.specs.Served.{held_at, is_to_answer, HasRoomIf, SpendsIf, NeverLacks, NeverLacksIf};
ghost use Rattle.event_parts.specs.Waiting.{WaitsFor, WaitsAt};
ghost use Rattle.event_parts.specs.Replies.{reply_told};
ghost use Rattle.node_events.specs.Ready.{ready_start};

use event_parts::{Client, Stopped, ledger};
use history_book::{Actor, Book, Cause, Item, StoreStep};
use oracle_core::Instance;
use stamp_base::{NodeNo, SessionNo, Stamp};
use system_parts::{Held, Progress, Reply, Request};
use takeover_core::Post;

/// The node answers the session's request, which ends it: refused as NoOracle, then as NoRequest unless it is a begin that was
/// drawn, or a commit that was settled or is to be handed over, or as NotYet while a commit that was drawn below a begin's start
/// and that the oracle is to place is not settled, which it is told once. A commit that is invalid or open is told as a refusal.
/// What is told of a request that has its answer takes no memory.
pub fn answer(
    book: &mut Book,
    post: &mut Post,
    client: &mut Client,
    node: NodeNo,
    session: SessionNo,
) -> Result<(), Stopped>
    requires waits { WaitsAt post.old session client.old.entry }
    requires room { HasRoomIf (is_to_answer (held_at post.old session)) 1 book.old.spare }
    ensures made { Makes (answer_on node session post.old client.old) (post.old, client.old) (post.new, client.new)
        book.old.items book.new.items result }
    ensures spare { SpendsIf (is_to_answer (held_at post.old session)) book.old.spare book.old.items book.new.spare book.new.items }
    ensures served { NeverLacksIf (is_to_answer (held_at post.old session)) result }
{
    match &mut post.instance {
        None => ledger::refuse(book, Actor::Node(node), Cause::NoOracle { node }),
        Some(instance) => answer_at(book, instance, client, node, session),
    }
}

#[tactic(auto, using(crate::proofs::Replies::not_ready))]
fn answer_at(
    book: &mut Book,
    instance: &mut Instance,
    client: &mut Client,
    node: NodeNo,
    session: SessionNo,
) -> Result<(), Stopped>
    requires waits { WaitsFor (held_of instance.old session) client.old.entry }
    requires room { HasRoomIf (is_to_answer (held_of instance.old session)) 1 book.old.spare }
    ensures made { Makes (answer_request node session instance.old client.old (stamps_at instance.old session))
        (Some instance.old, client.old) (Some instance.new, client.new) book.old.items book.new.items result }
    ensures spare { SpendsIf (is_to_answer (held_of instance.old session)) book.old.spare book.old.items book.new.spare book.new.items }
    ensures served { NeverLacksIf (is_to_answer (held_of instance.old session)) result }
{
    // Read before the call, for a reply has no start.
    match ready_start(&instance.held(session)) {
        None => ledger::refuse(book, Actor::Node(node), Cause::NoRequest { session }),
        Some(start) => answer_ready(book, instance, client, node, session, start),
    }
}

/// The node answers a request that has its answer, in room that was reserved for it.
#[tactic(auto, using(crate::proofs::Replies::waits_for_reply, crate::proofs::Replies::reply_made))]
fn answer_ready(
    book: &mut Book,
    instance: &mut Instance,
    client: &mut Client,
    node: NodeNo,
    session: SessionNo,
    start: Stamp,
) -> Result<(), Stopped>
    requires waits { WaitsFor (held_of instance.old session) client.old.entry }
    requires room { 1 ≤ book.old.spare }
    ensures made { Makes (answer_by node session start client.old instance.old (instance_answer instance.old session).left (instance_answer instance.old session).answer)
        (Some instance.old, client.old) (Some instance.new, client.new) book.old.items book.new.items result }
    ensures spare { book.new.spare + length book.new.items ≡ book.old.spare + length book.old.items }
    ensures served { NeverLacks result }
{
    let told = instance.told_not_yet(session);
    let answer = instance.answer(session);
    match &answer {
        Ok(reply) => {
            client.replied(reply);
            tell_reply(book, session, start, reply)
        }
        Err(cause @ Cause::NotYet { .. }) => {
            ledger::tell_once(book, told, Actor::Session(session), *cause)
        }
        Err(cause) => ledger::tell_reserved(book, Actor::Node(node), *cause),
    }
}

/// The start of a request that has its answer: a begin that was drawn, or a commit that was settled or is to be handed over.
fn ready_start(held: &Option<Held>) -> Option<Stamp>
    ensures { result ≡ ready_start held.now }
{
    match held {
        Some(
            Held {
                request: Request::Begin { .. },
                progress: Progress::Drawn { stamp },
                ..
            },
        ) => Some(*stamp),
        Some(
            Held {
                request: Request::Commit { start, .. },
                progress: Progress::Settled { .. } | Progress::Handed { .. },
                ..
            },
        ) => Some(*start),
        _ => None,
    }
}

/// The item of a reply, and how the event ends by it.
fn tell_reply(
    book: &mut Book,
    session: SessionNo,
    start: Stamp,
    reply: &Reply,
) -> Result<(), Stopped>
    requires { 1 ≤ book.old.spare }
    ensures items { book.new.items ≡ book.old.items ++ (reply_told session start reply.now).items }
    ensures spare { book.new.spare + length book.new.items ≡ book.old.spare + length book.old.items }
    ensures answer { result ≡ ended (reply_told session start reply.now).stop }
{
    match reply {
        Reply::Begun { start, .. } => {
            book.append_reserved(Item::Begin {
                session,
                start: *start,
            });
            Ok(())
        }
        Reply::Committed { commit } => {
            book.append_reserved(Item::Committed {
                session,
                start,
                commit: *commit,
            });
            Ok(())
        }
        Reply::Handed { commit } => {
            book.append_reserved(Item::Step {
                actor: Actor::Session(session),
                what: StoreStep::Handed {
                    txn: start,
                    commit: *commit,
                },
            });
            Ok(())
        }
        Reply::Invalid => {
            ledger::tell_reserved(book, Actor::Session(session), Cause::Invalid { start })
        }
        Reply::Open => ledger::tell_reserved(book, Actor::Session(session), Cause::Open { start }),
    }
}
