// A node's instance ends, with all requests that it holds.
ghost use Rattle.std.specs.Prelude.{◌≡◌, ℕ, ◌+◌, ◌≤◌, ◌++◌, ◌∷◌, slice_get, Some};
ghost use Rattle.system_parts.specs.Instance.{held_of};
ghost use Rattle.machine.specs.State as state;
ghost use Rattle.machine.specs.Events.Crash.{crash_on, crashed_clients, all_crashed_items, crashed_client, crashed_items, after_loss, loss_items};
ghost use Rattle.event_parts.specs.Made.{Makes};
ghost use Rattle.event_parts.specs.Waiting.{Waits, WaitsFor, WaitsAt};

use event_parts::{Client, Stopped, ledger};
use history_book::{Actor, Book, Cause, Item};
use oracle_core::Instance;
use stamp_base::{NodeNo, SessionNo, Term};
use system_parts::{Held, Request, State};
use takeover_core::Post;

/// The node's instance ends, and its requests are lost: refused as NoOracle where it has none. In the order of the sessions,
/// one that was asking there is free, and one whose commit was in flight there has an open outcome.
pub fn crash(
    book: &mut Book,
    post: &mut Post,
    clients: &mut [Client],
    node: NodeNo,
) -> Result<(), Stopped>
    requires { (n : ℕ) (c : state.Client) → slice_get clients.old n ≡ Some c → WaitsAt post.old n c.entry }
    ensures made { Makes (crash_on node post.old clients.old) (post.old, clients.old) (post.new, clients.new)
        book.old.items book.new.items result }
    ensures spare { book.new.spare ≡ book.old.spare }
{
    match &post.instance {
        None => ledger::refuse(book, Actor::Node(node), Cause::NoOracle { node }),
        Some(instance) => {
            // The crash, and at most one refusal for each session.
            book.make_room(SessionNo::COUNT + 1)?;
            lose_all(book, instance, clients, node);
            post.crashed();
            Ok(())
        }
    }
}

/// All requests of the instance are lost.
fn lose_all(book: &mut Book, instance: &Instance, clients: &mut [Client], node: NodeNo)
    requires room { 17 ≤ book.old.room }
    requires waits { (n : ℕ) (c : state.Client) → slice_get clients.old n ≡ Some c → WaitsFor (held_of instance.now n) c.entry }
    ensures clients { clients.new ≡ crashed_clients instance.now.requests clients.old }
    ensures items { book.new.items ≡ book.old.items ++ (Item.Crash node instance.now.term ∷ all_crashed_items node instance.now.term instance.now.requests clients.old) }
    ensures spare { book.new.spare ≡ book.old.spare }
{
    let term = instance.term();
    book.append_in_room(Item::Crash { node, term });
    let requests = instance.requests();
    for i in 0..clients.len().min(requests.len()) {
        let client = &mut clients[i];
        lose(book, client, node, term, &requests[i]);
    }
}

/// The client loses its request, where one was held.
fn lose(book: &mut Book, client: &mut Client, node: NodeNo, term: Term, held: &Option<Held>)
    requires room { 1 ≤ book.old.room }
    requires waits { WaitsFor held.now client.old.entry }
    ensures client { client.new ≡ crashed_client held.now client.old }
    ensures items { book.new.items ≡ book.old.items ++ crashed_items node term held.now client.old }
    ensures spare { book.new.spare ≡ book.old.spare }
    ensures room { book.old.room ≤ book.new.room + 1 }
{
    match held {
        None => {}
        Some(held) => lose_request(book, client, node, term, &held.request),
    }
}

fn lose_request(book: &mut Book, client: &mut Client, node: NodeNo, term: Term, request: &Request)
    requires room { 1 ≤ book.old.room }
    requires waits { Waits request.now client.old.entry }
    ensures client { client.new ≡ after_loss request.now client.old }
    ensures items { book.new.items ≡ book.old.items ++ loss_items node term request.now client.old }
    ensures spare { book.new.spare ≡ book.old.spare }
    ensures room { book.old.room ≤ book.new.room + 1 }
{
    if client.state() == State::Gone {
        return;
    }
    match request {
        Request::Begin { session } => {
            client.freed();
            book.append_in_room(Item::Refused {
                actor: Actor::Session(*session),
                cause: Cause::Crashed { node, term },
            });
        }
        Request::Commit { session, start, .. } => {
            client.opened();
            book.append_in_room(Item::Refused {
                actor: Actor::Session(*session),
                cause: Cause::Open { start: *start },
            });
        }
    }
}
