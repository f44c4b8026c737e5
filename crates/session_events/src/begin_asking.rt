// A session asks a node for a start.
ghost use Rattle.std.specs.Prelude.{◌≡◌, None, Some};
ghost use Rattle.system_parts.specs.SessionSteps.{begin_refusal, CanAsk};
ghost use Rattle.system_parts.specs.InstanceSteps.{CanAskOf, instance_ask};
ghost use Rattle.machine.specs.Events.AskBegin.{ask_begin_on, asked_by};
ghost use Rattle.event_parts.specs.Made.{Makes};
ghost use Rattle.event_parts.specs.Waiting.{HoldsNone};

use event_parts::{Client, Stopped, ledger};
use history_book::{Actor, Book, Cause, Item};
use oracle_core::Instance;
use stamp_base::{NodeNo, SessionNo};
use system_parts::Request;
use takeover_core::Post;

/// The session asks the node for a start: refused as gone or busy, then as NoOracle, then as Full.
pub fn ask_begin(
    book: &mut Book,
    client: &mut Client,
    post: &mut Post,
    session: SessionNo,
    node: NodeNo,
) -> Result<(), Stopped>
    requires { begin_refusal client.old.entry.state ≡ None → HoldsNone post.old session }
    ensures made { Makes (ask_begin_on session node client.old post.old) (client.old, post.old) (client.new, post.new)
        book.old.items book.new.items result }
    ensures spare { book.new.spare ≡ book.old.spare }
{
    if let Err(cause) = client.check_begin() {
        return ledger::refuse(book, Actor::Session(session), cause);
    }
    match &mut post.instance {
        None => ledger::refuse(book, Actor::Session(session), Cause::NoOracle { node }),
        Some(instance) => {
            let request = Request::Begin { session };
            let asked = Item::AskBegin { session, node };
            ask(book, client, instance, session, request, asked)
        }
    }
}

/// The instance takes the request, or refuses it as Full.
pub(crate) fn ask(
    book: &mut Book,
    client: &mut Client,
    instance: &mut Instance,
    session: SessionNo,
    request: Request,
    asked: Item,
) -> Result<(), Stopped>
    requires client { CanAsk client.old.entry }
    requires instance { CanAskOf instance.old request }
    ensures made { Makes (asked_by session client.old asked (instance_ask instance.old request) (instance_ask instance.old request).answer)
        (client.old, Some instance.old) (client.new, Some instance.new) book.old.items book.new.items result }
    ensures spare { book.new.spare ≡ book.old.spare }
{
    book.make_room(1)?;
    match instance.ask(request) {
        Ok(()) => {
            client.asked();
            book.append_in_room(asked);
            Ok(())
        }
        Err(cause) => ledger::tell(book, Actor::Session(session), cause),
    }
}
