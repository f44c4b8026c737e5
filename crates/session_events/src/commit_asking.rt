// A session asks a node to commit its transaction.
ghost use Rattle.std.specs.Prelude.{◌≡◌, ◌≢◌, None, Some, []};
ghost use Rattle.system_parts.specs.declared.session.State.TheVariants.{Open};
ghost use Rattle.system_parts.specs.SessionSteps.{work_refusal};
ghost use Rattle.machine.specs.Clients.{is_reading};
ghost use Rattle.machine.specs.Events.AskCommit.{ask_commit_on, commit_of, commit_asked};
ghost use Rattle.event_parts.specs.Made.{Makes};
ghost use Rattle.event_parts.specs.Waiting.{HoldsNone};

use crate::begin_asking::ask;
use event_parts::{Client, Stopped, ledger};
use history_book::{Actor, Book, Cause, Ending, Item};
use oracle_core::Instance;
use stamp_base::{NodeNo, SessionNo, Stamp};
use system_parts::Request;
use takeover_core::Post;

/// The session asks the node to commit what it wrote: refused as gone, without a transaction or busy, then as NoOracle,
/// then as Full. A transaction without writes ends at once, and no node is looked at.
pub fn ask_commit(
    book: &mut Book,
    client: &mut Client,
    post: &mut Post,
    session: SessionNo,
    node: NodeNo,
) -> Result<(), Stopped>
    requires { work_refusal client.old.entry.state (is_reading client.old) ≡ None → HoldsNone post.old session }
    ensures made { Makes (ask_commit_on session node client.old post.old) (client.old, post.old) (client.new, post.new)
        book.old.items book.new.items result }
    ensures spare { book.new.spare ≡ book.old.spare }
{
    if let Err(cause) = client.check_work() {
        return ledger::refuse(book, Actor::Session(session), cause);
    }
    match client.start() {
        Some(start) => commit_open(book, client, post, session, node, start),
        None => Ok(()),
    }
}

fn commit_open(
    book: &mut Book,
    client: &mut Client,
    post: &mut Post,
    session: SessionNo,
    node: NodeNo,
    start: Stamp,
) -> Result<(), Stopped>
    requires open { client.old.entry.state ≡ Open }
    requires free { HoldsNone post.old session }
    ensures made { Makes (commit_of session node client.old start client.old.entry.keys post.old) (client.old, post.old) (client.new, post.new)
        book.old.items book.new.items result }
    ensures spare { book.new.spare ≡ book.old.spare }
{
    if client.keys().as_slice().is_empty() {
        let how = Ending::ReadOnly;
        book.append(Item::End {
            session,
            start,
            how,
        })?;
        client.freed();
        return Ok(());
    }
    match &mut post.instance {
        None => ledger::refuse(book, Actor::Session(session), Cause::NoOracle { node }),
        Some(instance) => commit_written(book, client, instance, session, node, start),
    }
}

fn commit_written(
    book: &mut Book,
    client: &mut Client,
    instance: &mut Instance,
    session: SessionNo,
    node: NodeNo,
    start: Stamp,
) -> Result<(), Stopped>
    requires open { client.old.entry.state ≡ Open }
    requires written { client.old.entry.keys ≢ [] }
    requires free { HoldsNone (Some instance.old) session }
    ensures made { Makes (commit_asked session node client.old start (Some instance.old)) (client.old, Some instance.old) (client.new, Some instance.new)
        book.old.items book.new.items result }
    ensures spare { book.new.spare ≡ book.old.spare }
{
    let request = Request::Commit {
        session,
        start,
        keys: *client.keys(),
    };
    let asked = Item::AskCommit {
        session,
        node,
        start,
    };
    ask(book, client, instance, session, request, asked)
}
