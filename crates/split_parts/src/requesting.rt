// The events of a request, from its ask to its answer, made of the lent parts themselves.
ghost use Rattle.std.specs.Prelude.{◌≡◌, ◌<◌, IfSome, OnOk, None};
ghost use Rattle.machine.specs.Events.AskBegin.{ask_begin_on};
ghost use Rattle.machine.specs.Events.AskCommit.{ask_commit_on};
ghost use Rattle.machine.specs.Clients.{is_reading};
ghost use Rattle.machine.specs.Calls.{HoldsNone, WaitsAt};
ghost use Rattle.machine.specs.Events.Accept.{accept_on};
ghost use Rattle.machine.specs.Events.Put.{put_on, to_place};
ghost use Rattle.event_parts.specs.Served.{held_at, HasPlaceFor};
ghost use Rattle.system_parts.specs.SessionSteps.{begin_refusal, work_refusal};
ghost use Rattle.event_parts.specs.Made.{Makes};
ghost use Rattle.machine.specs.Events.Decide.{decide_on};
ghost use Rattle.machine.specs.Events.Answer.{answer_on};
ghost use Rattle.cluster_core.specs.Required.{CanMake};
ghost use Rattle.port_io.specs.declared.weather.Fate.{Fate};
ghost use Rattle.split_parts.specs.Direct.{HasAll, lent_effect, MakesOfNode, MakesOfTable, turned};
ghost use Rattle.split_parts.specs.Parts.{behind, filled, node_of, seen, session_of, table_of};

use crate::Lent;
use crate::parts::{NodePart, SessionPart, TablePart};
use commit_table::Table;
use event_parts::Stopped;
use history_book::Book;
use machine::Event;
use port_io::OneFate;
use stamp_base::{NoMemory, NodeNo, SessionNo};
use std::alloc::Global;
use takeover_core::Post;

fn ask_begin_to(
    book: &mut Book,
    own: &mut Option<&mut SessionPart>,
    post: &mut Option<&mut NodePart>,
    session: SessionNo,
    node: NodeNo,
) -> Result<(), Stopped>
    requires { IfSome (behind session_of own.old) (λ own. IfSome (behind node_of post.old) (λ part. begin_refusal own.client.entry.state ≡ None → HoldsNone part.instance session)) }
    ensures { MakesOfNode (λ c i. ask_begin_on session node c i) (behind session_of own.old) (behind node_of post.old) (behind session_of own.new) (behind node_of post.new) book.old.items book.new.items result }
{
    match (own, post) {
        (Some(place), Some(at)) => {
            let part = &mut **place;
            let at = &mut **at;
            let made = session_events::ask_begin(
                book,
                &mut part.client,
                &mut at.post,
                session,
                node,
            );
            part.remember(node, &made);
            made
        }
        _ => Ok(()),
    }
}

fn ask_commit_to(
    book: &mut Book,
    own: &mut Option<&mut SessionPart>,
    post: &mut Option<&mut NodePart>,
    session: SessionNo,
    node: NodeNo,
) -> Result<(), Stopped>
    requires { IfSome (behind session_of own.old) (λ own. IfSome (behind node_of post.old) (λ part. work_refusal own.client.entry.state (is_reading own.client) ≡ None → HoldsNone part.instance session)) }
    ensures { MakesOfNode (λ c i. ask_commit_on session node c i) (behind session_of own.old) (behind node_of post.old) (behind session_of own.new) (behind node_of post.new) book.old.items book.new.items result }
{
    match (own, post) {
        (Some(place), Some(at)) => {
            let part = &mut **place;
            let at = &mut **at;
            let made = session_events::ask_commit(
                book,
                &mut part.client,
                &mut at.post,
                session,
                node,
            );
            part.remember(node, &made);
            made
        }
        _ => Ok(()),
    }
}

#[tactic(auto, using(crate::proofs::Directly::has_room))]
fn decide_to(
    book: &mut Book,
    own: &mut Option<&mut SessionPart>,
    post: &mut Option<&mut NodePart>,
    session: SessionNo,
    node: NodeNo,
) -> Result<(), Stopped>
    requires { IfSome (behind session_of own.old) (λ own. IfSome (behind node_of post.old) (λ part. WaitsAt part.instance session own.client.entry)) }
    ensures { MakesOfNode (λ c i. turned (decide_on node session i c)) (behind session_of own.old) (behind node_of post.old) (behind session_of own.new) (behind node_of post.new) book.old.items book.new.items result }
{
    book.reserve(1)?;
    match (own, post) {
        (Some(place), Some(at)) => {
            let part = &mut **place;
            let at = &mut **at;
            node_events::decide(book, &mut at.post, &mut part.client, node, session)
        }
        _ => Ok(()),
    }
}

#[tactic(auto, using(crate::proofs::Directly::has_room))]
fn answer_to(
    book: &mut Book,
    own: &mut Option<&mut SessionPart>,
    post: &mut Option<&mut NodePart>,
    session: SessionNo,
    node: NodeNo,
) -> Result<(), Stopped>
    requires { IfSome (behind session_of own.old) (λ own. IfSome (behind node_of post.old) (λ part. WaitsAt part.instance session own.client.entry)) }
    ensures { MakesOfNode (λ c i. turned (answer_on node session i c)) (behind session_of own.old) (behind node_of post.old) (behind session_of own.new) (behind node_of post.new) book.old.items book.new.items result }
{
    book.reserve(1)?;
    match (own, post) {
        (Some(place), Some(at)) => {
            let part = &mut **place;
            let at = &mut **at;
            node_events::answer(book, &mut at.post, &mut part.client, node, session)
        }
        _ => Ok(()),
    }
}

fn accept_to(
    alloc: Global,
    book: &mut Book,
    own: &mut Option<&mut SessionPart>,
    post: &mut Option<&mut NodePart>,
    session: SessionNo,
    node: NodeNo,
    reading: u64,
) -> Result<(), Stopped>
    requires { IfSome (behind session_of own.old) (λ own. IfSome (behind node_of post.old) (λ part. WaitsAt part.instance session own.client.entry)) }
    ensures { MakesOfNode (λ c i. turned (accept_on node session reading i c)) (behind session_of own.old) (behind node_of post.old) (behind session_of own.new) (behind node_of post.new) book.old.items book.new.items result }
{
    let mut places = Table::new(alloc);
    match (own, post) {
        (Some(place), Some(at)) => {
            let part = &mut **place;
            let at = &mut **at;
            node_events::accept(
                book,
                &mut at.post,
                &mut places,
                &mut part.client,
                node,
                session,
                reading,
            )
        }
        _ => Ok(()),
    }
}

/// A place for the commit that the node is to place.
fn reserve_place(post: &Post, table: &mut Table, session: SessionNo) -> Result<(), NoMemory>
    ensures place { OnOk result (HasPlaceFor (to_place (held_at post.now session)) table.new.places) }
    ensures pairs { table.new.pairs ≡ table.old.pairs }
{
    match node_events::commit_to_place(post, session) {
        Some((start, _)) => table.reserve(start),
        None => Ok(()),
    }
}

#[tactic(auto, using(crate::proofs::Directly::has_room))]
fn put_to(
    weather: &mut OneFate,
    book: &mut Book,
    post: &mut Option<&mut NodePart>,
    table: &mut Option<&mut TablePart>,
    session: SessionNo,
    node: NodeNo,
) -> Result<(), Stopped>
    ensures { MakesOfTable (λ i pairs. put_on node session weather.old.fate i pairs) (behind node_of post.old) (behind table_of table.old) (behind node_of post.new) (behind table_of table.new) book.old.items book.new.items result }
{
    book.reserve(2)?;
    match (post, table) {
        (Some(place), Some(marks)) => {
            let at = &mut **place;
            let marks = &mut **marks;
            reserve_place(&at.post, &mut marks.table, session)?;
            node_events::put(weather, book, &mut at.post, &mut marks.table, node, session)
        }
        _ => Ok(()),
    }
}

pub(crate) fn ask_begin_among(
    lent: &mut Lent<'_>,
    book: &mut Book,
    session: SessionNo,
    node: NodeNo,
) -> Result<(), Stopped>
    requires all { HasAll (seen lent.old) (Event.AskBegin session node) }
    requires can { CanMake (filled (seen lent.old)) (Event.AskBegin session node) }
    ensures { (fate : Fate) → Makes (lent_effect (seen lent.old) (Event.AskBegin session node) fate) (seen lent.old) (seen lent.new) book.old.items book.new.items result }
{
    let mut own = lent.take_session(session.index());
    let made = ask_begin_to(book, &mut own, &mut lent.node, session, node);
    lent.put_session(session.index(), own);
    made
}

pub(crate) fn ask_commit_among(
    lent: &mut Lent<'_>,
    book: &mut Book,
    session: SessionNo,
    node: NodeNo,
) -> Result<(), Stopped>
    requires all { HasAll (seen lent.old) (Event.AskCommit session node) }
    requires can { CanMake (filled (seen lent.old)) (Event.AskCommit session node) }
    ensures { (fate : Fate) → Makes (lent_effect (seen lent.old) (Event.AskCommit session node) fate) (seen lent.old) (seen lent.new) book.old.items book.new.items result }
{
    let mut own = lent.take_session(session.index());
    let made = ask_commit_to(book, &mut own, &mut lent.node, session, node);
    lent.put_session(session.index(), own);
    made
}

pub(crate) fn decide_among(
    lent: &mut Lent<'_>,
    book: &mut Book,
    session: SessionNo,
    node: NodeNo,
) -> Result<(), Stopped>
    requires all { HasAll (seen lent.old) (Event.Decide node session) }
    requires can { CanMake (filled (seen lent.old)) (Event.Decide node session) }
    ensures { (fate : Fate) → Makes (lent_effect (seen lent.old) (Event.Decide node session) fate) (seen lent.old) (seen lent.new) book.old.items book.new.items result }
{
    let mut own = lent.take_session(session.index());
    let made = decide_to(book, &mut own, &mut lent.node, session, node);
    lent.put_session(session.index(), own);
    made
}

pub(crate) fn answer_among(
    lent: &mut Lent<'_>,
    book: &mut Book,
    session: SessionNo,
    node: NodeNo,
) -> Result<(), Stopped>
    requires all { HasAll (seen lent.old) (Event.Answer node session) }
    requires can { CanMake (filled (seen lent.old)) (Event.Answer node session) }
    ensures { (fate : Fate) → Makes (lent_effect (seen lent.old) (Event.Answer node session) fate) (seen lent.old) (seen lent.new) book.old.items book.new.items result }
{
    let mut own = lent.take_session(session.index());
    let made = answer_to(book, &mut own, &mut lent.node, session, node);
    lent.put_session(session.index(), own);
    made
}

pub(crate) fn accept_among(
    alloc: Global,
    lent: &mut Lent<'_>,
    book: &mut Book,
    session: SessionNo,
    node: NodeNo,
    reading: u64,
) -> Result<(), Stopped>
    requires all { HasAll (seen lent.old) (Event.Accept node session reading) }
    requires can { CanMake (filled (seen lent.old)) (Event.Accept node session reading) }
    ensures { (fate : Fate) → Makes (lent_effect (seen lent.old) (Event.Accept node session reading) fate) (seen lent.old) (seen lent.new) book.old.items book.new.items result }
{
    let mut own = lent.take_session(session.index());
    let made = accept_to(
        alloc,
        book,
        &mut own,
        &mut lent.node,
        session,
        node,
        reading,
    );
    lent.put_session(session.index(), own);
    made
}

pub(crate) fn put_among(
    lent: &mut Lent<'_>,
    weather: &mut OneFate,
    book: &mut Book,
    session: SessionNo,
    node: NodeNo,
) -> Result<(), Stopped>
    requires { HasAll (seen lent.old) (Event.Put node session) }
    ensures { Makes (lent_effect (seen lent.old) (Event.Put node session) weather.old.fate) (seen lent.old) (seen lent.new) book.old.items book.new.items result }
{
    put_to(
        weather,
        book,
        &mut lent.node,
        &mut lent.table,
        session,
        node,
    )
}
