// The members of each kind of item, which are compared with those of an object that was read.
ghost use Rattle.std.specs.Prelude.{◌≡◌, ◌↔◌, IsTrue};
ghost use Rattle.serde_json.specs.View.{members_view};
ghost use Rattle.history_json.specs.Members.{members_of};

mod actors;
mod nodes;
mod requests;
mod sessions;

use crate::comparing::are_members;
use actors::{fault, mark, note, refused, step};
use history_book::Item;
use nodes::{crash, extend, renew, take, tick};
use requests::{accept, ask_begin, ask_commit, begin_draw, commit_draw, placed};
use serde_json::{Map, Value};
use sessions::{begin, committed, end, read_none, read_some, vanish, write};

/// Whether the members are those of the item. It takes no memory.
pub fn are_members_of(found: &Map<String, Value>, item: &Item) -> bool
    ensures { IsTrue result ↔ (members_view found.now.entries ≡ members_of item.now) }
{
    match item {
        Item::Tick { to } => are_members(found, &tick(*to)),
        Item::Note { actor, note: noted } => are_members(found, &note(*actor, noted)),
        Item::Take {
            node,
            reading,
            term,
            epoch,
            until,
            ceiling,
        } => are_members(
            found,
            &take(*node, *reading, *term, *epoch, *until, *ceiling),
        ),
        Item::Renew {
            node,
            reading,
            term,
            until,
        } => are_members(found, &renew(*node, *reading, *term, *until)),
        Item::Extend {
            node,
            term,
            ceiling,
        } => are_members(found, &extend(*node, *term, *ceiling)),
        Item::AskBegin { session, node } => are_members(found, &ask_begin(*session, *node)),
        Item::AskCommit {
            session,
            node,
            start,
        } => are_members(found, &ask_commit(*session, *node, *start)),
        Item::Accept {
            session,
            node,
            term,
            reading,
        } => are_members(found, &accept(*session, *node, *term, *reading)),
        Item::Draw {
            session,
            node,
            term,
            start,
            commit: None,
        } => are_members(found, &begin_draw(*session, *node, *term, *start)),
        Item::Draw {
            session,
            node,
            term,
            start,
            commit: Some(commit),
        } => are_members(found, &commit_draw(*session, *node, *term, *start, *commit)),
        Item::Begin { session, start } => are_members(found, &begin(*session, *start)),
        Item::Write {
            session,
            start,
            key,
            value,
        } => are_members(found, &write(*session, *start, *key, value)),
        Item::Read {
            session,
            start,
            key,
            answer: None,
        } => are_members(found, &read_none(*session, *start, *key)),
        Item::Read {
            session,
            start,
            key,
            answer: Some(answer),
        } => are_members(found, &read_some(*session, *start, *key, answer)),
        Item::Placed { start, commit } => are_members(found, &placed(*start, *commit)),
        Item::Committed {
            session,
            start,
            commit,
        } => are_members(found, &committed(*session, *start, *commit)),
        Item::Mark { actor, start } => are_members(found, &mark(*actor, *start)),
        Item::Step { actor, what } => are_members(found, &step(*actor, what)),
        Item::End {
            session,
            start,
            how,
        } => are_members(found, &end(*session, *start, *how)),
        Item::Refused { actor, cause } => are_members(found, &refused(*actor, cause)),
        Item::Fault { actor, store } => are_members(found, &fault(*actor, *store)),
        Item::Crash { node, term } => are_members(found, &crash(*node, *term)),
        Item::Vanish { session } => are_members(found, &vanish(*session)),
    }
}
