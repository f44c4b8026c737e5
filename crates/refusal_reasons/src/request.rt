// What a history tells of a session's request: its ask, its node, its term and its draw; and the begin of its transaction.
ghost use Rattle.std.specs.Prelude.{◌≡◌, ◌<◌, ◌≤◌, IfSome, length};
ghost use Rattle.cause_rules.specs.Asks as asks;
ghost use Rattle.cause_rules.specs.OwnKeys as own_keys;
ghost use Rattle.refusal_reasons.specs.Showing.{ask_from, begin_from, draw_from, draws_its};

use crate::clue::Clue;
use crate::sought::{behind, items_since, seek};
use history_book::Item;
use stamp_base::{NodeNo, SessionNo};

/// The node that the session asked last.
#[tactic(auto, using(crate::proofs::RequestLemmas::ask_none, crate::proofs::RequestLemmas::ask_some))]
pub fn node_of(items: &[Item], session: SessionNo) -> Option<NodeNo>
    ensures { result ≡ asks.its_node items.now session }
{
    match seek(items, 0, &Clue::Ask { session }) {
        Some(place) => node_in(&items[place], session),
        None => None,
    }
}

fn node_in(item: &Item, own: SessionNo) -> Option<NodeNo>
    ensures { result ≡ asks.node_asked (asks.ask_by own item.now) }
{
    match *item {
        Item::AskBegin { session, node } if session == own => Some(node),
        Item::AskCommit { session, node, .. } if session == own => Some(node),
        _ => None,
    }
}

/// The start whose commit it asked for last, if its last ask was for a commit.
#[tactic(auto, using(crate::proofs::RequestLemmas::ask_none, crate::proofs::RequestLemmas::ask_some))]
fn start_asked(items: &[Item], session: SessionNo) -> Option<u64>
    ensures { result ≡ asks.start_asked (asks.its_ask items.now session) }
{
    match seek(items, 0, &Clue::Ask { session }) {
        Some(place) => start_in(&items[place], session),
        None => None,
    }
}

fn start_in(item: &Item, own: SessionNo) -> Option<u64>
    ensures { result ≡ asks.start_asked (asks.ask_by own item.now) }
{
    match *item {
        Item::AskCommit { session, start, .. } if session == own => Some(start.value()),
        _ => None,
    }
}

/// The place behind its last ask.
pub fn ask_from(items: &[Item], session: SessionNo) -> usize
    ensures place { result ≡ ask_from items.now session }
    ensures within { result ≤ length items.now }
{
    behind(seek(items, 0, &Clue::Ask { session }))
}

/// What stands behind its last ask.
#[tactic(auto, using(crate::proofs::PlaceLemmas::ask_part))]
fn since_ask(items: &[Item], session: SessionNo) -> &[Item]
    ensures { result.now ≡ asks.since_ask items.now session }
{
    items_since(items, &Clue::Ask { session })
}

/// The start that its last begin gave.
#[tactic(auto, using(crate::proofs::RequestLemmas::begin_none, crate::proofs::RequestLemmas::begin_some))]
pub fn begun_of(items: &[Item], session: SessionNo) -> Option<u64>
    ensures { result ≡ own_keys.last_begun items.now session }
{
    match seek(items, 0, &Clue::Begun { session }) {
        Some(place) => begun_in(&items[place], session),
        None => None,
    }
}

fn begun_in(item: &Item, own: SessionNo) -> Option<u64>
    ensures { result ≡ own_keys.begin_by own item.now }
{
    match *item {
        Item::Begin { session, start } if session == own => Some(start.value()),
        _ => None,
    }
}

/// The place behind its last begin.
pub fn begin_from(items: &[Item], session: SessionNo) -> usize
    ensures place { result ≡ begin_from items.now session }
    ensures within { result ≤ length items.now }
{
    behind(seek(items, 0, &Clue::Begun { session }))
}

/// The term in which its request was accepted.
#[tactic(auto, using(crate::proofs::RequestLemmas::term_none, crate::proofs::RequestLemmas::term_some))]
pub fn term_of(items: &[Item], session: SessionNo) -> Option<u64>
    ensures { result ≡ asks.its_term items.now session }
{
    let since = since_ask(items, session);
    match seek(since, 0, &Clue::Accepted { session }) {
        Some(place) => term_in(&since[place], session),
        None => None,
    }
}

fn term_in(item: &Item, own: SessionNo) -> Option<u64>
    ensures { result ≡ asks.term_by own item.now }
{
    match *item {
        Item::Accept { session, term, .. } if session == own => Some(term.value()),
        _ => None,
    }
}

/// The start of its request: that of the ask, or of a begin's draw.
pub fn start_of(items: &[Item], session: SessionNo) -> Option<u64>
    ensures { result ≡ asks.its_start items.now session }
{
    match start_asked(items, session) {
        Some(start) => Some(start),
        None => start_drawn(items, session),
    }
}

#[tactic(auto, using(crate::proofs::RequestLemmas::draw_none, crate::proofs::RequestLemmas::draw_some))]
fn start_drawn(items: &[Item], session: SessionNo) -> Option<u64>
    ensures { result ≡ asks.start_drawn (asks.its_draw items.now session) }
{
    let since = since_ask(items, session);
    match seek(since, 0, &Clue::Drew { session }) {
        Some(place) => drawn_in(&since[place], session),
        None => None,
    }
}

fn drawn_in(item: &Item, own: SessionNo) -> Option<u64>
    ensures { result ≡ asks.start_drawn (asks.draw_by own item.now) }
{
    match *item {
        Item::Draw { session, start, .. } if session == own => Some(start.value()),
        _ => None,
    }
}

/// Whether its draw is that of this transaction's commit.
#[tactic(auto, using(crate::proofs::RequestLemmas::draw_none, crate::proofs::RequestLemmas::draw_some))]
pub fn draws_its(items: &[Item], session: SessionNo, start: u64) -> bool
    ensures { result ≡ draws_its (asks.its_draw items.now session) start }
{
    let since = since_ask(items, session);
    match seek(since, 0, &Clue::Drew { session }) {
        Some(place) => draws_commit_of(&since[place], session, start),
        None => false,
    }
}

fn draws_commit_of(item: &Item, own: SessionNo, its: u64) -> bool
    ensures { result ≡ draws_its (asks.draw_by own item.now) its }
{
    match *item {
        Item::Draw {
            session,
            start,
            commit: Some(_),
            ..
        } if session == own => start.value() == its,
        _ => false,
    }
}

/// The place behind its last draw.
pub fn draw_from(items: &[Item], session: SessionNo) -> usize
    ensures place { result ≡ draw_from items.now session }
    ensures within { result ≤ length items.now }
{
    behind(seek(items, ask_from(items, session), &Clue::Drew { session }))
}
