// Whether an earlier item shows a later one.
ghost use Rattle.std.specs.Prelude.{◌≡◌, Some};
ghost use Rattle.history_signs.specs.Shown.{crashes, crashes_in, draws_commit, gives_answer, gives_ceiling, gives_lease, is_shown_by, loses_outcomes, marks, session_vanishes, shows_cause, takes_epoch, takes_term, vanishes};

use crate::bar::is_of_session;
use history_book::{Actor, Cause, Found, Item};
use stamp_base::{KeyNo, NodeNo, SessionNo, Stamp, Store, Term, TxnId};

/// Whether the earlier item shows where what the item tells came from.
pub fn is_shown_by(item: &Item, earlier: &Item) -> bool
    ensures { result ≡ is_shown_by item.now earlier.now }
{
    match *item {
        Item::Read {
            start,
            key,
            answer: Some(found),
            ..
        } => gives_answer(start, key, found, earlier),
        Item::Refused { actor, cause } => shows_cause(actor, cause, earlier),
        _ => false,
    }
}

/// Whether the earlier item gave the read its answer: a write of its own, or another's commit.
fn gives_answer(own: TxnId, read: KeyNo, found: Found, earlier: &Item) -> bool
    ensures { result ≡ gives_answer own read (Some found) earlier.now }
{
    match *earlier {
        Item::Write { start, key, .. } => found.from == own && start == own && key == read,
        Item::Placed { start, .. } => found.from != own && start == found.from,
        _ => false,
    }
}

/// Whether the earlier item shows the cause of what the actor was refused.
fn shows_cause(actor: Actor, cause: Cause, earlier: &Item) -> bool
    ensures { result ≡ shows_cause actor cause earlier.now }
{
    match cause {
        Cause::Conflict { by, .. } => draws_commit(by.value(), earlier),
        Cause::Hidden { water, .. } => draws_commit(water, earlier),
        Cause::NotYet { commit } => draws_commit(commit.value(), earlier),
        Cause::OldEpoch { epoch, .. } => takes_epoch(epoch, earlier),
        Cause::Expired { until, .. } => gives_lease(until, earlier),
        Cause::Early { until, .. } => gives_lease(until, earlier),
        Cause::Replaced { found } => takes_term(found, earlier),
        Cause::Holding { term } => takes_term(term.value(), earlier),
        Cause::Spent { ceiling } => gives_ceiling(ceiling, earlier),
        Cause::NoStamp { last } => gives_ceiling(last, earlier),
        Cause::Invalid { start } => marks(start, earlier),
        Cause::Open { .. } => loses_outcomes(actor, earlier),
        Cause::Crashed { node, term } => crashes_in(node, term, earlier),
        Cause::NoOracle { node } => crashes(node, earlier),
        Cause::Gone => vanishes(actor, earlier),
        _ => false,
    }
}

fn draws_commit(stamp: u64, earlier: &Item) -> bool
    ensures { result ≡ draws_commit stamp earlier.now }
{
    match *earlier {
        Item::Draw {
            commit: Some(commit),
            ..
        } => commit.value() == stamp,
        _ => false,
    }
}

fn takes_epoch(own: u64, earlier: &Item) -> bool
    ensures { result ≡ takes_epoch own earlier.now }
{
    match *earlier {
        Item::Take { epoch, .. } => epoch == own,
        _ => false,
    }
}

fn takes_term(own: u64, earlier: &Item) -> bool
    ensures { result ≡ takes_term own earlier.now }
{
    match *earlier {
        Item::Take { term, .. } => term.value() == own,
        _ => false,
    }
}

fn gives_lease(end: u64, earlier: &Item) -> bool
    ensures { result ≡ gives_lease end earlier.now }
{
    match *earlier {
        Item::Take { until, .. } => until == end,
        Item::Renew { until, .. } => until == end,
        _ => false,
    }
}

fn gives_ceiling(end: u64, earlier: &Item) -> bool
    ensures { result ≡ gives_ceiling end earlier.now }
{
    match *earlier {
        Item::Take { ceiling, .. } => ceiling == end,
        Item::Extend { ceiling, .. } => ceiling == end,
        _ => false,
    }
}

fn marks(own: Stamp, earlier: &Item) -> bool
    ensures { result ≡ marks own earlier.now }
{
    match *earlier {
        Item::Mark { start, .. } => start == own,
        _ => false,
    }
}

/// Whether a node crashed, or its call on the commit table failed, or that of the session which is told.
fn loses_outcomes(told: Actor, earlier: &Item) -> bool
    ensures { result ≡ loses_outcomes told earlier.now }
{
    match *earlier {
        Item::Crash { .. } => true,
        Item::Fault {
            actor: Actor::Node(_),
            store: Store::Table,
        } => true,
        Item::Fault {
            actor: Actor::Session(session),
            store: Store::Table,
        } => is_of_session(session, told),
        _ => false,
    }
}

fn crashes(own: NodeNo, earlier: &Item) -> bool
    ensures { result ≡ crashes own earlier.now }
{
    match *earlier {
        Item::Crash { node, .. } => node == own,
        _ => false,
    }
}

fn crashes_in(own: NodeNo, its: Term, earlier: &Item) -> bool
    ensures { result ≡ crashes_in own its earlier.now }
{
    match *earlier {
        Item::Crash { node, term } => node == own && term == its,
        _ => false,
    }
}

/// Whether the session vanished; nobody else does.
fn vanishes(actor: Actor, earlier: &Item) -> bool
    ensures { result ≡ vanishes actor earlier.now }
{
    match actor {
        Actor::Session(own) => session_vanishes(own, earlier),
        _ => false,
    }
}

fn session_vanishes(own: SessionNo, earlier: &Item) -> bool
    ensures { result ≡ session_vanishes own earlier.now }
{
    match *earlier {
        Item::Vanish { session } => session == own,
        _ => false,
    }
}
