// What a line owes after one more item of its actor's own events.
ghost use Rattle.std.specs.Prelude.{◌≡◌, if◌then◌else◌};
ghost use Rattle.command_semantics.specs.Answers as answers;
ghost use Rattle.log_refinement.specs.Owed as owing;

use history_book::{Actor, Cause, Item, StoreStep};
use log_refinement::{Due, Owed};
use script_data::Verb;
use split_stores::Event;
use stamp_base::{KeyNo, NodeNo, SessionNo, Store, TxnId};

/// What a line owes by the item with which it opens.
pub(crate) fn owed_first(verb: &Verb, item: &Item) -> Owed
    ensures { result ≡ owing.owed_first verb.now item.now }
{
    match (verb, item) {
        (
            Verb::Read { key },
            Item::Step {
                what: StoreStep::Fetch { .. },
                ..
            },
        ) => Owed::Read { key: *key },
        (Verb::Begin { .. }, Item::AskBegin { node, .. }) => asked(*node),
        (Verb::Commit { .. }, Item::AskCommit { node, .. }) => asked(*node),
        _ => Owed::Nothing,
    }
}

/// The node has just been asked.
fn asked(node: NodeNo) -> Owed
    ensures { result ≡ Owed.Answer node Due.Accept }
{
    Owed::Answer {
        node,
        due: Due::Accept,
    }
}

/// What is owed after the item of an event, which is a step or not, where this was owed before. A completion goes on by steps
/// alone.
pub(crate) fn owed_after(actor: &Actor, steps: bool, owed: Owed, item: &Item) -> Owed
    ensures { result ≡ owing.owed_after actor.now steps owed item.now }
{
    match owed {
        Owed::Nothing => Owed::Nothing,
        Owed::Read { key } => unless(ends_read(actor, key, item), owed),
        Owed::Answer { node, due } => after_asking(actor, node, due, item),
        Owed::Denied => Owed::Denied,
        Owed::Removal { start } => unless(steps && removes(actor, start, item), owed),
        Owed::Erasure => unless(steps && ends_completion(actor, item), owed),
        Owed::Quiet => unless(steps && is_idle(actor, item), owed),
    }
}

fn unless(ended: bool, owed: Owed) -> Owed
    ensures { result ≡ (if ended then Owed.Nothing else owed) }
{
    if ended { Owed::Nothing } else { owed }
}

/// What is owed after the event, which kept these items: the log shows how far the request has come by the events that were due.
pub(crate) fn after_due(actor: &Actor, event: &Event, items: &[Item], owed: Owed) -> Owed
    ensures { result ≡ owing.after_due actor.now event.now items.now owed }
{
    match owed {
        Owed::Answer { node, due } if is_due(actor, node, due, event) => {
            when_due(actor, node, due, items)
        }
        _ => owed,
    }
}

/// The event is due, of the session and at the node that it asked.
fn is_due(actor: &Actor, asked: NodeNo, due: Due, event: &Event) -> bool
    ensures { result ≡ owing.is_due actor.now asked due event.now }
{
    match (due, *event) {
        (Due::Accept, Event::Accept { node, session }) => is_own(actor, session) && node == asked,
        (Due::Decide, Event::Decide { node, session }) => is_own(actor, session) && node == asked,
        (Due::Put, Event::Put { node, session }) => is_own(actor, session) && node == asked,
        (Due::Answer, Event::Answer { node, session }) => is_own(actor, session) && node == asked,
        _ => false,
    }
}

fn is_own(actor: &Actor, session: SessionNo) -> bool
    ensures { result ≡ answers.same_actor (Actor.Session session) actor.now }
{
    same_actor(&Actor::Session(session), actor)
}

fn when_due(actor: &Actor, node: NodeNo, due: Due, items: &[Item]) -> Owed
    ensures { result ≡ owing.when_due actor.now node due items.now }
{
    match items {
        [] => Owed::Answer { node, due },
        [first, ..] if denies_request(actor, first) => Owed::Denied,
        [first, ..] => Owed::Answer {
            node,
            due: due_after(due, first),
        },
    }
}

/// What is due behind the first item of the event that was due. A put has ended also where it finds a mark, or fails.
fn due_after(due: Due, item: &Item) -> Due
    ensures { result ≡ owing.due_after due item.now }
{
    match (due, item) {
        (Due::Accept, Item::Accept { .. }) => Due::Decide,
        (Due::Decide, Item::Draw { commit: None, .. }) => Due::Answer,
        (
            Due::Decide,
            Item::Draw {
                commit: Some(_),
                ..
            },
        ) => Due::Put,
        (Due::Put, Item::Placed { .. } | Item::Step { .. } | Item::Fault { .. }) => Due::Answer,
        _ => due,
    }
}

/// The node has no request of the session.
fn denies_request(actor: &Actor, item: &Item) -> bool
    ensures { result ≡ owing.denies_request actor.now item.now }
{
    match *item {
        Item::Refused {
            cause: Cause::NoRequest { session },
            ..
        } => is_own(actor, session),
        _ => false,
    }
}

/// What is owed after the event, which kept these items.
pub(crate) fn after_repeat(actor: &Actor, event: &Event, items: &[Item], owed: Owed) -> Owed
    ensures { result ≡ owing.after_repeat actor.now event.now items.now owed }
{
    match owed {
        Owed::Answer { node, .. } => unless(repeats(actor, node, event, items), owed),
        _ => owed,
    }
}

/// An answer to the session that says nothing repeats one that was told before.
fn repeats(actor: &Actor, asked: NodeNo, event: &Event, items: &[Item]) -> bool
    ensures { result ≡ owing.repeats actor.now asked event.now items.now }
{
    match *event {
        Event::Answer { node, session } if items.is_empty() => {
            same_actor(&Actor::Session(session), actor) && node == asked
        }
        _ => false,
    }
}

// ---- whose item it is

pub(crate) fn same_actor(a: &Actor, b: &Actor) -> bool
    ensures { result ≡ answers.same_actor a.now b.now }
{
    match (a, b) {
        (Actor::Clock, Actor::Clock) => true,
        (Actor::Node(n), Actor::Node(m)) => n == m,
        (Actor::Session(s), Actor::Session(t)) => s == t,
        (Actor::Janitor, Actor::Janitor) => true,
        _ => false,
    }
}

// ---- reads

fn ends_read(actor: &Actor, owed: KeyNo, item: &Item) -> bool
    ensures { result ≡ owing.ends_read actor.now owed item.now }
{
    match *item {
        Item::Read { session, key, .. } => {
            same_actor(&Actor::Session(session), actor) && key == owed
        }
        Item::Fault { actor: who, .. } => same_actor(&who, actor),
        _ => false,
    }
}

// ---- asks

fn after_asking(actor: &Actor, asked: NodeNo, due: Due, item: &Item) -> Owed
    ensures { result ≡ owing.after_asking actor.now asked due item.now }
{
    match *item {
        Item::Begin { session, .. } if same_actor(&Actor::Session(session), actor) => Owed::Nothing,
        Item::Committed { session, start, .. } if same_actor(&Actor::Session(session), actor) => {
            Owed::Removal { start }
        }
        Item::Refused { actor: who, cause } => after_refusal(actor, asked, due, &who, &cause),
        Item::Fault { actor: who, store } if fails_record(asked, &who, store) => Owed::Nothing,
        _ => Owed::Answer { node: asked, due },
    }
}

fn after_refusal(actor: &Actor, asked: NodeNo, due: Due, who: &Actor, cause: &Cause) -> Owed
    ensures { result ≡ owing.after_refusal actor.now asked due who.now cause.now }
{
    if is_lost(asked, cause) {
        Owed::Quiet
    } else if same_actor(who, actor) {
        after_own_refusal(asked, due, cause)
    } else {
        Owed::Answer { node: asked, due }
    }
}

fn after_own_refusal(asked: NodeNo, due: Due, cause: &Cause) -> Owed
    ensures { result ≡ owing.after_own_refusal asked due cause.now }
{
    if leaves_cells(cause) {
        Owed::Erasure
    } else if leaves_nothing(cause) {
        Owed::Nothing
    } else {
        Owed::Answer { node: asked, due }
    }
}

/// The node that was asked has no instance any more.
fn is_lost(asked: NodeNo, cause: &Cause) -> bool
    ensures { result ≡ owing.is_lost asked cause.now }
{
    match *cause {
        Cause::NoOracle { node } => node == asked,
        _ => false,
    }
}

/// The refusal ends a commit, and leaves cells to erase.
pub(crate) fn leaves_cells(cause: &Cause) -> bool
    ensures { result ≡ owing.leaves_cells cause.now }
{
    matches!(
        cause,
        Cause::Expired { .. }
            | Cause::OldEpoch { .. }
            | Cause::Conflict { .. }
            | Cause::Hidden { .. }
            | Cause::Replaced { .. }
            | Cause::Spent { .. }
            | Cause::Invalid { .. }
    )
}

fn leaves_nothing(cause: &Cause) -> bool
    ensures { result ≡ owing.leaves_nothing cause.now }
{
    matches!(
        cause,
        Cause::NotYet { .. } | Cause::Open { .. } | Cause::Crashed { .. }
    )
}

/// The call by which the node asks for more stamps, or looks at its record, failed.
fn fails_record(asked: NodeNo, who: &Actor, store: Store) -> bool
    ensures { result ≡ owing.fails_record asked who.now store }
{
    match store {
        Store::Master => same_actor(who, &Actor::Node(asked)),
        _ => false,
    }
}

// ---- completions

/// A fault of the session ends its completion.
fn ends_completion(actor: &Actor, item: &Item) -> bool
    ensures { result ≡ owing.ends_completion actor.now item.now }
{
    match *item {
        Item::Fault { actor: who, .. } => same_actor(&who, actor),
        _ => false,
    }
}

fn removes(actor: &Actor, start: TxnId, item: &Item) -> bool
    ensures { result ≡ owing.removes actor.now start item.now }
{
    match *item {
        Item::Step {
            actor: who,
            what: StoreStep::Remove { txn },
        } => same_actor(&who, actor) && txn == start,
        _ => ends_completion(actor, item),
    }
}

/// Nothing is under way.
fn is_idle(actor: &Actor, item: &Item) -> bool
    ensures { result ≡ owing.is_idle actor.now item.now }
{
    match *item {
        Item::Refused {
            actor: who,
            cause: Cause::Idle,
        } => same_actor(&who, actor),
        Item::Step {
            actor: who,
            what: StoreStep::Remove { .. },
        } => same_actor(&who, actor),
        _ => ends_completion(actor, item),
    }
}
