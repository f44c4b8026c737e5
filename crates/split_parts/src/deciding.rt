// Whether a session, a node and the stores agree, each with the others that an event brings together.
ghost use Rattle.std.specs.Prelude.{◌≡◌, ◌↔◌, IfSome, IsTrue, None, Some};
ghost use Rattle.system_parts.specs.Rows.{HasOnly, IsBare};
ghost use Rattle.system_parts.specs.declared.session.State.TheVariants.{Open};
ghost use Rattle.system_parts.specs.SessionSteps.{handed_commit};
ghost use Rattle.system_parts.specs.Sweep.{sweep_ask};
ghost use Rattle.machine.specs.Calls.{HoldsNone, KeepsShadowNext, MayStep};
ghost use Rattle.machine.specs.Events.Heal.{offer_of};
ghost use Rattle.machine.specs.Events.Put.{to_place};
ghost use Rattle.machine.specs.Events.Step.{next_of, work_of};
ghost use Rattle.machine.specs.Readers.{held_at};
ghost use Rattle.cluster_core.specs.Required.{Covers};
ghost use Rattle.split_parts.specs.Agrees.{HasAsked, HasAskedAt, HasAskedIf, NotPlaced};

use cell_store::Cells;
use commit_table::Table;
use event_parts::Client;
use invalidator::Sweep;
use master_record::Master;
use oracle_core::Instance;
use stamp_base::{KeyList, KeyNo, Mark, SessionNo, Stamp, TxnId};
use system_parts::{Ask, Held, Request, State};
use takeover_core::Post;

/// The node holds no request of the session.
pub(crate) fn holds_none(post: &Post, session: SessionNo) -> bool
    ensures { IsTrue result ↔ HoldsNone post.now session }
{
    match &post.instance {
        Some(instance) => instance.held(session).is_none(),
        None => true,
    }
}

/// The node holds no request of the session, where the session is in the state.
pub(crate) fn holds_none_in(client: &Client, state: State, post: &Post, session: SessionNo) -> bool
    ensures { IsTrue result ↔ (client.now.entry.state ≡ state → HoldsNone post.now session) }
{
    if client.state() == state {
        holds_none(post, session)
    } else {
        true
    }
}

/// The session has asked for the request that the node holds of it, if it holds one.
pub(crate) fn has_asked(client: &Client, post: &Post, session: SessionNo) -> bool
    ensures { IsTrue result ↔ HasAskedAt post.now session client.now.entry }
{
    match &post.instance {
        Some(instance) => has_asked_held(client, &instance.held(session)),
        None => true,
    }
}

fn has_asked_held(client: &Client, held: &Option<Held>) -> bool
    ensures { IsTrue result ↔ HasAskedIf held.now client.now.entry }
{
    match held {
        Some(held) => has_asked_for(client, &held.request),
        None => true,
    }
}

fn has_asked_for(client: &Client, request: &Request) -> bool
    ensures { IsTrue result ↔ HasAsked request.now client.now.entry }
{
    match request {
        Request::Begin { .. } => matches!(client.state(), State::Gone | State::Asking),
        Request::Commit { start, keys, .. } => match client.state() {
            State::Gone => true,
            State::Committing => commits(client, *start, keys),
            _ => false,
        },
    }
}

/// The client's transaction has this start and these keys.
fn commits(client: &Client, start: Stamp, keys: &KeyList) -> bool
    ensures { IsTrue result ↔ ((client.now.entry.start ≡ Some start) × (client.now.entry.keys ≡ keys.now)) }
{
    match client.start() {
        Some(own) if own.value() == start.value() => {
            are_same(client.keys().as_slice(), keys.as_slice())
        }
        _ => false,
    }
}

/// The lists have the same keys at the same places.
fn are_same(keys: &[KeyNo], others: &[KeyNo]) -> bool
    ensures { IsTrue result ↔ (keys.now ≡ others.now) }
{
    if keys.len() != others.len() {
        return false;
    }
    for i in 0..keys.len() {
        if keys[i].value() != others[i].value() {
            return false;
        }
    }
    true
}

/// The record of the instance's own term reaches as far as the instance may draw.
pub(crate) fn is_covered(post: &Post, master: &Master) -> bool
    ensures { IsTrue result ↔ IfSome post.now (Covers master.now.state) }
{
    match &post.instance {
        Some(instance) => covers(instance, master),
        None => true,
    }
}

fn covers(instance: &Instance, master: &Master) -> bool
    ensures { IsTrue result ↔ Covers master.now.state instance.now }
{
    instance.term().value() != master.term() || instance.range_end() <= master.ceiling()
}

/// The table has no commit of the transaction whose commit the node is to place.
pub(crate) fn is_not_placed(post: &Post, session: SessionNo, table: &Table) -> bool
    ensures { IsTrue result ↔ NotPlaced table.now.pairs (to_place (held_at post.now session)) }
{
    match node_events::commit_to_place(post, session) {
        Some((start, _)) => !matches!(table.mark_of(start), Some(Mark::Committed(_))),
        None => true,
    }
}

/// The cell of the write is bare, where the session has a transaction.
pub(crate) fn writes_bare(client: &Client, cells: &Cells, key: KeyNo) -> bool
    ensures { IsTrue result ↔ (client.now.entry.state ≡ Open → IfSome client.now.entry.start (λ start. IsBare cells.now.rows key start)) }
{
    match (client.state(), client.start()) {
        (State::Open, Some(start)) => cells.shadow_of(key, start).is_none(),
        _ => true,
    }
}

/// The shadow that is offered is the only one that its cell may have.
pub(crate) fn heals_only(client: &Client, cells: &Cells) -> bool
    ensures { IsTrue result ↔ IfSome (offer_of client.now) (λ offer. HasOnly cells.now.rows offer.0 offer.1 offer.2) }
{
    match client.offer() {
        Some((key, txn, commit)) => has_only(cells, key, txn, commit),
        None => true,
    }
}

/// A shadow that the session's step sets is the only one that its cell may have.
pub(crate) fn steps_keep(client: &Client, cells: &Cells) -> bool
    ensures { IsTrue result ↔ (MayStep client.now → handed_commit client.now.entry ≡ None → KeepsShadowNext (next_of (work_of client.now)) cells.now.rows) }
{
    if client.check_step().is_err() || client.to_place().is_some() {
        return true;
    }
    keeps_shadow(&client.next(), cells)
}

/// So is one that the sweep's step sets.
pub(crate) fn sweeps_keep(sweep: &Option<Sweep>, cells: &Cells) -> bool
    ensures { IsTrue result ↔ IfSome sweep.now (λ s. KeepsShadowNext (sweep_ask s) cells.now.rows) }
{
    match sweep {
        Some(open) => keeps_shadow(&open.next(), cells),
        None => true,
    }
}

fn keeps_shadow(ask: &Option<Ask>, cells: &Cells) -> bool
    ensures { IsTrue result ↔ KeepsShadowNext ask.now cells.now.rows }
{
    match ask {
        Some(Ask::Shadow(key, txn, commit)) => has_only(cells, *key, *txn, *commit),
        _ => true,
    }
}

fn has_only(cells: &Cells, key: KeyNo, txn: TxnId, commit: Stamp) -> bool
    ensures { IsTrue result ↔ HasOnly cells.now.rows key txn commit }
{
    match cells.shadow_of(key, txn) {
        Some(shadow) => shadow == commit,
        None => true,
    }
}
