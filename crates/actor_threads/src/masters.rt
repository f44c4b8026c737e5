// How sessions find the master without the board's lock: nodes tell a beacon what they took, and sessions look at it.
ghost use Rattle.std.specs.Prelude.{◌≡◌, ◌≤◌, All, IfOk, vec_len};
ghost use Rattle.master_beacon.specs.Announcements.{IsFrontOf, last_of};
ghost use Rattle.actor_threads.specs.Sights.{IsSightOf, aimed_by, taken_by};

use crate::shared::Shared;
use history_book::Actor;
use master_beacon::{Beacon, BeaconPass, Publisher, announce};
use reply_pipeline::Gate;
use script_data::Verb;
use stamp_base::{NoMemory, NodeNo};
use std::alloc::Global;
use std::sync::Wait;
use std::sync::ledger::Ledger;
use thread_steps::{ActorShare, Steps};

/// So many passes of the beacon. NoMemory where memory is refused.
pub fn open_sights<R: Wait>(
    rt: &R,
    alloc: Global,
    beacon: &Beacon,
    publisher: &mut Publisher,
    count: usize,
) -> Result<Vec<BeaconPass>, NoMemory>
    requires { publisher.old.beacon ≡ beacon.now }
    ensures same { publisher.new ≡ publisher.old }
    ensures sights { IfOk result (λ sights. All (IsSightOf beacon.now) sights.items) }
    ensures count { IfOk result (λ sights. vec_len sights ≡ count) }
{
    let mut sights = Vec::with_capacity(alloc, count)?;
    for _one in 0..count {
        sights.push_reserved(publisher.pass(rt, beacon));
    }
    Ok(sights)
}

/// Aims the share at the node that took the last term, as the beacon tells it now. Where it tells of none the share stays aimed as
/// it was.
pub fn look<L: Ledger, R: Wait>(
    rt: &R,
    beacon: &Beacon,
    mine: &mut ActorShare<L>,
    sight: &mut BeaconPass,
)
    requires { IsSightOf beacon.now sight.old }
    ensures sight { IsSightOf beacon.now sight.new }
    ensures front { IsFrontOf sight.old.seen sight.new.seen }
    ensures aim { mine.new ≡ aimed_by (last_of sight.new.seen) mine.old }
{
    if let Some((_, node)) = beacon.see(rt, sight) {
        mine.aim(node);
    }
}

/// After a node's line that takes the master record: where the node has an instance now, its term is told on the beacon. The board
/// is asked and its lock let go before the desk is locked.
pub fn tell_taken<R: Wait, B: Steps + Sync, G: Gate>(
    rt: &R,
    shared: &Shared<'_, B, G>,
    actor: Actor,
    verb: &Verb,
) {
    if let Some(node) = taken_by(actor, verb) {
        tell_term(rt, shared, node);
    }
}

fn taken_by(actor: Actor, verb: &Verb) -> Option<NodeNo>
    ensures { result ≡ taken_by actor verb.now }
{
    match (verb, actor) {
        (Verb::Take, Actor::Node(node)) => Some(node),
        _ => None,
    }
}

fn tell_term<R: Wait, B: Steps + Sync, G: Gate>(rt: &R, shared: &Shared<'_, B, G>, node: NodeNo) {
    if let Some(term) = shared.board.term_of(rt, node) {
        announce(rt, &shared.desk, term, node);
    }
}
