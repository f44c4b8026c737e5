// The threads of actors: each gets the share of its actor, and gives it back when it ends.
ghost use Rattle.std.specs.Prelude.{◌≡◌, ◌≤◌, All, length, vec_len};
ghost use Rattle.std.specs.List.{AllZip};
ghost use Rattle.std.specs.Vec.{vec_capacity};
ghost use Rattle.reply_pipeline.specs.Seats.{IsSenderPass};
ghost use Rattle.actor_threads.specs.Sending.{ComesBack};
ghost use Rattle.actor_threads.specs.Sights.{IsSightOf};

use crate::actors::act;
use crate::before::Before;
use crate::sent::Sent;
use crate::shared::Shared;
use crate::starting::start;
use master_beacon::BeaconPass;
use reply_pipeline::Gate;
use stage_queues::StagePass;
use std::sync::Wait;
use std::sync::ledger::Ledger;
use std::thread::{Scope, Threads};
use thread_steps::{ActorShare, ActorSteps, Steps};

/// Starts the thread of each actor.
pub fn send_all<
    's,
    'a: 's,
    E: 's,
    L: Ledger + Send + Sync + 's,
    R: Threads + Wait + Sync + 's,
    B: Steps + ActorSteps<L> + Sync + 's,
    G: Gate + 's,
>(
    scope: &Scope<'s, E>,
    rt: &'s R,
    shared: &'s Shared<'a, B, G>,
    shares: Vec<ActorShare<L>>,
    senders: Vec<StagePass>,
    sights: Vec<BeaconPass>,
    sent: Vec<Sent<L>>,
) -> Vec<Sent<L>>
    requires senders { All (IsSenderPass shared.now.queues.now) senders.items }
    requires paired { vec_len senders ≡ vec_len shares }
    requires sights { All (IsSightOf shared.now.beacon.now) sights.items }
    requires looked { vec_len sights ≡ vec_len shares }
    requires nodes { length shared.now.queues.now.nodes ≡ shared.now.setup.nodes }
    requires none { vec_len sent ≡ 0 }
    requires room { vec_len shares ≤ vec_capacity sent }
    ensures { result.items ≡ shares.items }
{
    let mut senders = senders;
    let mut sights = sights;
    let mut sent = sent;
    for mine in shares {
        // There are passes for each share.
        if let Some(pass) = senders.pop() {
            if let Some(sight) = sights.pop() {
                sent.push_reserved(send(scope, rt, shared, mine, pass, sight));
            }
        }
    }
    sent
}

// Where no thread can be made the queues are closed, so that nobody waits for this actor for ever, and it goes on here as far as it
// can without waiting.
fn send<
    's,
    'a: 's,
    E: 's,
    L: Ledger + Send + Sync + 's,
    R: Threads + Wait + Sync + 's,
    B: Steps + ActorSteps<L> + Sync + 's,
    G: Gate + 's,
>(
    scope: &Scope<'s, E>,
    rt: &'s R,
    shared: &'s Shared<'a, B, G>,
    mine: ActorShare<L>,
    pass: StagePass,
    sight: BeaconPass,
) -> Sent<L>
    requires pass { IsSenderPass shared.now.queues.now pass }
    requires sight { IsSightOf shared.now.beacon.now sight }
    requires nodes { length shared.now.queues.now.nodes ≡ shared.now.setup.nodes }
    ensures { result ≡ mine }
{
    let before = Before::of(&mine);
    let started = start(
        scope,
        shared.gate,
        Before::of(&mine),
        move || -> ActorShare<L>
            requires { IsSenderPass shared.now.queues.now pass × IsSightOf shared.now.beacon.now sight × (length shared.now.queues.now.nodes ≡ shared.now.setup.nodes) }
            ensures { ComesBack mine result }
        { act(rt, shared, mine, pass, sight) },
    );
    match started {
        Ok(handle) => Sent::there(before, handle),
        Err(refused) => {
            shared.queues.close();
            Sent::here(before, (refused.value)())
        }
    }
}

/// Waits for all of them, and puts the shares in their order.
#[tactic(auto, using(std::proofs::lemmas::Slice::Zip::all_zipped_more))]
pub fn join_all<L: Ledger, R: Threads>(
    rt: &R,
    sent: Vec<Sent<L>>,
    back: Vec<ActorShare<L>>,
) -> Vec<ActorShare<L>>
    requires none { vec_len back ≡ 0 }
    requires room { vec_len sent ≤ vec_capacity back }
    ensures { AllZip ComesBack sent.items result.items }
{
    let mut back = back;
    for one in sent {
        back.push_reserved(one.join(rt));
    }
    back
}
