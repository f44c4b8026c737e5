ghost use Rattle.std.specs.Prelude.{◌≡◌, ◌≤◌, ◌<◌, ◌^◌, All, IfOk, length, vec_len};
ghost use Rattle.std.specs.List.{AllZip};
ghost use Rattle.std.specs.Vec.{vec_capacity};
ghost use Rattle.reply_pipeline.specs.Seats.{AreReady, IsSenderPass};
ghost use Rattle.actor_threads.specs.Sending.{ComesBack};
ghost use Rattle.actor_threads.specs.Sights.{IsSightOf};

use crate::awaiting::Awaiters;
use crate::crew::Crew;
use crate::marked::MarkedLines;
use crate::masters::open_sights;
use crate::sending::{join_all, send_all};
use crate::shared::Shared;
use crate::stages::start_stages;
use master_beacon::{Beacon, BeaconPass, Desk};
use reply_pipeline::Gate;
use script_data::Line;
use stage_queues::StagePass;
use stamp_base::{NoMemory, Setup};
use std::alloc::Global;
use std::sync::atomic::{AtomicBool, Ordering};
use std::sync::ledger::Ledger;
use std::sync::{Mutex, Wait};
use std::thread;
use std::thread::Threads;
use thread_steps::{ActorShare, ActorSteps, Steps};

/// Carries the lines out at the board: the actor of each share and every stage of each node on a thread of its own. It ends once
/// all of them have, and gives back the shares, in their order. Where a thread cannot be made, actors that would wait end before
/// their lines do. What memory is taken here is taken before the first thread starts. NoMemory where memory is refused.
pub fn play<
    L: Ledger + Send + Sync,
    R: Threads + Wait + Sync,
    B: Steps + ActorSteps<L> + Sync,
    G: Gate,
>(
    rt: &R,
    alloc: Global,
    setup: &Setup,
    lines: &[Line],
    board: &B,
    shares: Vec<ActorShare<L>>,
    gate: &G,
) -> Result<Vec<ActorShare<L>>, NoMemory>
    ensures { IfOk result (λ back. AllZip ComesBack shares.items back.items) }
{
    let Crew {
        queues,
        mut stages,
        senders,
    } = Crew::open(alloc, setup, shares.len())?;
    let (beacon, mut publisher) = Beacon::open(alloc)?;
    let sights = open_sights(rt, alloc, &beacon, &mut publisher, shares.len())?;
    let awaiters = Awaiters::open(alloc, shares.as_slice())?;
    let lines = MarkedLines::of(alloc, lines)?;
    let shared = Shared {
        setup: *setup,
        lines: &lines,
        board,
        queues: &queues,
        gate,
        beacon: &beacon,
        desk: Mutex::new(Desk::new(&beacon, publisher)),
        awaiters,
        short: AtomicBool::new(false),
    };
    let back = run_all(rt, alloc, &shared, &mut stages, shares, senders, sights)?;
    if shared.short.load(Ordering::SeqCst) {
        return Err(NoMemory);
    }
    Ok(back)
}

// Once all actors have ended the queues are closed, so that the stages end.
fn run_all<
    L: Ledger + Send + Sync,
    R: Threads + Wait + Sync,
    B: Steps + ActorSteps<L> + Sync,
    G: Gate,
>(
    rt: &R,
    alloc: Global,
    shared: &Shared<'_, B, G>,
    stages: &mut [StagePass],
    shares: Vec<ActorShare<L>>,
    senders: Vec<StagePass>,
    sights: Vec<BeaconPass>,
) -> Result<Vec<ActorShare<L>>, NoMemory>
    requires stages { AreReady shared.now.queues.now shared.now.setup.workers stages.old }
    requires senders { All (IsSenderPass shared.now.queues.now) senders.items }
    requires paired { vec_len senders ≡ vec_len shares }
    requires sights { All (IsSightOf shared.now.beacon.now) sights.items }
    requires looked { vec_len sights ≡ vec_len shares }
    requires nodes { length shared.now.queues.now.nodes ≡ shared.now.setup.nodes }
    requires buffers { shared.now.queues.now.buffers < 2 ^ 32 }
    ensures { IfOk result (λ back. AllZip ComesBack shares.items back.items) }
{
    let sent = Vec::with_capacity(alloc, shares.len())?;
    let back = Vec::with_capacity(alloc, shares.len())?;
    let back = thread::scope(
        thread::scope_env(),
        rt,
        move |scope| -> Vec<ActorShare<L>>
            requires { AreReady shared.now.queues.now shared.now.setup.workers stages.now × All (IsSenderPass shared.now.queues.now) senders.items
                × (vec_len senders ≡ vec_len shares) × All (IsSightOf shared.now.beacon.now) sights.items × (vec_len sights ≡ vec_len shares) × (length shared.now.queues.now.nodes ≡ shared.now.setup.nodes) × (shared.now.queues.now.buffers < 2 ^ 32)
                × (vec_len sent ≡ 0) × (vec_len shares ≤ vec_capacity sent) × (vec_len back ≡ 0) × (vec_len shares ≤ vec_capacity back) }
            ensures { AllZip ComesBack shares.items result.items }
        {
            start_stages(scope, rt, alloc, shared, stages);
            let sent = send_all(scope, rt, shared, shares, senders, sights, sent);
            let back = join_all(rt, sent, back);
            shared.queues.close();
            back
        },
    );
    Ok(back)
}
