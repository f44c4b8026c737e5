// The threads of stages.
ghost use Rattle.std.specs.Prelude.{◌≡◌, ◌<◌, ◌^◌};
ghost use Rattle.reply_pipeline.specs.Seats.{AreReady, IsReadyFor, stage_at};

use crate::shared::Shared;
use reply_pipeline::{Gate, StageEnd, persist_worker, reply_stage, request_stage};
use stage_queues::StagePass;
use stamp_base::{NodeNo, Stage};
use std::alloc::Global;
use std::sync::Wait;
use std::thread::{Scope, Threads};
use thread_steps::Steps;

/// Starts every stage of every node. Where no thread can be made the queues are closed, so that nobody waits for this stage for
/// ever.
pub fn start_stages<
    's,
    'a: 's,
    E: 's,
    R: Threads + Wait + Sync + 's,
    B: Steps + Sync + 's,
    G: Gate + 's,
>(
    scope: &Scope<'s, E>,
    rt: &'s R,
    alloc: Global,
    shared: &'s Shared<'a, B, G>,
    stages: &'s mut [StagePass],
)
    requires stages { AreReady shared.now.queues.now shared.now.setup.workers stages.old }
    requires buffers { shared.now.queues.now.buffers < 2 ^ 32 }
{
    let workers = shared.setup.workers as usize;
    let per_node = workers + 2;
    for (place, pass) in stages.iter_mut().enumerate() {
        let stage = stage_of(place % per_node, workers);
        if let Some(node) = NodeNo::new((place / per_node) as u64) {
            if !is_started(scope, rt, alloc, shared, node, stage, pass) {
                shared.queues.close();
            }
        }
    }
}

// Starts the thread of a stage, unless the gate or the system refuses it.
fn is_started<'s, 'a: 's, E: 's, R: Threads + Wait + Sync + 's, B: Steps + Sync + 's, G: Gate + 's>(
    scope: &Scope<'s, E>,
    rt: &'s R,
    alloc: Global,
    shared: &'s Shared<'a, B, G>,
    node: NodeNo,
    stage: Stage,
    pass: &'s mut StagePass,
) -> bool
    requires ready { IsReadyFor shared.now.queues.now node stage pass.old }
    requires buffers { shared.now.queues.now.buffers < 2 ^ 32 }
{
    if !shared.gate.may_start_thread() {
        return false;
    }
    let started = scope.spawn(
        move ||
            requires { IsReadyFor shared.now.queues.now node stage pass.now × (shared.now.queues.now.buffers < 2 ^ 32) }
        { serve(rt, alloc, shared, node, stage, pass) },
    );
    started.is_ok()
}

// The stage whose pass stands at a place among its node's.
fn stage_of(place: usize, workers: usize) -> Stage
    ensures { result ≡ stage_at workers place }
{
    if place == 0 {
        Stage::Request
    } else if place - 1 == workers {
        Stage::Reply
    } else {
        Stage::Persist
    }
}

// Serves as the stage until it ends.
fn serve<R: Wait, B: Steps + Sync, G: Gate>(
    rt: &R,
    alloc: Global,
    shared: &Shared<'_, B, G>,
    node: NodeNo,
    stage: Stage,
    pass: &mut StagePass,
)
    requires ready { IsReadyFor shared.now.queues.now node stage pass.old }
    requires buffers { shared.now.queues.now.buffers < 2 ^ 32 }
    ensures { pass.new.held ≡ 0 }
{
    let board = shared.board;
    let queues = shared.queues;
    let gate = shared.gate;
    let end = match stage {
        Stage::Request => request_stage(rt, node, board, queues, pass, gate),
        Stage::Persist => persist_worker(rt, node, board, queues, pass, gate),
        Stage::Reply => reply_stage(rt, alloc, node, board, queues, pass, gate),
    };
    if end == StageEnd::NoMemory {
        shared.give_up();
    }
}
