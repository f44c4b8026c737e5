// Two nodes with two workers each, and a session's thread that sends tickets to them.
ghost use Rattle.std.specs.Prelude.{◌≡◌, ◌<◌, ◌^◌, IfOk, length};
ghost use Rattle.reply_pipeline.specs.Seats.{AreReady, IsReadyFor, IsSenderPass, stage_at};

use super::fake::Fake;
use reply_pipeline::{Gate, StageEnd, persist_worker, reply_stage, request_stage};
use stage_queues::{Queues, StagePass, Ticket};
use stamp_base::{NodeNo, SessionNo, Setup, Stage, Term};
use std::alloc::Global;
use std::sync::Wait;
use std::sync::atomic::{AtomicU64, Ordering};
use std::test::Fail;

/// How many stages there are at a node: of requests, of replies, and two workers.
pub const CREW: usize = 4;

/// How many batches the pool of a node has.
pub const BUFFERS: usize = 4;

#[derive(Drop)]
pub struct Crew {
    pub queues: Queues,
    pub stages: Vec<StagePass>,
    pub session: StagePass,
}

pub fn opened(alloc: Global) -> Result<Crew, Fail>
    ensures stages { IfOk result (λ crew. AreReady crew.queues 2 crew.stages.items) }
    ensures session { IfOk result (λ crew. IsSenderPass crew.queues crew.session × (crew.session.held ≡ 0)) }
    ensures nodes { IfOk result (λ crew. length crew.queues.nodes ≡ 2) }
    ensures buffers { IfOk result (λ crew. crew.queues.buffers ≡ 4) }
{
    opened_by(alloc, &Setup::default())
}

/// The same by a setup that has two nodes with two workers each.
pub fn opened_by(alloc: Global, setup: &Setup) -> Result<Crew, Fail>
    requires nodes { setup.now.nodes ≡ 2 }
    requires workers { setup.now.workers ≡ 2 }
    ensures stages { IfOk result (λ crew. AreReady crew.queues 2 crew.stages.items) }
    ensures session { IfOk result (λ crew. IsSenderPass crew.queues crew.session × (crew.session.held ≡ 0)) }
    ensures nodes { IfOk result (λ crew. length crew.queues.nodes ≡ 2) }
    ensures buffers { IfOk result (λ crew. crew.queues.buffers ≡ 4) }
{
    let (queues, mut stages) = Queues::open(alloc, setup, 1)?;
    let session = stages.pop().ok_or("a session's pass")?;
    Ok(Crew {
        queues,
        stages,
        session,
    })
}

/// The queues for the threads of four sessions, and the pass of the last of them.
pub fn opened_for_four(alloc: Global, setup: &Setup) -> Result<(Queues, StagePass), Fail>
    requires nodes { setup.now.nodes ≡ 2 }
    requires workers { setup.now.workers ≡ 2 }
    ensures session { IfOk result (λ opened. IsSenderPass opened.0 opened.1) }
    ensures nodes { IfOk result (λ opened. length opened.0.nodes ≡ 2) }
{
    let (queues, mut passes) = Queues::open(alloc, setup, 4)?;
    let session = passes.pop().ok_or("a session's pass")?;
    Ok((queues, session))
}

pub fn ticket_of(session: SessionNo) -> Ticket {
    Ticket {
        session,
        term: Term::FIRST,
    }
}

/// The stage whose pass stands at a place.
pub fn stage_of(place: usize) -> Stage
    ensures { result ≡ stage_at 2 place }
{
    match place {
        0 => Stage::Request,
        3 => Stage::Reply,
        _ => Stage::Persist,
    }
}

/// Serves as the stage, and counts it where it ended as closed and holds nothing.
pub fn serve<R: Wait, G: Gate>(
    rt: &R,
    alloc: Global,
    node: NodeNo,
    stage: Stage,
    board: &Fake,
    queues: &Queues,
    pass: &mut StagePass,
    gate: &G,
    ended: &AtomicU64,
)
    requires ready { IsReadyFor queues.now node stage pass.old }
    requires buffers { queues.now.buffers < 2 ^ 32 }
    ensures { pass.new.held ≡ 0 }
{
    let end = match stage {
        Stage::Request => request_stage(rt, node, board, queues, pass, gate),
        Stage::Persist => persist_worker(rt, node, board, queues, pass, gate),
        Stage::Reply => reply_stage(rt, alloc, node, board, queues, pass, gate),
    };
    if end == StageEnd::Closed && pass.held() == 0 {
        ended.fetch_add(1, Ordering::SeqCst);
    }
}

/// How many batches are at home at a node.
pub fn at_home<R: Wait>(rt: &R, node: NodeNo, queues: &Queues, pass: &mut StagePass) -> usize
    requires node { node < length queues.now.nodes }
    requires held { pass.old.held ≡ 0 }
{
    for count in 0..100usize {
        if queues.take_batch(rt, node, pass).is_none() {
            return count;
        }
    }
    100
}
