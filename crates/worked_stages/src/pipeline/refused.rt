// Settled batches that come under numbers of a test's choice.
ghost use Rattle.std.specs.Prelude.{◌/◌, ◌%◌, ◌<◌, ◌^◌, IfSome};
ghost use Rattle.stamp_base.specs.declared.stage.Stage.TheVariants.{Persist, Reply};
ghost use Rattle.reply_pipeline.specs.Seats.{AreReady, IsReadyFor, stage_at};

use super::crew::*;
use super::fake::{Fake, Made};
use batch_pool::Entry;
use persist_batches::Numbered;
use reply_pipeline::{OpenGate, StageEnd, StageStep, reply_stage};
use stage_queues::{Queues, StagePass};
use stamp_base::{NoMemory, NodeNo, SessionNo, Stage, Stamp, Term};
use std::alloc::Global;
use std::sync::Wait;
use std::test::Fail;

/// The passes of the first node's workers and of its reply stage.
#[derive(Drop)]
struct Settlers {
    workers: (StagePass, StagePass),
    reply: StagePass,
}

fn pick_settlers(queues: &Queues, stages: Vec<StagePass>) -> Option<Settlers>
    requires { AreReady queues.now 2 stages.items }
    ensures first { IfSome result (λ s. IsReadyFor queues.now 0 Persist s.workers.0) }
    ensures second { IfSome result (λ s. IsReadyFor queues.now 0 Persist s.workers.1) }
    ensures reply { IfSome result (λ s. IsReadyFor queues.now 0 Reply s.reply) }
{
    let mut stages = stages;
    let reply = cut_at(queues, &mut stages, 3)?;
    let second = cut_at(queues, &mut stages, 2)?;
    let first = cut_at(queues, &mut stages, 1)?;
    Some(Settlers {
        workers: (first, second),
        reply,
    })
}

// The pass at a place, and those before it stay.
fn cut_at(queues: &Queues, stages: &mut Vec<StagePass>, place: usize) -> Option<StagePass>
    requires place { place < 2 ^ 32 }
    requires ready { AreReady queues.now 2 stages.old.items }
    ensures stay { AreReady queues.now 2 stages.new.items }
    ensures ready { IfSome result (λ p. IsReadyFor queues.now (place / 4) (stage_at 2 (place % 4)) p) }
{
    if stages.len() <= place {
        return None;
    }
    stages.truncate(place + 1);
    stages.pop()
}

// Sends a batch with an entry of the session on as settled.
fn settle<R: Wait>(
    rt: &R,
    queues: &Queues,
    pass: &mut StagePass,
    number: u64,
    session: SessionNo,
) -> bool
    requires { IsReadyFor queues.now 0 Persist pass.old }
{
    let node = NodeNo::FIRST;
    let entry = Entry {
        session,
        term: Term::FIRST,
        start: Stamp::FIRST,
        commit: None,
    };
    let Some(mut batch) = queues.take_batch(rt, node, pass) else {
        return false;
    };
    batch.push(entry).is_ok()
        && queues
            .settled(node)
            .send(rt, pass, Numbered { number, batch })
            .is_ok()
}

// What the reply stage answers where two batches come under these numbers. None where something else went wrong.
fn answered<R: Wait>(rt: &R, alloc: Global, crew: Crew, numbers: (u64, u64)) -> Option<Vec<Made>>
    requires ready { AreReady crew.queues 2 crew.stages.items }
    requires buffers { crew.queues.buffers < 2 ^ 32 }
{
    let Crew { queues, stages, .. } = crew;
    let board = Fake::open(alloc, Some((Stage::Reply, StageStep::Answered))).ok()?;
    let Settlers {
        workers: (mut first, mut second),
        mut reply,
    } = pick_settlers(&queues, stages)?;
    if !settle(rt, &queues, &mut first, numbers.0, SessionNo::FIRST)
        || !settle(rt, &queues, &mut second, numbers.1, SessionNo::LAST)
    {
        return None;
    }
    queues.close();
    let end = reply_stage(
        rt,
        alloc,
        NodeNo::FIRST,
        &board,
        &queues,
        &mut reply,
        &OpenGate,
    );
    if end != StageEnd::Closed || reply.held() != 0 {
        return None;
    }
    Some(board.into_made())
}

// Two batches are answered in the order of their numbers, from 0 on. A number that was there already is refused, and one with a gap
// before it waits until the end.
#[test]
fn a_number_is_answered_once_and_in_its_turn(rt: HostRuntime) -> Result<(), Fail> {
    let first = SessionNo::FIRST;
    let second = SessionNo::LAST;
    for (numbers, sessions) in [
        ((0, 1), &[first, second] as &[SessionNo]),
        ((1, 0), &[second, first]),
        ((0, 0), &[first]),
        ((2, 0), &[second]),
        ((1, 1), &[]),
    ] {
        let crew = opened(rt.alloc())?;
        let made = answered(&rt, rt.alloc(), crew, numbers).ok_or("an end")?;
        assert_eq!(rt; made.len(), sessions.len());
        for (step, session) in made.iter().zip(sessions) {
            assert_eq!(rt; step.session, *session);
        }
    }
    Ok(())
}
