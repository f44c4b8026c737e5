// Stages by turn on one thread, over queues that are closed, so that each ends by itself.
ghost use Rattle.std.specs.Prelude.{◌<◌, ◌^◌};
ghost use Rattle.reply_pipeline.specs.Seats.{AreReady};

use super::crew::*;
use super::fake::{Fake, Made};
use reply_pipeline::{OpenGate, offer_ticket};
use stage_queues::{Queues, StagePass};
use stamp_base::{NodeNo, SessionNo, Setup, SetupFlag, Stage};
use std::alloc::Global;
use std::sync::Wait;
use std::sync::atomic::{AtomicU64, Ordering};
use std::test::Fail;

// Every stage of every node, one after the other. Tells how many ended as closed and hold nothing.
fn serve_by_turn<R: Wait>(
    rt: &R,
    alloc: Global,
    board: &Fake,
    queues: &Queues,
    stages: &mut [StagePass],
) -> u64
    requires ready { AreReady queues.now 2 stages.old }
    requires buffers { queues.now.buffers < 2 ^ 32 }
{
    let ended = AtomicU64::new(0);
    for (place, pass) in stages.iter_mut().enumerate() {
        let stage = stage_of(place % CREW);
        if let Some(node) = NodeNo::new((place / CREW) as u64) {
            serve(
                rt, alloc, node, stage, board, queues, pass, &OpenGate, &ended,
            );
        }
    }
    ended.load(Ordering::SeqCst)
}

// The stages of a ticket's steps at the first node.
fn are_steps(made: &[Made], stages: &[Stage]) -> bool {
    made.len() == stages.len()
        && made.iter().zip(stages).all(|(step, stage)| step.node == NodeNo::FIRST
            && step.stage == *stage)
}

#[test]
fn a_stale_ticket_is_passed_over(rt: HostRuntime) -> Result<(), Fail> {
    let board = Fake::open(rt.alloc(), None)?;
    let Crew {
        queues,
        mut stages,
        mut session,
    } = opened(rt.alloc())?;
    for _ in 0..2 {
        let sent = offer_ticket(
            &rt,
            NodeNo::FIRST,
            &queues,
            &mut session,
            ticket_of(SessionNo::LAST),
        );
        assert!(rt; sent.is_ok());
    }
    queues.close();
    let ended = serve_by_turn(&rt, rt.alloc(), &board, &queues, &mut stages);
    assert_eq!(rt; ended, 8);
    let steps = [Stage::Request, Stage::Request, Stage::Persist, Stage::Reply];
    assert!(rt; are_steps(&board.into_made(), &steps));
    assert_eq!(rt; at_home(&rt, NodeNo::FIRST, &queues, &mut session), BUFFERS);
    Ok(())
}

#[test]
fn a_ticket_is_due_once_nobody_else_sends(rt: HostRuntime) -> Result<(), Fail> {
    let Crew {
        queues,
        mut session,
        ..
    } = opened(rt.alloc())?;
    assert!(rt; !queues.is_due(NodeNo::FIRST));
    let ticket = ticket_of(SessionNo::LAST);
    let sent = offer_ticket(&rt, NodeNo::FIRST, &queues, &mut session, ticket);
    assert!(rt; sent.is_ok());
    assert!(rt; queues.is_due(NodeNo::FIRST));
    assert!(rt; !queues.is_due(NodeNo::LAST));
    Ok(())
}

// One of four sessions has sent a ticket. It is due once all four have ended, since each could have sent one more.
#[test]
fn a_ticket_waits_for_all_that_are_at_work(rt: HostRuntime) -> Result<(), Fail> {
    let (queues, mut session) = opened_for_four(rt.alloc(), &Setup::default())?;
    let ticket = ticket_of(SessionNo::LAST);
    let sent = offer_ticket(&rt, NodeNo::FIRST, &queues, &mut session, ticket);
    assert!(rt; sent.is_ok());
    for _session in 0..4 {
        assert!(rt; !queues.is_due(NodeNo::FIRST));
        queues.leave();
    }
    assert!(rt; queues.is_due(NodeNo::FIRST));
    Ok(())
}

// Where sessions place their commits the persist stage asks for no step, and a batch gets through to its answer.
#[test]
fn batches_pass_on_where_sessions_place(rt: HostRuntime) -> Result<(), Fail> {
    let board = Fake::open(rt.alloc(), None)?.placed_by_sessions();
    let mut setup = Setup::default();
    setup.turn_on(SetupFlag::Direct);
    let Crew {
        queues,
        mut stages,
        mut session,
    } = opened_by(rt.alloc(), &setup)?;
    let sent = offer_ticket(
        &rt,
        NodeNo::FIRST,
        &queues,
        &mut session,
        ticket_of(SessionNo::LAST),
    );
    assert!(rt; sent.is_ok());
    queues.close();
    let ended = serve_by_turn(&rt, rt.alloc(), &board, &queues, &mut stages);
    assert_eq!(rt; ended, 8);
    let steps = [Stage::Request, Stage::Request, Stage::Reply];
    assert!(rt; are_steps(&board.into_made(), &steps));
    assert_eq!(rt; at_home(&rt, NodeNo::FIRST, &queues, &mut session), BUFFERS);
    Ok(())
}

// The request stage is held for the second ticket. What was drawn before is sent and answered, and the ticket is left.
#[test]
fn what_is_drawn_does_not_wait_for_a_held_stage(rt: HostRuntime) -> Result<(), Fail> {
    let board = Fake::open(rt.alloc(), None)?.holding(SessionNo::LAST);
    let Crew {
        queues,
        mut stages,
        mut session,
    } = opened(rt.alloc())?;
    for waits in [SessionNo::FIRST, SessionNo::LAST] {
        let sent = offer_ticket(&rt, NodeNo::FIRST, &queues, &mut session, ticket_of(waits));
        assert!(rt; sent.is_ok());
    }
    queues.close();
    let ended = serve_by_turn(&rt, rt.alloc(), &board, &queues, &mut stages);
    assert_eq!(rt; ended, 8);
    let steps = [Stage::Request, Stage::Request, Stage::Persist, Stage::Reply];
    assert!(rt; are_steps(&board.into_made(), &steps));
    assert_eq!(rt; at_home(&rt, NodeNo::FIRST, &queues, &mut session), BUFFERS);
    Ok(())
}
