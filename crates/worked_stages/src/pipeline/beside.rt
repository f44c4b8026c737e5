// Stages on threads of their own.
ghost use Rattle.std.specs.Prelude.{◌<◌, ◌^◌};
ghost use Rattle.reply_pipeline.specs.Seats.{AreReady, IsReadyFor};

use super::crew::*;
use super::fake::{Fake, Made};
use reply_pipeline::{Gate, GatePlace, offer_ticket};
use stage_queues::{Queues, StagePass};
use stamp_base::{NodeNo, SessionNo, Stage};
use std::alloc::Global;
use std::sync::Wait;
use std::sync::atomic::{AtomicBool, AtomicU64, Ordering};
use std::test::Fail;
use std::thread;
use std::thread::Threads;

// After so many turns a thread of these tests goes on without what it waits for.
const TURNS: u64 = 1_000_000;

// Closes the queues once so many steps were made.
fn close_after<R: Wait>(rt: &R, board: &Fake, queues: &Queues, steps: usize) {
    for _ in 0..TURNS {
        if queues.closed() || board.count(rt) >= steps {
            break;
        }
        thread::yield_now();
    }
    queues.close();
}

// Every stage on a thread of its own, until so many steps were made. Tells how many ended as closed and hold nothing.
fn serve_beside<R: Threads + Wait + Sync, G: Gate>(
    rt: &R,
    alloc: Global,
    board: &Fake,
    queues: &Queues,
    stages: &mut [StagePass],
    gate: &G,
    steps: usize,
) -> u64
    requires ready { AreReady queues.now 2 stages.old }
    requires buffers { queues.now.buffers < 2 ^ 32 }
{
    let count = AtomicU64::new(0);
    let ended = &count;
    thread::scope(
        thread::scope_env(),
        rt,
        |scope|
            requires { AreReady queues.now 2 stages.now × (queues.now.buffers < 2 ^ 32) }
        {
            for (place, pass) in stages.iter_mut().enumerate() {
                let stage = stage_of(place % CREW);
                if let Some(node) = NodeNo::new((place / CREW) as u64) {
                    let started = scope.spawn(
                        move ||
                            requires { IsReadyFor queues.now node stage pass.now × (queues.now.buffers < 2 ^ 32) }
                        { serve(rt, alloc, node, stage, board, queues, pass, gate, ended) },
                    );
                    if started.is_err() {
                        queues.close();
                    }
                }
            }
            if scope
                .spawn(move || close_after(rt, board, queues, steps))
                .is_err()
            {
                queues.close();
            }
        },
    );
    count.load(Ordering::SeqCst)
}

// The steps of the session are those of a commit at the node, in their order.
fn is_served(made: &[Made], node: NodeNo, session: SessionNo) -> bool {
    let mut steps = [Stage::Request, Stage::Request, Stage::Persist, Stage::Reply].iter();
    made.iter().filter(|step| step.session == session).all(|step| step.node == node
        && steps.next() == Some(&step.stage))
        && steps.next().is_none()
}

/// Lets the first node's persist workers and the other node's reply stage pass once both have come.
#[derive(Drop)]
struct Meeting {
    persist_came: AtomicBool,
    reply_came: AtomicBool,
    missed: AtomicBool,
}

impl Meeting {
    fn meet(&self, mine: &AtomicBool, other: &AtomicBool) {
        mine.store(true, Ordering::SeqCst);
        for _ in 0..TURNS {
            if other.load(Ordering::SeqCst) {
                return;
            }
            thread::yield_now();
        }
        self.missed.store(true, Ordering::SeqCst);
    }
}

impl Gate for Meeting {
    fn pass<R: Wait>(&self, _rt: &R, place: GatePlace) {
        match (place.node == NodeNo::FIRST, place.stage) {
            (true, Stage::Persist) => self.meet(&self.persist_came, &self.reply_came),
            (false, Stage::Reply) => self.meet(&self.reply_came, &self.persist_came),
            _ => {}
        }
    }
}

#[test]
fn two_stages_meet(rt: HostRuntime) -> Result<(), Fail> {
    let gate = Meeting {
        persist_came: AtomicBool::new(false),
        reply_came: AtomicBool::new(false),
        missed: AtomicBool::new(false),
    };
    let other = NodeNo::new(1).ok_or("a node")?;
    let board = Fake::open(rt.alloc(), None)?;
    let Crew {
        queues,
        mut stages,
        mut session,
    } = opened(rt.alloc())?;
    let sent = offer_ticket(
        &rt,
        NodeNo::FIRST,
        &queues,
        &mut session,
        ticket_of(SessionNo::FIRST),
    );
    assert!(rt; sent.is_ok());
    let sent = offer_ticket(
        &rt,
        other,
        &queues,
        &mut session,
        ticket_of(SessionNo::LAST),
    );
    assert!(rt; sent.is_ok());
    let ended = serve_beside(&rt, rt.alloc(), &board, &queues, &mut stages, &gate, 8);
    assert_eq!(rt; ended, 8);
    assert!(rt; !gate.missed.load(Ordering::SeqCst));
    let made = board.into_made();
    assert!(rt; is_served(&made, NodeNo::FIRST, SessionNo::FIRST));
    assert!(rt; is_served(&made, other, SessionNo::LAST));
    Ok(())
}
