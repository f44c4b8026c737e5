// Threads that wait until the queues are closed.
use history_book::Actor;
use stage_queues::{Queues, Waiter};
use stamp_base::{NodeNo, SessionNo, Setup, Stage};
use std::sync::Wait;
use std::sync::atomic::{AtomicU64, Ordering};
use std::test::Fail;
use std::thread;
use std::thread::Threads;

const WAITERS: u64 = 8;

fn waiter(number: u64) -> Waiter {
    match number {
        0 => Waiter::Stage(NodeNo::FIRST, Stage::Request, 0),
        1 => Waiter::Stage(NodeNo::FIRST, Stage::Persist, 0),
        2 => Waiter::Stage(NodeNo::FIRST, Stage::Persist, 1),
        3 => Waiter::Stage(NodeNo::FIRST, Stage::Reply, 0),
        4 => Waiter::Actor(Actor::Clock),
        5 => Waiter::Actor(Actor::Janitor),
        6 => Waiter::Actor(Actor::Node(NodeNo::LAST)),
        _ => Waiter::Actor(Actor::Session(SessionNo::LAST)),
    }
}

// Waits over and over until the queues are closed.
fn wait_for_close<R: Wait>(rt: &R, queues: &Queues, number: u64, ended: &AtomicU64) {
    for _ in rt.forever() {
        if queues.closed() {
            ended.fetch_add(1, Ordering::SeqCst);
            return;
        }
        queues.wait(rt, waiter(number));
    }
}

// Every waiter waits on a thread of its own, and one more thread closes the queues.
fn close_all<R: Threads + Wait + Sync>(rt: &R, queues: &Queues, ended: &AtomicU64) {
    thread::scope(thread::scope_env(), rt, |scope| {
        for number in 0..WAITERS {
            if scope
                .spawn(move || wait_for_close(rt, queues, number, ended))
                .is_err()
            {
                queues.close();
            }
        }
        if scope.spawn(move || queues.close()).is_err() {
            queues.close();
        }
    });
}

#[test]
fn closing_ends_every_wait(rt: HostRuntime) -> Result<(), Fail> {
    let (queues, _passes) = Queues::open(rt.alloc(), &Setup::default(), 0)?;
    let ended = AtomicU64::new(0);
    assert!(rt; !queues.closed());
    close_all(&rt, &queues, &ended);
    assert!(rt; queues.closed());
    assert_eq!(rt; ended.load(Ordering::SeqCst), WAITERS);
    queues.wait(&rt, waiter(4));
    Ok(())
}

#[test]
fn a_wake_before_the_wait_is_kept(rt: HostRuntime) -> Result<(), Fail> {
    let (queues, _passes) = Queues::open(rt.alloc(), &Setup::default(), 0)?;
    queues.wake(waiter(3));
    queues.wait(&rt, waiter(3));
    queues.wait(&rt, Waiter::Stage(NodeNo::FIRST, Stage::Persist, 100));
    queues.ask_for_room(NodeNo::FIRST, Stage::Request);
    let _heard = queues.tell_room(NodeNo::FIRST, Stage::Request);
    queues.wait(&rt, waiter(7));
    Ok(())
}
