// Who is woken, and what nobody is woken for, on one thread.
use super::one_worker;
use history_book::Actor;
use stage_queues::{Queues, Waiter};
use stamp_base::{NodeNo, SessionNo};
use std::test::Fail;

#[test]
fn nothing_is_due_where_no_ticket_is(rt: HostRuntime) -> Result<(), Fail> {
    let (queues, _passes) = Queues::open(rt.alloc(), &one_worker(), 4)?;
    let node = NodeNo::FIRST;
    assert!(rt; !queues.is_due(node));
    queues.press();
    let _heard = queues.tell_ticket(node);
    assert!(rt; !queues.is_due(node));
    for _sender in 0..4 {
        queues.leave();
    }
    assert!(rt; !queues.is_due(node));
    assert!(rt; !queues.is_due(NodeNo::LAST));
    Ok(())
}

#[test]
fn a_worker_looks_once_more_before_it_waits(rt: HostRuntime) -> Result<(), Fail> {
    let (queues, _passes) = Queues::open(rt.alloc(), &one_worker(), 0)?;
    let node = NodeNo::FIRST;
    assert!(rt; !queues.rest_for_batch(node, 0));
    assert!(rt; queues.rest_for_batch(node, 0));
    assert!(rt; queues.rest_for_batch(node, 1));
    queues.ask_for_batch(node);
    Ok(())
}

// A wake that was not given would let the wait last for ever.
#[test]
fn a_stamp_wakes_who_awaits_it(rt: HostRuntime) -> Result<(), Fail> {
    let (queues, _passes) = Queues::open(rt.alloc(), &one_worker(), 1)?;
    let _heard = queues.tell_stamp(SessionNo::FIRST);
    queues.heed_stamp(SessionNo::FIRST, true);
    let _heard = queues.tell_stamp(SessionNo::FIRST);
    queues.wait(&rt, Waiter::Actor(Actor::Session(SessionNo::FIRST)));
    queues.heed_stamp(SessionNo::FIRST, false);
    Ok(())
}
