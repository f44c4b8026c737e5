// The ring of tickets.
use request_rule::{RequestRing, Ticket};
use stamp_base::{SessionNo, Term};
use std::test::Fail;

fn ticket(session: u64) -> Option<Ticket> {
    Some(Ticket {
        session: SessionNo::new(session)?,
        term: Term::FIRST,
    })
}

#[test]
fn full_and_empty(rt: HostRuntime) -> Result<(), Fail> {
    let (one, two) = (ticket(1).ok_or("a ticket")?, ticket(2).ok_or("a ticket")?);
    let (ring, mut receiver) = RequestRing::open(rt.alloc(), 2)?;
    let mut first = ring.sender(&mut receiver);
    let mut second = ring.sender(&mut receiver);
    assert_eq!(rt; ring.send(&rt, &mut second, two), Ok(()));
    assert_eq!(rt; ring.send(&rt, &mut first, one), Ok(()));
    assert_eq!(rt; ring.send(&rt, &mut first, two), Err(two));
    assert_eq!(rt; ring.receive(&rt, &mut receiver), Some(two));
    assert_eq!(rt; ring.receive(&rt, &mut receiver), Some(one));
    assert_eq!(rt; ring.receive(&rt, &mut receiver), None);
    let senders = ring.join(first, second);
    let mut all = ring.join(receiver, senders);
    ring.tell(&mut all);
    Ok(())
}
