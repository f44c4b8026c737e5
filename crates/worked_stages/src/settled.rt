// The ring of settled batches.
ghost use Rattle.std.specs.Prelude.{◌≡◌};

use batch_pool::Pool;
use persist_batches::Numbered;
use settled_rule::{SettledPass, SettledRing};
use std::sync::Wait;
use std::test::Fail;

// Whether the ring took a batch of this number.
fn is_sent<R: Wait>(
    rt: &R,
    ring: &SettledRing,
    pass: &mut SettledPass,
    pool: &mut Pool,
    number: u64,
) -> Option<bool>
    requires { pass.old.ring ≡ ring.now.id }
    ensures { pass.new.ring ≡ ring.now.id }
{
    let batch = pool.take()?;
    Some(ring.send(rt, pass, Numbered { number, batch }).is_ok())
}

fn next_number<R: Wait>(rt: &R, ring: &SettledRing, pass: &mut SettledPass) -> Option<u64>
    requires { pass.old.ring ≡ ring.now.id }
    ensures { pass.new.ring ≡ ring.now.id }
{
    Some(ring.receive(rt, pass)?.number)
}

#[test]
fn full_and_empty(rt: HostRuntime) -> Result<(), Fail> {
    let mut pool = Pool::open(rt.alloc(), 3, 1)?;
    let (ring, mut pass) = SettledRing::open(rt.alloc(), 2)?;
    let mut other = ring.further(&mut pass);
    assert_eq!(rt; is_sent(&rt, &ring, &mut pass, &mut pool, 7), Some(true));
    assert_eq!(rt; is_sent(&rt, &ring, &mut pass, &mut pool, 5), Some(true));
    assert_eq!(rt; is_sent(&rt, &ring, &mut pass, &mut pool, 6), Some(false));
    assert_eq!(rt; next_number(&rt, &ring, &mut other), Some(7));
    assert_eq!(rt; next_number(&rt, &ring, &mut other), Some(5));
    assert_eq!(rt; next_number(&rt, &ring, &mut other), None);
    let mut all = ring.join(pass, other);
    ring.tell(&mut all);
    Ok(())
}
