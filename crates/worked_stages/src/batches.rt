// The ring of batches on their way to the workers.
ghost use Rattle.std.specs.Prelude.{◌≡◌, IfOk};

use batch_pool::Pool;
use batch_rule::{BatchPass, BatchRing};
use persist_batches::Numbered;
use std::alloc::Global;
use std::sync::Wait;
use std::test::Fail;

fn next_number<R: Wait>(rt: &R, ring: &BatchRing, pass: &mut BatchPass) -> Option<u64>
    requires { pass.old.ring ≡ ring.now.id }
    ensures { pass.new.ring ≡ ring.now.id }
{
    Some(ring.receive(rt, pass)?.number)
}

// A ring of one place with a batch of the number 4 in it, and the passes of the sender and of two workers.
fn filled<R: Wait>(
    rt: &R,
    alloc: Global,
    pool: &mut Pool,
) -> Result<(BatchRing, BatchPass, BatchPass, BatchPass), Fail>
    ensures { IfOk result (λ made. (made.1.ring ≡ made.0.id) × (made.2.ring ≡ made.0.id) × (made.3.ring ≡ made.0.id)) }
{
    let (ring, mut sender) = BatchRing::open(alloc, 1)?;
    let first = ring.worker(&mut sender);
    let second = ring.worker(&mut sender);
    let batch = pool.take().ok_or("a batch")?;
    if ring
        .send(rt, &mut sender, Numbered { number: 4, batch })
        .is_err()
    {
        return Err("a send into room".into());
    }
    Ok((ring, sender, first, second))
}

#[test]
fn taken_once(rt: HostRuntime) -> Result<(), Fail> {
    let mut pool = Pool::open(rt.alloc(), 1, 1)?;
    let (ring, sender, mut first, mut second) = filled(&rt, rt.alloc(), &mut pool)?;
    assert_eq!(rt; next_number(&rt, &ring, &mut second), Some(4));
    assert_eq!(rt; next_number(&rt, &ring, &mut first), None);
    let workers = ring.join(first, second);
    let mut all = ring.join(sender, workers);
    ring.tell(&mut all);
    Ok(())
}

#[test]
fn refused_where_full(rt: HostRuntime) -> Result<(), Fail> {
    let mut pool = Pool::open(rt.alloc(), 2, 1)?;
    let (ring, mut sender) = BatchRing::open(rt.alloc(), 1)?;
    let (one, two) = (pool.take().ok_or("a batch")?, pool.take().ok_or("a batch")?);
    let first = Numbered {
        number: 0,
        batch: one,
    };
    let second = Numbered {
        number: 1,
        batch: two,
    };
    assert!(rt; ring.send(&rt, &mut sender, first).is_ok());
    let back = ring.send(&rt, &mut sender, second).err();
    assert_eq!(rt; back.map(|batch| batch.number), Some(1));
    Ok(())
}
