// Batches put back into the order of their numbers.
use batch_pool::Pool;
use persist_batches::{Numbered, Reorder};
use std::test::Fail;

#[test]
fn given_in_order(rt: HostRuntime) -> Result<(), Fail> {
    let mut pool = Pool::open(rt.alloc(), 3, 1)?;
    let mut reorder = Reorder::open(rt.alloc(), 0, 3)?;
    for number in [2, 0, 1] {
        let batch = pool.take().ok_or("a batch")?;
        assert!(rt; reorder.offer(Numbered { number, batch }).is_ok());
    }
    for number in 0..3u64 {
        assert_eq!(rt; reorder.next().map(|next| next.number), Some(number));
    }
    Ok(())
}

#[test]
fn refused_and_taken_out(rt: HostRuntime) -> Result<(), Fail> {
    let mut pool = Pool::open(rt.alloc(), 4, 1)?;
    let mut reorder = Reorder::open(rt.alloc(), 5, 1)?;
    for (number, wanted) in [(4, false), (6, true), (5, false)] {
        let batch = pool.take().ok_or("a batch")?;
        let taken = reorder.offer(Numbered { number, batch }).is_ok();
        assert_eq!(rt; taken, wanted, "of {number}");
    }
    assert!(rt; reorder.next().is_none());
    assert_eq!(rt; reorder.take_out().map(|first| first.number), Some(6));
    assert!(rt; reorder.take_out().is_none());
    Ok(())
}

#[test]
fn none_follows_the_greatest(rt: HostRuntime) -> Result<(), Fail> {
    let mut pool = Pool::open(rt.alloc(), 2, 1)?;
    let mut reorder = Reorder::open(rt.alloc(), u64::MAX, 1)?;
    for (number, wanted) in [(u64::MAX, true), (0, false)] {
        let batch = pool.take().ok_or("a batch")?;
        let taken = reorder.offer(Numbered { number, batch }).is_ok();
        assert_eq!(rt; taken, wanted, "of {number}");
        let _ = reorder.next();
    }
    Ok(())
}
