// The pool of batches.
use batch_pool::{Entry, Pool};
use stamp_base::{SessionNo, Stamp, Term};
use std::test::Fail;

fn entry(start: u64) -> Option<Entry> {
    Some(Entry {
        session: SessionNo::new(3)?,
        term: Term::new(1)?,
        start: Stamp::new(start)?,
        commit: None,
    })
}

#[test]
fn two_batches_and_then_none(rt: HostRuntime) -> Result<(), Fail> {
    let mut pool = Pool::open(rt.alloc(), 2, 1)?;
    let mut first = pool.take().ok_or("slot 0")?;
    let second = pool.take().ok_or("slot 1")?;
    assert_eq!(rt; (first.slot(), second.slot()), (0, 1));
    assert!(rt; pool.take().is_none());

    let (one, two) = (entry(1).ok_or("an entry")?, entry(2).ok_or("an entry")?);
    assert_eq!(rt; first.push(one), Ok(()));
    assert_eq!(rt; first.push(two), Err(two));
    assert_eq!(rt; first.entries(), [one].as_slice());

    pool.give(first);
    let again = pool.take().ok_or("slot 0 again")?;
    assert_eq!(rt; (again.slot(), again.entries().len()), (0, 0));
    assert!(rt; pool.take().is_none());
    Ok(())
}

#[test]
fn foreign_batches_are_dropped(rt: HostRuntime) -> Result<(), Fail> {
    let mut pool = Pool::open(rt.alloc(), 1, 1)?;
    let mut other = Pool::open(rt.alloc(), 2, 2)?;
    let wide = other.take().ok_or("slot 0")?;
    let past = other.take().ok_or("slot 1")?;
    pool.give(past);
    let _out = pool.take().ok_or("slot 0")?;
    pool.give(wide);
    assert!(rt; pool.take().is_none());
    Ok(())
}
