// The bounded conflict memory.
use crate::numbers::{key, keys, stamp};
use conflict_buckets::{Buckets, Verdict};
use stamp_base::NoMemory;
use std::alloc::Global;
use std::test::Fail;

/// Three commits of keys that share a bucket of two.
fn filled(alloc: Global) -> Result<Buckets, NoMemory> {
    let mut buckets = Buckets::open(alloc, 4, 2)?;
    buckets.keep(&keys(&[0]), stamp(3));
    buckets.keep(&keys(&[4]), stamp(5));
    buckets.keep(&keys(&[8]), stamp(7));
    Ok(buckets)
}

fn checked(buckets: &Buckets, start: u64, numbers: &[u64]) -> Verdict {
    buckets.check(stamp(start), &keys(numbers))
}

fn hidden_by(number: u64) -> Verdict {
    Verdict::Hidden {
        key: key(number),
        water: 3,
    }
}

fn conflict_by(number: u64, by: u64) -> Verdict {
    Verdict::Conflict {
        key: key(number),
        by: stamp(by),
    }
}

#[test]
fn hidden(rt: HostRuntime) -> Result<(), Fail> {
    let buckets = filled(rt.alloc())?;
    assert_eq!(rt; checked(&buckets, 1, &[0]), hidden_by(0));
    assert_eq!(rt; checked(&buckets, 1, &[12]), hidden_by(12));
    Ok(())
}

#[test]
fn conflict(rt: HostRuntime) -> Result<(), Fail> {
    let buckets = filled(rt.alloc())?;
    assert_eq!(rt; checked(&buckets, 1, &[1, 4, 0]), conflict_by(4, 5));
    assert_eq!(rt; checked(&buckets, 5, &[4, 0, 12, 5]), Verdict::Free);
    Ok(())
}
