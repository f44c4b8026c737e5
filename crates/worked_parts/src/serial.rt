// Each call once, and histories whose pairs are found by hand.
ghost use Rattle.std.specs.Prelude.{◌<◌};

use crate::numbers::{key, keys, stamp, value};
use conflict_buckets::{Buckets, Verdict};
use history_book::Item;
use read_sets::{ReadSet, SerialVerdict, check_both, judge_serial};
use stamp_base::{SessionNo, TooManyKeys, Value};
use std::alloc::Global;
use std::test::Fail;

fn begin(session: SessionNo, start: u64) -> Item {
    let start = stamp(start);
    Item::Begin { session, start }
}

fn write(start: u64, number: u64, value: Value) -> Item {
    Item::Write {
        session: SessionNo::FIRST,
        start: stamp(start),
        key: key(number),
        value,
    }
}

fn read(start: u64, number: u64) -> Item {
    Item::Read {
        session: SessionNo::FIRST,
        start: stamp(start),
        key: key(number),
        answer: None,
    }
}

fn placed(start: u64, commit: u64) -> Item {
    Item::Placed {
        start: stamp(start),
        commit: stamp(commit),
    }
}

/// Each of two transactions reads what the other writes; the first to commit is the one that crosses.
fn skewed(v: Value) -> [Item; 8] {
    [
        begin(SessionNo::FIRST, 1),
        begin(SessionNo::LAST, 2),
        read(1, 0),
        write(1, 1, v),
        read(2, 1),
        write(2, 0, v),
        placed(1, 3),
        placed(2, 4),
    ]
}

#[test]
fn write_skew(rt: HostRuntime) -> Result<(), Fail> {
    let items = skewed(value(b"v").ok_or("a value")?);
    let crossed = SerialVerdict::Crossed { read: 5, placed: 7 };
    assert_eq!(rt; judge_serial(rt.alloc(), &items), Ok(crossed));
    assert_eq!(rt;
        judge_serial(rt.alloc(), &items[..7]),
        Ok(SerialVerdict::Serial)
    );
    Ok(())
}

/// Two writes of a key, what a third transaction does there, and the places of all.
fn third(v: Value, first: Item, second: Item) -> [Item; 7] {
    [
        write(1, 0, v),
        write(2, 0, v),
        first,
        second,
        placed(2, 5),
        placed(1, 4),
        placed(3, 6),
    ]
}

// An own write frees the reads behind it.
#[test]
fn a_read_behind_an_own_write(rt: HostRuntime) -> Result<(), Fail> {
    let v = value(b"v").ok_or("a value")?;
    let items = third(v, write(3, 0, v), read(3, 0));
    assert_eq!(rt; judge_serial(rt.alloc(), &items), Ok(SerialVerdict::Serial));
    Ok(())
}

// It frees none before it, and of several commits the first that was placed is named.
#[test]
fn a_read_before_an_own_write(rt: HostRuntime) -> Result<(), Fail> {
    let v = value(b"v").ok_or("a value")?;
    let items = third(v, read(3, 0), write(3, 0, v));
    let crossed = SerialVerdict::Crossed { read: 3, placed: 5 };
    assert_eq!(rt; judge_serial(rt.alloc(), &items), Ok(crossed));
    Ok(())
}

/// The set of the keys below a number, if it takes each.
fn reads_below(number: u64) -> Option<ReadSet> {
    let mut reads = ReadSet::empty();
    for number in 0..number {
        reads.read(key(number)).ok()?;
    }
    Some(reads)
}

// A set takes a key again, and 64 others at most.
#[test]
fn read_sets(rt: HostRuntime) -> Result<(), Fail> {
    let mut reads = reads_below(64).ok_or("a key was refused")?;
    assert_eq!(rt; reads.read(key(64)), Err(TooManyKeys));
    assert_eq!(rt; reads.read(key(0)), Ok(()));
    assert_eq!(rt; reads.keys().as_slice().len(), 64);
    Ok(())
}

fn read_of(number: u64) -> ReadSet {
    let mut reads = ReadSet::empty();
    let _ = reads.read(key(number));
    reads
}

/// What a transaction from 2 on is told that writes key 0 and reads key 1.
fn told(buckets: &Buckets) -> Verdict {
    check_both(buckets, stamp(2), &keys(&[0]), &read_of(1))
}

fn conflict_by(number: u64, by: u64) -> Verdict {
    Verdict::Conflict {
        key: key(number),
        by: stamp(by),
    }
}

// The keys that are written are judged first.
#[test]
fn both_are_checked(rt: HostRuntime) -> Result<(), Fail> {
    let mut buckets = Buckets::open(rt.alloc(), 4, 2)?;
    assert_eq!(rt; told(&buckets), Verdict::Free);
    buckets.keep(read_of(1).keys(), stamp(3));
    assert_eq!(rt; told(&buckets), conflict_by(1, 3));
    buckets.keep(&keys(&[0]), stamp(4));
    assert_eq!(rt; told(&buckets), conflict_by(0, 4));
    Ok(())
}

const LONG: u64 = 1500;

/// Transactions that read and write one key, one after another.
fn add_transaction(items: &mut Vec<Item>, number: u64, v: Value) -> Option<()>
    requires { number < LONG }
{
    let start = 10 * number + 1;
    let added = [read(start, 0), write(start, 0, v), placed(start, start + 4)];
    items.extend_from_slice(&added).ok()
}

fn transactions(alloc: Global) -> Option<Vec<Item>> {
    let mut items = Vec::new(alloc);
    let v = value(b"v")?;
    for number in 0..LONG {
        add_transaction(&mut items, number, v)?;
    }
    Some(items)
}

// 4,500 items of one key: the sets tell of each read that it stands.
#[test]
fn long(rt: HostRuntime) -> Result<(), Fail> {
    let items = transactions(rt.alloc()).ok_or("no memory")?;
    assert_eq!(rt; judge_serial(rt.alloc(), &items), Ok(SerialVerdict::Serial));
    Ok(())
}
