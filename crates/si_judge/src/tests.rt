// The indices of a long history take their memory.
ghost use Rattle.std.specs.Prelude.{◌<◌};

use super::*;
use crate::ask_index::start_suspects;
use crate::marks::Marks;
use crate::stamp_index::stamp_suspects;
use stamp_base::{KeyNo, SessionNo, Stamp, Value};
use std::process::Abort;
use std::test::Fail;

const LONG: u64 = 3000;

fn begin(start: u64) -> Result<Item, Fail> {
    Ok(Item::Begin {
        session: SessionNo::FIRST,
        start: Stamp::new(start).ok_or("a start")?,
    })
}

fn write(start: u64, key: u64) -> Result<Item, Fail> {
    Ok(Item::Write {
        session: SessionNo::FIRST,
        start: Stamp::new(start).ok_or("a start")?,
        key: KeyNo::new(key).ok_or("a key")?,
        value: Value::new(b"v").ok_or("a value")?,
    })
}

fn placed(start: u64, commit: u64) -> Result<Item, Fail> {
    let start = Stamp::new(start).ok_or("a start")?;
    let commit = Stamp::new(commit).ok_or("a commit")?;
    Ok(Item::Placed { start, commit })
}

// The starts are 1, 11, 21 and so on, each commit is 4 above its start, and the keys go round.
fn add_transaction(items: &mut Vec<Item>, number: u64) -> Result<(), Fail>
    requires { number < LONG }
{
    let start = 10 * number + 1;
    let begin = begin(start)?;
    let write = write(start, number % 8)?;
    let placed = placed(start, start + 4)?;
    items.extend_from_slice(&[begin, write, placed])?;
    Ok(())
}

fn is_unmarked(marks: &[bool]) -> bool {
    marks.iter().all(|mark| !*mark)
}

// The indices take their memory, and suspect no place of an isolated history.
fn assert_unsuspected(rt: &impl Abort, alloc: Global, items: &[Item]) -> Result<(), Fail> {
    let stamps = stamp_suspects(alloc, items)?;
    assert!(rt; is_unmarked(&stamps));
    let starts = start_suspects(alloc, items)?;
    assert!(rt; is_unmarked(&starts));
    let marks = Marks::new(alloc, items.len())?;
    assert!(rt; is_unmarked(&marks.each));
    Ok(())
}

// 9,000 items.
#[test]
fn long(rt: HostRuntime) -> Result<(), Fail> {
    let mut items = Vec::new(rt.alloc());
    for number in 0..LONG {
        add_transaction(&mut items, number)?;
    }
    assert_eq!(rt; judge(rt.alloc(), &items), Ok(Verdict::Isolated));
    assert_unsuspected(&rt, rt.alloc(), &items)
}
