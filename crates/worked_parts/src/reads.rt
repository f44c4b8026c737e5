// The steps of a read, from its fetch to its answer.
ghost use Rattle.std.specs.Prelude.{◌≡◌, IfSome};
ghost use Rattle.system_parts.specs.Asks.{Fits};
ghost use Rattle.system_parts.specs.KeyRead.{AreFetched, is_recall};

use crate::numbers::{key, stamp, value};
use reader_resolve::{Cell, ReadRun};
use stamp_base::{KeyNo, Stamp};
use std::alloc::Global;
use std::test::Fail;
use system_parts::{Answer, Ask, Known, Next, Told};

fn bare(version: u64, text: &[u8]) -> Option<Cell> {
    Some(Cell {
        version: stamp(version),
        value: value(text)?,
        shadow: None,
    })
}

/// What a fetch up to the start gives, where one version is there.
#[tactic(auto, using(crate::proofs::Fetched::fetched_one))]
fn one(alloc: Global, start: Stamp, cell: Cell) -> Option<Vec<Cell>>
    ensures { IfSome result (λ cells. AreFetched start cells.items) }
{
    if cell.version.value() > start.value() {
        return None;
    }
    Some(vec![in alloc; cell].ok()?)
}

/// What a fetch up to the start gives, where two versions are there.
#[tactic(auto, using(crate::proofs::Fetched::fetched_two))]
fn two(alloc: Global, start: Stamp, newer: Cell, older: Cell) -> Option<Vec<Cell>>
    ensures { IfSome result (λ cells. AreFetched start cells.items) }
{
    let (first, second) = (newer.version.value(), older.version.value());
    if second >= first || first > start.value() {
        return None;
    }
    Some(vec![in alloc; newer, older].ok()?)
}

/// A read of one bare version, which is 1.
fn over_one(alloc: Global, start: u64, epoch: u64, every: bool) -> Option<(ReadRun, Next)> {
    let start = stamp(start);
    let cells = one(alloc, start, bare(1, b"v")?)?;
    Some(ReadRun::start(key(0), start, epoch, every, cells))
}

/// A read of two bare versions, which are 3 and 1.
fn over_two(alloc: Global) -> Option<(ReadRun, Next)>
    ensures { IfSome result (λ r. r.0.recalls ≡ is_recall r.1) }
{
    let start = stamp(101);
    let cells = two(alloc, start, bare(3, b"w")?, bare(1, b"v")?)?;
    Some(ReadRun::start(key(0), start, 100, false, cells))
}

/// A read of a bare version above one with a shadow.
fn over_a_shadow(alloc: Global) -> Option<(ReadRun, Next)> {
    let start = stamp(4);
    let committed = Cell {
        shadow: Some(stamp(2)),
        ..bare(1, b"100")?
    };
    let cells = two(alloc, start, bare(3, b"90")?, committed)?;
    Some(ReadRun::start(key(1), start, 0, false, cells))
}

/// Tells an answer, whose ask must be next.
fn tell(run: &mut ReadRun, ask: Ask, told: Told) -> Option<Next>
    requires { Fits ask told }
{
    let answer = told;
    if run.next()? != ask {
        return None;
    }
    Some(run.step(answer))
}

/// Recalls, where a recall is next.
fn recall(run: &mut ReadRun, next: Next, known: Known) -> Option<Next>
    requires { run.old.recalls ≡ is_recall next }
    ensures { IfSome result (λ then. run.new.recalls ≡ is_recall then) }
{
    match next {
        Next::Recall(_) => Some(run.recalled(Some(known))),
        _ => None,
    }
}

/// The end of a read that finds a version.
fn found(version: u64, text: &[u8], heal: Option<(KeyNo, Stamp, Stamp)>) -> Option<Next> {
    let found = Some((stamp(version), value(text)?));
    Some(Next::Done(Answer { found, heal }))
}

#[test]
fn late_put(rt: HostRuntime) -> Result<(), Fail> {
    let (mut run, _) = over_one(rt.alloc(), 101, 100, false).ok_or("no run")?;
    tell(&mut run, Ask::Get(stamp(1)), Told::Absent).ok_or("another ask")?;
    tell(&mut run, Ask::Mark(stamp(1)), Told::Marked).ok_or("another ask")?;
    let last = tell(&mut run, Ask::Look(key(0), stamp(1)), Told::Bare);
    assert_eq!(rt; run.learnt(), Some((stamp(1), Known::Dead)));
    let none = Answer {
        found: None,
        heal: None,
    };
    assert_eq!(rt; last, Some(Next::Done(none)));
    Ok(())
}

// A version above the epoch is marked all the same, where each may be.
#[test]
fn newer_cell_is_marked(rt: HostRuntime) -> Result<(), Fail> {
    let (mut run, _) = over_one(rt.alloc(), 3, 0, true).ok_or("no run")?;
    let next = tell(&mut run, Ask::Get(stamp(1)), Told::Absent);
    assert_eq!(rt; next, Some(Next::Ask(Ask::Mark(stamp(1)))));
    Ok(())
}

#[test]
fn put_before_read(rt: HostRuntime) -> Result<(), Fail> {
    let (mut run, first) = over_one(rt.alloc(), 101, 100, false).ok_or("no run")?;
    assert_eq!(rt; first, Next::Recall(stamp(1)));
    assert_eq!(rt; run.key(), key(0));
    let last = tell(&mut run, Ask::Get(stamp(1)), Told::Committed(stamp(2)));
    let heal = Some((key(0), stamp(1), stamp(2)));
    assert_eq!(rt; last, found(1, b"v", heal));
    Ok(())
}

#[test]
fn recalled_twice(rt: HostRuntime) -> Result<(), Fail> {
    let (mut run, first) = over_two(rt.alloc()).ok_or("no run")?;
    assert_eq!(rt; first, Next::Recall(stamp(3)));
    let next = recall(&mut run, first, Known::Dead).ok_or("no recall")?;
    assert_eq!(rt; next, Next::Recall(stamp(1)));
    let last = recall(&mut run, next, Known::Committed(stamp(2)));
    assert_eq!(rt; last, found(1, b"v", None));
    Ok(())
}

#[test]
fn ordinary_use(rt: HostRuntime) -> Result<(), Fail> {
    let (mut run, _) = over_a_shadow(rt.alloc()).ok_or("no run")?;
    tell(&mut run, Ask::Get(stamp(3)), Told::Absent).ok_or("another ask")?;
    let last = tell(&mut run, Ask::Look(key(1), stamp(3)), Told::Bare);
    assert_eq!(rt; last, found(1, b"100", None));
    Ok(())
}
