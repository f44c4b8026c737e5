// How an outcome is settled, and how a sweep goes.
ghost use Rattle.std.specs.Prelude.{IfOk};
ghost use Rattle.std.specs.List.Sorted.{IsStrictlyIncreasing};
ghost use Rattle.system_parts.specs.Asks.{Fits};

use crate::numbers::{key, stamp};
use invalidator::{Outcome, Settle, Sweep};
use stamp_base::{KeyNo, Stamp};
use std::alloc::{AllocError, Global};
use std::test::Fail;
use system_parts::{Ask, Told};

/// Tells an answer, whose ask must be next, and gives what it decides.
fn settled(settle: &mut Settle, ask: Ask, told: Told) -> Option<Option<Outcome>>
    requires { Fits ask told }
{
    if settle.next() != ask {
        return None;
    }
    Some(settle.told(told))
}

/// Tells an answer, whose ask must be next.
fn tell(sweep: &mut Sweep, ask: Ask, told: Told) -> Option<()>
    requires { Fits ask told }
{
    let answer = told;
    if sweep.next()? != ask {
        return None;
    }
    sweep.told(answer);
    Some(())
}

/// A list of one key.
fn one(alloc: Global, key: KeyNo) -> Result<Vec<KeyNo>, AllocError>
    ensures { IfOk result (λ keys. IsStrictlyIncreasing keys.items) }
{
    Ok(vec![in alloc; key]?)
}

/// Tells the one key, where the keys must be asked next.
fn tell_key(sweep: &mut Sweep, alloc: Global, key: KeyNo) -> Option<()> {
    let keys = one(alloc, key).ok()?;
    let Some(Ask::Keys(_)) = sweep.next() else {
        return None;
    };
    sweep.listed(keys);
    Some(())
}

/// Looks, and marks what the table lacks.
fn marked(own: &mut Settle, key: KeyNo, start: Stamp) -> Option<Option<Outcome>> {
    settled(own, Ask::Look(key, start), Told::Bare)?;
    settled(own, Ask::Get(start), Told::Absent)?;
    settled(own, Ask::Mark(start), Told::Marked)
}

#[test]
fn faulted_put(rt: HostRuntime) -> Result<(), Fail> {
    let (k0, start) = (key(0), stamp(1));
    let mut own = Settle::open(k0, start, true, true);
    marked(&mut own, k0, start).ok_or("another ask")?;
    let last = settled(&mut own, Ask::Look(k0, start), Told::Bare);
    assert_eq!(rt; last, Some(Some(Outcome::Dead)));
    Ok(())
}

/// Sweeps a transaction that the table has, of one key.
fn sweep_committed(sweep: &mut Sweep, alloc: Global, start: Stamp, commit: Stamp) -> Option<()> {
    tell(sweep, Ask::Get(start), Told::Committed(commit))?;
    tell_key(sweep, alloc, key(0))?;
    tell(sweep, Ask::Shadow(key(0), start, commit), Told::Done)?;
    tell(sweep, Ask::Remove(start), Told::Done)
}

#[test]
fn vanished_session(rt: HostRuntime) {
    let mut sweep = Sweep::open(stamp(1), 0);
    assert_eq!(rt; (sweep.txn(), sweep.epoch()), (stamp(1), 0));
    let swept = sweep_committed(&mut sweep, rt.alloc(), stamp(1), stamp(2));
    assert_eq!(rt; swept, Some(()));
    assert_eq!(rt; sweep.next(), None);
}

#[test]
fn a_sweep_of_a_newer_transaction(rt: HostRuntime) {
    let mut newer = Sweep::open(stamp(5), 4);
    let told = tell(&mut newer, Ask::Get(stamp(5)), Told::Absent);
    assert_eq!(rt; told, Some(()));
    assert_eq!(rt; newer.undecided(), true);
}

/// Sweeps a transaction that the table lacks, of one key.
fn sweep_absent(sweep: &mut Sweep, alloc: Global, start: Stamp) -> Option<()> {
    tell(sweep, Ask::Get(start), Told::Absent)?;
    tell(sweep, Ask::Mark(start), Told::Marked)?;
    tell_key(sweep, alloc, key(0))?;
    tell(sweep, Ask::Erase(key(0), start), Told::Done)
}

#[test]
fn a_sweep_of_an_older_transaction(rt: HostRuntime) {
    let mut older = Sweep::open(stamp(5), 5);
    let swept = sweep_absent(&mut older, rt.alloc(), stamp(5));
    assert_eq!(rt; swept, Some(()));
    assert_eq!(rt; older.undecided(), false);
}
