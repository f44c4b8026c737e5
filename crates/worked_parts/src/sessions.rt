// A session from call to call, and what it remembers of others.
ghost use Rattle.std.specs.Prelude.{◌≡◌, ◌≢◌, [], None, IfOk, OnOk};
ghost use Rattle.system_parts.specs.declared.session.State.{State};

use crate::numbers::{key, stamp};
use client_txn::{Known, Session, State};
use history_book::Cause;
use stamp_base::{KEY_LIMIT, NoMemory, Stamp};
use std::alloc::Global;
use std::process::Abort;
use std::test::Fail;

/// A session that begins at 1.
fn opened() -> Session
    ensures open { result.entry.state ≡ State.Open }
    ensures bare { result.entry.keys ≡ [] }
{
    let mut session = Session::new();
    session.asked();
    session.begun(stamp(1), 0);
    session
}

/// Writes each of the first 64 keys, unless one is refused.
fn fill(session: &mut Session) -> Option<()> {
    for n in 0..64 {
        session.wrote(key(n)).ok()?;
    }
    Some(())
}

#[test]
fn own_writes(rt: HostRuntime) {
    let mut session = opened();
    assert_eq!(rt; fill(&mut session), Some(()));
    assert_eq!(rt; session.check_write(key(0)), Ok(()));
    assert_eq!(rt; session.check_write(key(64)), Err(Cause::TooManyKeys));
    assert_eq!(rt; session.keys().as_slice().len(), KEY_LIMIT);
}

#[test]
fn plain_path(rt: HostRuntime) {
    let mut session = opened();
    assert_eq!(rt; session.wrote(key(0)), Ok(()));
    assert!(rt; !session.keys().as_slice().is_empty());
    commits(&rt, session, stamp(2));
}

/// Takes an open transaction with a write through its commit.
fn commits(rt: &impl Abort, mut session: Session, commit: Stamp)
    requires open { session.entry.state ≡ State.Open }
    requires wrote { session.entry.keys ≢ [] }
{
    session.asked();
    session.opened();
    assert_eq!(rt; session.state(), State::OpenOutcome);
    session.committed(commit);
    assert_eq!(rt; session.commit(), Some(commit));
    session.freed();
    assert_eq!(rt; session.start(), None);
    assert_eq!(rt; session.epoch(), Some(0));
}

#[test]
fn handed_commits(rt: HostRuntime) {
    let mut session = opened();
    assert_eq!(rt; session.wrote(key(0)), Ok(()));
    assert!(rt; !session.keys().as_slice().is_empty());
    places(&rt, session, stamp(2));
}

/// Takes an open transaction with a write to a commit that the session is to place, and that is not placed.
fn places(rt: &impl Abort, mut session: Session, commit: Stamp)
    requires open { session.entry.state ≡ State.Open }
    requires wrote { session.entry.keys ≢ [] }
{
    session.asked();
    session.handed(commit);
    assert_eq!(rt; session.state(), State::Placing);
    assert_eq!(rt; session.commit(), Some(commit));
    assert_eq!(rt; session.check_step(false), Ok(()));
    assert_eq!(rt; session.check_work(false), Err(Cause::Busy));
    session.opened();
    assert_eq!(rt; session.state(), State::OpenOutcome);
}

#[test]
fn refusals_of_order(rt: HostRuntime) {
    let session = opened();
    assert_eq!(rt; session.check_begin(), Err(Cause::Busy));
    assert_eq!(rt; session.check_work(true), Err(Cause::Busy));
    assert_eq!(rt; session.check_step(false), Err(Cause::Idle));
}

#[test]
fn a_session_vanishes_once(rt: HostRuntime) {
    let mut session = opened();
    session.aborted();
    assert_eq!(rt; session.check_vanish(), Ok(()));
    session.vanished();
    assert_eq!(rt; session.check_vanish(), Err(Cause::Gone));
}

#[test]
fn a_fresh_decision_is_not_yet_known(rt: HostRuntime) -> Result<(), Fail> {
    let mut session = Session::with_cache(rt.alloc(), 2)?;
    session.learnt(stamp(1), Known::Committed(stamp(2)));
    assert_eq!(rt; session.known(stamp(1)), None);
    Ok(())
}

/// A session that keeps two decisions, and has kept one.
fn with_one(alloc: Global) -> Result<Session, NoMemory>
    ensures { IfOk result (λ session. session.cache.fresh ≡ None) }
{
    let mut session = Session::with_cache(alloc, 2)?;
    session.learnt(stamp(1), Known::Committed(stamp(2)));
    session.keep_fresh()?;
    Ok(session)
}

/// A transaction is dead, and is kept so.
fn keeps(session: &mut Session, txn: u64) -> Result<(), NoMemory>
    requires { session.old.cache.fresh ≡ None }
    ensures { OnOk result (session.new.cache.fresh ≡ None) }
{
    session.learnt(stamp(txn), Known::Dead);
    session.keep_fresh()
}

#[test]
fn decisions_come_and_go(rt: HostRuntime) -> Result<(), Fail> {
    let mut session = with_one(rt.alloc())?;
    keeps(&mut session, 3)?;
    let committed = Known::Committed(stamp(2));
    assert_eq!(rt; session.known(stamp(1)), Some(committed));
    keeps(&mut session, 5)?;
    assert_eq!(rt; session.known(stamp(3)), None);
    assert!(rt; session.known(stamp(1)).is_some());
    Ok(())
}
