// Each call once with ample memory, and the end of the stamps, which no script reaches.
ghost use Rattle.std.specs.Prelude.{◌≡◌};
ghost use Rattle.system_parts.specs.Instance as entry;

use crate::numbers::keys;
use history_book::Cause;
use oracle_core::{Decided, Instance, Place, Reply, Request, Settled};
use stamp_base::{NodeNo, SessionNo, Setup, SetupFlag, Stamp, Term};
use std::alloc::Global;
use std::test::Fail;
use system_parts::{Grant, Verdict};

/// An instance of the first node, with these stamps to draw and a lease up to 10.
fn opened(alloc: Global, epoch: u64, ceiling: u64) -> Result<Instance, Fail> {
    opened_with(alloc, epoch, ceiling, &Setup::default())
}

/// The same, which hands commits to their sessions.
fn opened_direct(alloc: Global) -> Result<Instance, Fail> {
    let mut setup = Setup::default();
    setup.turn_on(SetupFlag::Direct);
    opened_with(alloc, 0, 100, &setup)
}

fn opened_with(alloc: Global, epoch: u64, ceiling: u64, setup: &Setup) -> Result<Instance, Fail> {
    let grant = Grant {
        term: Term::FIRST,
        epoch,
        until: 10,
        ceiling,
    };
    if epoch <= ceiling && ceiling <= Stamp::GREATEST {
        return Ok(Instance::open(alloc, grant, NodeNo::FIRST, setup)?);
    }
    Err("out of range")?
}

/// A begin of the first session.
fn begin() -> Request {
    Request::Begin {
        session: SessionNo::FIRST,
    }
}

/// A commit of the last session, of one key.
fn commit() -> Request {
    Request::Commit {
        session: SessionNo::LAST,
        start: Stamp::FIRST,
        keys: keys(&[0]),
    }
}

/// Whose request it is.
fn session_of(request: &Request) -> SessionNo
    ensures { result ≡ entry.session_of request.now }
{
    match request {
        Request::Begin { session } => *session,
        Request::Commit { session, .. } => *session,
    }
}

/// Asks, and accepts at reading 9.
fn accepted(instance: &mut Instance, request: Request) -> Result<(), Cause> {
    let session = session_of(&request);
    if instance.place(session).is_some() {
        return Err(Cause::Busy);
    }
    instance.ask(request)?;
    instance.accept(session, 9)
}

/// Asks, accepts, and decides.
fn decided(instance: &mut Instance, request: Request) -> Result<Decided, Cause> {
    let session = session_of(&request);
    accepted(instance, request)?;
    instance.decide(session)
}

/// What is begun.
fn begun(start: Stamp, epoch: u64) -> Result<Reply, Cause> {
    Ok(Reply::Begun { start, epoch })
}

/// What a session without a request is told.
fn no_request(session: SessionNo) -> Result<(), Cause> {
    Err(Cause::NoRequest { session })
}

#[test]
fn a_begin_comes_and_goes(rt: HostRuntime) -> Result<(), Fail> {
    let mut instance = opened(rt.alloc(), 0, 100)?;
    let started = decided(&mut instance, begin());
    assert_eq!(rt; started, Ok(Decided::Started(Stamp::FIRST)));
    let begun = begun(Stamp::FIRST, instance.epoch());
    assert_eq!(rt; instance.answer(SessionNo::FIRST), begun);
    Ok(())
}

#[test]
fn a_commit_comes_and_goes(rt: HostRuntime) -> Result<(), Fail> {
    let mut instance = opened(rt.alloc(), 0, 100)?;
    let commit = decided(&mut instance, commit());
    assert_eq!(rt; commit, Ok(Decided::Drawn(Stamp::FIRST)));
    assert!(rt; instance.settle(SessionNo::LAST, Settled::Invalid).is_ok());
    assert_eq!(rt; instance.answer(SessionNo::LAST), Ok(Reply::Invalid));
    Ok(())
}

#[test]
fn what_a_begin_drew_is_told(rt: HostRuntime) -> Result<(), Fail> {
    let mut instance = opened(rt.alloc(), 0, 100)?;
    let session = SessionNo::FIRST;
    assert_eq!(rt; accepted(&mut instance, begin()), Ok(()));
    assert_eq!(rt; instance.drawn(session), None);
    assert!(rt; instance.decide(session).is_ok());
    assert_eq!(rt; instance.drawn(session), Some((Stamp::FIRST, None)));
    Ok(())
}

// Its start was drawn elsewhere.
#[test]
fn what_a_commit_drew_is_told(rt: HostRuntime) -> Result<(), Fail> {
    let mut instance = opened(rt.alloc(), 0, 100)?;
    assert!(rt; decided(&mut instance, commit()).is_ok());
    let stamps = (Stamp::FIRST, Some(Stamp::FIRST));
    assert_eq!(rt; instance.drawn(SessionNo::LAST), Some(stamps));
    Ok(())
}

// No put settles it.
#[test]
fn a_direct_commit_is_settled(rt: HostRuntime) -> Result<(), Fail> {
    let mut instance = opened_direct(rt.alloc())?;
    let drawn = decided(&mut instance, commit());
    assert_eq!(rt; drawn, Ok(Decided::Drawn(Stamp::FIRST)));
    assert_eq!(rt; instance.place(SessionNo::LAST), Some(Place::Settled));
    let settled = instance.settle(SessionNo::LAST, Settled::Placed);
    assert_eq!(rt; settled, no_request(SessionNo::LAST));
    Ok(())
}

/// A direct commit is drawn, and no put settles it.
fn drawn_direct(instance: &mut Instance) -> Option<()> {
    decided(instance, commit()).ok()?;
    instance.settle(SessionNo::LAST, Settled::Placed).err()?;
    Some(())
}

// It is handed over once.
#[test]
fn a_direct_commit_is_handed_over(rt: HostRuntime) -> Result<(), Fail> {
    let mut instance = opened_direct(rt.alloc())?;
    assert_eq!(rt; drawn_direct(&mut instance), Some(()));
    let handed = Reply::Handed {
        commit: Stamp::FIRST,
    };
    assert_eq!(rt; instance.answer(SessionNo::LAST), Ok(handed));
    assert_eq!(rt; instance.place(SessionNo::LAST), None);
    Ok(())
}

#[test]
fn a_begin_waits_for_no_direct_commit(rt: HostRuntime) -> Result<(), Fail> {
    let mut instance = opened_direct(rt.alloc())?;
    assert!(rt; decided(&mut instance, commit()).is_ok());
    assert!(rt; decided(&mut instance, begin()).is_ok());
    assert!(rt; instance.answer(SessionNo::FIRST).is_ok());
    Ok(())
}

#[test]
fn what_is_not_asked_is_not_refused(rt: HostRuntime) -> Result<(), Fail> {
    let mut instance = opened(rt.alloc(), 0, 100)?;
    let session = SessionNo::LAST;
    assert_eq!(rt; instance.refuse(session), no_request(session));
    assert!(rt; !instance.may_accept(session, 9));
    Ok(())
}

// What is accepted can be refused, once.
#[test]
fn a_commit_is_refused(rt: HostRuntime) -> Result<(), Fail> {
    let mut instance = opened(rt.alloc(), 0, 100)?;
    let session = SessionNo::LAST;
    assert_eq!(rt; accepted(&mut instance, commit()), Ok(()));
    assert_eq!(rt; instance.refuse(session), Ok(()));
    assert_eq!(rt; instance.refuse(session), no_request(session));
    Ok(())
}

/// A commit is accepted, and then refused.
fn refused(instance: &mut Instance) -> Result<(), Cause> {
    accepted(instance, commit())?;
    instance.refuse(SessionNo::LAST)
}

// Nothing was recorded for what is refused.
#[test]
fn a_refused_commit_leaves_nothing(rt: HostRuntime) -> Result<(), Fail> {
    let mut instance = opened(rt.alloc(), 0, 100)?;
    assert_eq!(rt; refused(&mut instance), Ok(()));
    assert_eq!(rt; instance.place(SessionNo::LAST), None);
    let told = instance.buckets().check(Stamp::FIRST, &keys(&[0]));
    assert_eq!(rt; told, Verdict::Free);
    Ok(())
}

/// What a begin is told where the last stamp is drawn.
fn no_stamp(last: u64) -> Result<Decided, Cause> {
    Err(Cause::NoStamp { last })
}

#[test]
fn a_range_is_widened(rt: HostRuntime) -> Result<(), Fail> {
    let mut instance = opened(rt.alloc(), 0, 0)?;
    instance.renewed(20);
    assert_eq!(rt; decided(&mut instance, begin()), no_stamp(0));
    assert!(rt; instance.range_end() <= 100);
    instance.widened(100);
    assert!(rt; instance.decide(SessionNo::FIRST).is_ok());
    Ok(())
}

#[test]
fn the_stamps_end(rt: HostRuntime) -> Result<(), Fail> {
    let ceiling = Stamp::GREATEST;
    let mut instance = opened(rt.alloc(), ceiling, ceiling)?;
    assert_eq!(rt; decided(&mut instance, begin()), no_stamp(ceiling));
    instance.stopped(Cause::Spent { ceiling });
    let ended = instance.decide(SessionNo::FIRST);
    assert_eq!(rt; ended, Err(Cause::Spent { ceiling }));
    Ok(())
}
