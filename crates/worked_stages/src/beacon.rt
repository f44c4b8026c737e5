// The beacon, on one thread and on two.
ghost use Rattle.std.specs.Prelude.{◌≡◌};

use master_beacon::{Beacon, BeaconPass, Desk, announce};
use stamp_base::{NodeNo, Term};
use std::sync::{Mutex, Wait};
use std::test::Fail;
use std::thread;
use std::thread::Threads;

const LAST: u64 = 40;

fn term(number: u64) -> Result<Term, Fail> {
    Ok(Term::new(number).ok_or("a term")?)
}

#[test]
fn looks_answer_the_last_pair(rt: HostRuntime) -> Result<(), Fail> {
    let (one, two) = (term(1)?, term(2)?);
    let (beacon, mut publisher) = Beacon::open(rt.alloc())?;
    let mut early = publisher.pass(&rt, &beacon);
    assert_eq!(rt; beacon.see(&rt, &mut early), None);
    assert!(rt; publisher.publish(&rt, &beacon, two, NodeNo::LAST));
    assert!(rt; !publisher.publish(&rt, &beacon, one, NodeNo::FIRST));
    assert_eq!(rt; beacon.see(&rt, &mut early), Some((two, NodeNo::LAST)));
    let late = publisher.pass(&rt, &beacon);
    let mut both = early.join(&rt, &beacon, late);
    publisher.tell(&rt, &beacon, &mut both);
    assert_eq!(rt; beacon.see(&rt, &mut both), Some((two, NodeNo::LAST)));
    Ok(())
}

// Announces term by term, and yields between.
fn announce_all<R: Wait>(rt: &R, desk: &Mutex<Desk<'_>>) {
    for number in 1..LAST + 1 {
        if let Some(term) = Term::new(number) {
            announce(rt, desk, term, NodeNo::LAST);
        }
        thread::yield_now();
    }
}

// Looks again and again, and tells whether the terms ever fell.
fn watch<R: Wait>(rt: &R, beacon: &Beacon, pass: BeaconPass) -> (BeaconPass, bool)
    requires { pass.beacon ≡ beacon.now }
    ensures { result.0.beacon ≡ beacon.now }
{
    let mut pass = pass;
    let mut last = 0;
    let mut fell = false;
    for _round in 0..LAST {
        if let Some((term, _)) = beacon.see(rt, &mut pass) {
            fell = fell || term.value() < last;
            last = term.value();
        }
        thread::yield_now();
    }
    (pass, fell)
}

fn watch_beside<R: Threads + Wait + Sync>(
    rt: &R,
    beacon: &Beacon,
    desk: &Mutex<Desk<'_>>,
    pass: BeaconPass,
) -> (BeaconPass, bool)
    requires { pass.beacon ≡ beacon.now }
    ensures { result.0.beacon ≡ beacon.now }
{
    let (_, watched) = thread::join(
        rt,
        || announce_all(rt, desk),
        || -> (BeaconPass, bool)
            requires { pass.beacon ≡ beacon.now }
            ensures { result.0.beacon ≡ beacon.entry.now }
        { watch(rt, beacon, pass) },
    );
    watched
}

#[test]
fn a_pass_on_another_thread_never_goes_back(rt: HostRuntime) -> Result<(), Fail> {
    let (beacon, mut publisher) = Beacon::open(rt.alloc())?;
    let pass = publisher.pass(&rt, &beacon);
    let desk = Mutex::new(Desk::new(&beacon, publisher));
    let (mut pass, fell) = watch_beside(&rt, &beacon, &desk, pass);
    assert!(rt; !fell);
    let seen = beacon.see(&rt, &mut pass);
    assert_eq!(rt; seen, Some((term(LAST)?, NodeNo::LAST)));
    Ok(())
}
