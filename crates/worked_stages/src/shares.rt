// Shares and cursors on one thread.
ghost use Rattle.std.specs.Prelude.{◌≡◌};

use history_book::Actor;
use stamp_base::{NoMemory, NodeNo};
use std::alloc::Global;
use std::marker::Brand;
use std::sync::ledger::{Blank, Ledger};
use std::test::Fail;
use thread_steps::{Cursor, Cursors};

/// The clock does two lines and then three, and the janitor none.
#[tactic(auto, unfolding(thread_steps::specs::Done::caught_up))]
fn two_actors<L: Ledger>(alloc: Global, blank: Blank) -> Result<(u64, Vec<Cursor>), NoMemory>
    requires name { blank.name ≡ L.name }
    requires of_blank { blank.parts ≡ L.parts }
    requires parts { L.parts ≡ 2 }
{
    let actors = [Actor::Clock, Actor::Janitor];
    let (mut cursors, mut shares) = Cursors::<L>::open(alloc, &actors, blank)?;
    let mut clock = shares.remove(0);
    cursors.catch_up(&mut clock, 2);
    cursors.catch_up(&mut clock, 5);
    let mut seen = Vec::new(alloc);
    seen.extend_from_slice(cursors.as_slice())?;
    let done = clock.done();
    shares.push(clock)?;
    cursors.audit(shares);
    Ok((done, seen))
}

#[test]
fn a_cursor_comes_up(rt: HostRuntime) -> Result<(), Fail> {
    let (done, seen) = two_actors::<Brand>(rt.alloc(), Blank::new(2))
        .ok()
        .ok_or("memory")?;
    assert_eq!(rt; done, 5);
    assert_eq!(rt; seen.len(), 2);
    assert!(rt; seen[0].actor == Actor::Clock && seen[0].done == 5);
    assert!(rt; seen[1].actor == Actor::Janitor && seen[1].done == 0);
    Ok(())
}

/// No actor has a share, and one part of the ledger is in none.
fn no_actor<L: Ledger>(alloc: Global, blank: Blank) -> Result<usize, NoMemory>
    requires name { blank.name ≡ L.name }
    requires of_blank { blank.parts ≡ L.parts }
    requires parts { L.parts ≡ 1 }
{
    let (cursors, shares) = Cursors::<L>::open(alloc, &[], blank)?;
    let count = cursors.as_slice().len();
    cursors.audit(shares);
    Ok(count)
}

#[test]
fn no_actor_has_no_share(rt: HostRuntime) -> Result<(), Fail> {
    let count = no_actor::<Brand>(rt.alloc(), Blank::new(1))
        .ok()
        .ok_or("memory")?;
    assert_eq!(rt; count, 0);
    Ok(())
}

/// The actor of the first share, and what it counts where its cursor stays.
fn still_there<L: Ledger>(alloc: Global, blank: Blank) -> Result<(Actor, u64), NoMemory>
    requires name { blank.name ≡ L.name }
    requires of_blank { blank.parts ≡ L.parts }
    requires parts { L.parts ≡ 1 }
{
    let (mut cursors, mut shares) = Cursors::<L>::open(alloc, &[Actor::Janitor], blank)?;
    let mut share = shares.remove(0);
    cursors.catch_up(&mut share, 0);
    Ok((share.actor(), share.done()))
}

#[test]
fn a_cursor_stays_at_its_place(rt: HostRuntime) -> Result<(), Fail> {
    let (actor, done) = still_there::<Brand>(rt.alloc(), Blank::new(1))
        .ok()
        .ok_or("memory")?;
    assert!(rt; actor == Actor::Janitor);
    assert_eq!(rt; done, 0);
    Ok(())
}

/// Where a new share is aimed, and where it is once it was aimed and a cursor has come up.
fn aims<L: Ledger>(alloc: Global, blank: Blank) -> Result<(NodeNo, NodeNo), NoMemory>
    requires name { blank.name ≡ L.name }
    requires of_blank { blank.parts ≡ L.parts }
    requires parts { L.parts ≡ 1 }
{
    let (mut cursors, mut shares) = Cursors::<L>::open(alloc, &[Actor::Clock], blank)?;
    let mut share = shares.remove(0);
    let first = share.aimed();
    share.aim(NodeNo::LAST);
    cursors.catch_up(&mut share, 1);
    Ok((first, share.aimed()))
}

#[test]
fn a_share_stays_aimed(rt: HostRuntime) -> Result<(), Fail> {
    let (first, then) = aims::<Brand>(rt.alloc(), Blank::new(1))
        .ok()
        .ok_or("memory")?;
    assert_eq!(rt; first, NodeNo::FIRST);
    assert_eq!(rt; then, NodeNo::LAST);
    Ok(())
}
