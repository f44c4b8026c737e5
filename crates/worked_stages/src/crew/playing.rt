// Two actors on threads, and the stages of two nodes.
ghost use Rattle.std.specs.Prelude.{◌≡◌};

use super::fake::{Fake, lines, session};
use actor_threads::play;
use history_book::Actor;
use reply_pipeline::OpenGate;
use stamp_base::{Name, NoMemory, Setup};
use std::alloc::Global;
use std::marker::Brand;
use std::sync::Wait;
use std::sync::ledger::{Blank, Ledger};
use std::test::Fail;
use std::thread::Threads;
use thread_steps::{ActorShare, Cursors};

// How many lines of the session and of the clock were done, by the shares that come back.
fn played<L: Ledger + Send + Sync, R: Threads + Wait + Sync>(
    rt: &R,
    alloc: Global,
    name: Name,
    blank: Blank,
    short: bool,
) -> Result<Vec<u64>, NoMemory>
    requires name { blank.name ≡ L.name }
    requires of_blank { blank.parts ≡ L.parts }
    requires parts { L.parts ≡ 2 }
{
    let actors = [session(), Actor::Clock];
    let (cursors, shares) = Cursors::<L>::open(alloc, &actors, blank)?;
    let board = Fake::new(cursors, short);
    let setup = Setup::default();
    let back = play(rt, alloc, &setup, &lines(name), &board, shares, &OpenGate)?;
    counts(alloc, &back)
}

fn counts<L: Ledger>(alloc: Global, shares: &[ActorShare<L>]) -> Result<Vec<u64>, NoMemory> {
    let mut counts = Vec::with_capacity(alloc, shares.len())?;
    for share in shares {
        counts.push(share.done())?;
    }
    Ok(counts)
}

// None where memory was refused.
fn done<R: Threads + Wait + Sync>(rt: &R, alloc: Global, short: bool) -> Option<Vec<u64>> {
    let name = Name::new(b"posted")?;
    played::<Brand, R>(rt, alloc, name, Blank::new(2), short).ok()
}

#[test]
fn all_lines_are_done(rt: HostRuntime) -> Result<(), Fail> {
    let done = done(&rt, rt.alloc(), false).ok_or("shares")?;
    assert_eq!(rt; done.len(), 2);
    assert_eq!(rt; (done[0], done[1]), (2, 1));
    Ok(())
}

// The session waits for a name that is never posted, until the clock is refused memory.
#[test]
fn want_of_memory_ends_all(rt: HostRuntime) -> Result<(), Fail> {
    assert!(rt; done(&rt, rt.alloc(), true).is_none());
    Ok(())
}
