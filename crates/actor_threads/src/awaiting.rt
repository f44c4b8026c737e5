// Which actors wait for a name, so that a post wakes these alone.
ghost use Rattle.std.specs.Prelude.{◌≡◌};
ghost use Rattle.actor_threads.specs.Waking.{awaits};

use history_book::Actor;
use script_data::{Line, Verb};
use stage_queues::{Queues, Waiter};
use stamp_base::{Name, NoMemory};
use std::alloc::Global;
use std::sync::atomic::{AtomicUsize, Ordering};
use std::sync::ledger::Ledger;
use thread_steps::ActorShare;

/// Behind all lines.
const NOWHERE: usize = usize::MAX;

/// At which line an actor waits for a name.
#[derive(Drop)]
struct Awaiter {
    actor: Actor,
    // The place of the line among all.
    place: AtomicUsize,
}

/// Where each actor with lines tells for which name it is going to wait. A name is posted by one line, so what an actor has told of
/// a line that it has passed wakes it no more.
#[derive(Drop)]
pub struct Awaiters {
    all: Vec<Awaiter>,
}

impl Awaiters {
    /// Nobody waits for a name. NoMemory where memory is refused.
    pub fn open<L: Ledger>(alloc: Global, shares: &[ActorShare<L>]) -> Result<Awaiters, NoMemory> {
        let mut all = Vec::with_capacity(alloc, shares.len())?;
        for mine in shares {
            all.push(Awaiter {
                actor: mine.actor(),
                place: AtomicUsize::new(NOWHERE),
            })?;
        }
        Ok(Awaiters { all })
    }

    /// The actor is going to wait at the line at this place. Whether it had told so already; otherwise it is to ask the board once
    /// more before it waits, since a post that came first has not woken it.
    pub fn tell(&self, actor: Actor, place: usize) -> bool {
        match self.place_of(actor) {
            Some(told) => told.swap(place, Ordering::SeqCst) == place,
            None => true,
        }
    }

    fn place_of(&self, actor: Actor) -> Option<&AtomicUsize> {
        for one in &self.all {
            if one.actor == actor {
                return Some(&one.place);
            }
        }
        None
    }

    /// The name is posted: wakes those whose line awaits it.
    pub fn wake(&self, queues: &Queues, lines: &[Line], name: &Name) {
        for one in &self.all {
            if let Some(line) = lines.get(one.place.load(Ordering::SeqCst)) {
                if awaits(&line.verb, name) {
                    queues.wake(Waiter::Actor(one.actor));
                }
            }
        }
    }
}

// Whether the line awaits the name.
fn awaits(verb: &Verb, name: &Name) -> bool
    ensures { result ≡ awaits name.now verb.now }
{
    match verb {
        Verb::Await { name: awaited } => awaited.as_slice() == name.as_slice(),
        _ => false,
    }
}
