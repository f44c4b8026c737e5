ghost use Rattle.std.specs.Prelude.{◌≡◌, ◌+◌, ◌<◌, IfOk, MatchResult, vec_len};
ghost use Rattle.stage_queues.specs.Places.{place_of};
ghost use Rattle.stage_queues.specs.Spots.{alone, spot, StandIn};

use crate::bell::Bell;
use crate::rings::{Heard, Owed};
use crate::spot::{Row, Spot, Whom};
use history_book::Actor;
use stamp_base::{NoMemory, NodeNo, SessionNo, Stage};
use std::alloc::Global;
use std::sync::atomic::{AtomicBool, Ordering};

/// Who may wait until another thread wakes it.
#[derive(Clone, Copy, Debug, PartialEq, Eq)]
pub enum Waiter {
    /// The thread of an actor.
    Actor(Actor),
    /// A stage of a node. The number tells persist workers of one node apart, from 0 on.
    Stage(NodeNo, Stage, u64),
}

/// How many actors there may be: the clock, the janitor, the nodes and the sessions.
pub const ACTORS: usize = 2 + NodeNo::COUNT + SessionNo::COUNT;

/// The place of the first session among them.
pub const FIRST_SESSION: usize = 2 + NodeNo::COUNT;

/// The place of an actor among all.
pub fn actor_place(actor: Actor) -> usize
    ensures place { result ≡ place_of actor }
    ensures there { result < ACTORS }
{
    match actor {
        Actor::Clock => 0,
        Actor::Janitor => 1,
        Actor::Node(node) => 2 + node.index(),
        Actor::Session(session) => 2 + NodeNo::COUNT + session.index(),
    }
}

/// Whether one has asked for room in a queue, or for a batch of a pool.
#[derive(Drop)]
pub struct Crowd {
    asks: AtomicBool,
    whom: Whom,
}

impl Crowd {
    /// None of these has asked.
    pub fn of(whom: Whom) -> Crowd
        ensures { result.whom ≡ whom }
    {
        Crowd {
            asks: AtomicBool::new(false),
            whom,
        }
    }

    /// One found no room, or no batch.
    pub fn ask(&self) {
        self.asks.store(true, Ordering::SeqCst);
    }

    /// There is room, or a batch. Where one has asked for it since the last time, all are to be woken.
    pub fn leave(&self) -> Result<Heard, Owed>
        ensures { MatchResult result (λ heard. heard.whom ≡ self.now.whom) (λ owed. owed.whom ≡ self.now.whom) }
    {
        if self.asks.load(Ordering::SeqCst) && self.asks.swap(false, Ordering::SeqCst) {
            return Err(Owed::to(self.whom));
        }
        Ok(Heard::unasked(self.whom))
    }
}

/// Where a thread waits, and whether it has told that it does.
#[derive(Drop)]
pub struct Place {
    /// The bell that wakes the thread.
    pub bell: Bell,
    waits: AtomicBool,
    // Of a session: whether its line waits for its stamp.
    awaits_stamp: AtomicBool,
}

impl Place {
    /// Nobody waits there.
    pub fn at(spot: Spot) -> Place
        ensures { result.bell.spot ≡ spot }
    {
        Place {
            bell: Bell::at(spot),
            waits: AtomicBool::new(false),
            awaits_stamp: AtomicBool::new(false),
        }
    }

    /// The thread is going to wait. Whether it had told so already.
    pub fn rest(&self) -> bool {
        self.waits.swap(true, Ordering::SeqCst)
    }

    /// The thread does not wait any more, or is woken. Whether it had told that it waits.
    pub fn rise(&self) -> bool {
        self.waits.load(Ordering::SeqCst) && self.waits.swap(false, Ordering::SeqCst)
    }

    /// Whether the session's line waits for its stamp, from now on.
    pub fn heed_stamp(&self, awaits: bool) {
        self.awaits_stamp.store(awaits, Ordering::SeqCst);
    }

    /// It has its stamp. Where its line waits for that, it is to be woken.
    pub fn leave_stamp(&self) -> Result<Heard, Owed>
        ensures { MatchResult result (λ heard. heard.whom ≡ alone self.now.bell.spot) (λ owed. owed.whom ≡ alone self.now.bell.spot) }
    {
        let whom = Whom {
            row: self.bell.spot().row,
            from: self.bell.spot().number,
            count: 1,
        };
        if self.awaits_stamp.load(Ordering::SeqCst) {
            return Err(Owed::to(whom));
        }
        Ok(Heard::unasked(whom))
    }
}

/// So many places to wait at, in a row. NoMemory where memory is refused.
pub fn places(alloc: Global, row: Row, count: usize) -> Result<Vec<Place>, NoMemory>
    ensures count { IfOk result (λ places. vec_len places ≡ count) }
    ensures row { IfOk result (λ places. StandIn row places.items) }
{
    let mut places = Vec::with_capacity(alloc, count)?;
    for number in 0..count {
        places.push(Place::at(Spot { row, number }))?;
    }
    Ok(places)
}
