ghost use Rattle.std.specs.Prelude.{◌≡◌, ◌<◌, ◌++◌, ◌∷◌, [], IsTrue, MatchBool, ◌↔◌};
ghost use Rattle.master_beacon.specs.Announcements.{announced, last_term, IsRising};
ghost use Rattle.master_beacon.specs.Holds.{published};

use crate::beacon::Beacon;
use crate::publisher::Publisher;
use stamp_base::{NodeNo, Term};
use std::marker::Model;
use std::sync::{Mutex, Wait};

/// A publisher together with its beacon, to lie behind a lock: so whoever has the lock can publish.
#[derive(Drop)]
pub struct Desk<'a> {
    beacon: &'a Beacon,
    publisher: Publisher,
}

impl<'a> Model for Desk<'a> {
    ghost use Rattle.std.specs.Prelude.{◌≡◌};
    ghost use Rattle.master_beacon.specs.Holds.{Published};

    ghost Value = { Published };

    ghost view = { λ desk. desk.publisher };

    ghost invariant = { λ desk. desk.publisher.beacon ≡ desk.beacon.now };
}

impl<'a> Desk<'a> {
    /// The publisher with the beacon that it publishes on.
    pub fn new(beacon: &'a Beacon, publisher: Publisher) -> Desk<'a>
        requires { publisher.beacon ≡ beacon.now }
        ensures { result ≡ publisher }
    {
        Desk { beacon, publisher }
    }

    /// Publishes the pair on the desk's beacon, as `Publisher::publish`.
    pub fn publish<R: Wait>(&mut self, rt: &R, term: Term, node: NodeNo) -> bool
        ensures told { IsTrue result ↔ (last_term self.old.list < term) }
        ensures list { MatchBool result (self.new ≡ published self.old.beacon (self.old.list ++ announced term node ∷ [])) (self.new ≡ self.old) }
        ensures rising { IsRising self.new.list }
    {
        self.publisher.publish(rt, self.beacon, term, node)
    }
}

/// Publishes the pair under the lock, from any thread. What lay under the lock before has no name in a clause.
pub fn announce<R: Wait>(rt: &R, desk: &Mutex<Desk<'_>>, term: Term, node: NodeNo) -> bool {
    desk.lock(rt).publish(rt, term, node)
}
