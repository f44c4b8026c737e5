// Wakes that are owed, and bells that were rung.
ghost use Rattle.std.specs.Prelude.{◌≡◌, ◌+◌, ◌<◌, ◌^◌, IfSome};
ghost use Rattle.stage_queues.specs.declared.spot.Row.TheVariants.{Workers};
ghost use Rattle.stage_queues.specs.Spots.{spot, whom};

use crate::bell::Rung;
use crate::spot::{Row, Whom};
use crate::waiting::Place;

/// Bells of a row that were rung, one after the other. It is made of rings alone.
#[derive(Drop)]
pub struct Rungs {
    of: Whom,
}

impl Rungs {
    /// None, before that of this number.
    pub fn none(row: Row, from: usize) -> Rungs
        ensures { result.of ≡ whom row from 0 }
    {
        Rungs {
            of: Whom {
                row,
                from,
                count: 0,
            },
        }
    }

    /// The next one, too.
    pub fn add(&mut self, rung: Rung)
        requires next { rung.spot ≡ spot self.old.of.row (self.old.of.from + self.old.of.count) }
        requires few { self.old.of.count + 1 < 2 ^ 64 }
        ensures { self.new.of ≡ whom self.old.of.row self.old.of.from (self.old.of.count + 1) }
    {
        let _rung = rung;
        self.of.count += 1;
    }

    /// A single one.
    pub fn one(rung: Rung) -> Rungs
        ensures { result.of ≡ whom rung.spot.row rung.spot.number 1 }
    {
        Rungs {
            of: Whom {
                row: rung.spot.row,
                from: rung.spot.number,
                count: 1,
            },
        }
    }
}

/// These know that what they may wait for has come: they were rung for, or had not asked to be.
#[derive(Drop)]
pub struct Heard {
    whom: Whom,
}

impl Heard {
    /// They had not asked.
    pub(crate) fn unasked(whom: Whom) -> Heard
        ensures { result.whom ≡ whom }
    {
        Heard { whom }
    }
}

/// What these wait for has come, and they asked to be told. Who found that owes each a ring. It can't be let go, only paid.
pub struct Owed {
    whom: Whom,
}

impl Owed {
    /// A ring is owed to each of these.
    pub fn to(whom: Whom) -> Owed
        ensures { result.whom ≡ whom }
    {
        Owed { whom }
    }

    /// The bells were rung.
    pub fn pay(self, rungs: Rungs) -> Heard
        requires { rungs.of ≡ self.whom }
        ensures { result.whom ≡ self.whom }
    {
        let _rungs = rungs;
        let Owed { whom } = self;
        Heard { whom }
    }
}

/// A batch was sent: one of the node's workers is owed a ring, if one waits. So many were asked, from the first on, and did not. It
/// can't be let go.
pub struct OwedToOne {
    node: usize,
    asked: usize,
}

impl OwedToOne {
    /// A ring is owed to one of the node's workers, of which none was asked yet.
    pub fn of(node: usize) -> OwedToOne
        ensures { (result.node ≡ node) × (result.asked ≡ 0) }
    {
        OwedToOne { node, asked: 0 }
    }

    /// Rings for the next one, if it waits. Otherwise one behind it is owed the ring.
    pub fn ask(self, place: &Place) -> Option<OwedToOne>
        requires next { place.now.bell.spot ≡ spot (Workers self.node) self.asked }
        requires few { self.asked + 1 < 2 ^ 64 }
        ensures { IfSome result (λ owed. (owed.node ≡ self.node) × (owed.asked ≡ self.asked + 1)) }
    {
        let OwedToOne { node, asked } = self;
        if place.rise() {
            let _rung = place.bell.ring();
            return None;
        }
        Some(OwedToOne {
            node,
            asked: asked + 1,
        })
    }

    /// All of so many workers were asked.
    pub fn nobody_waits(self, workers: usize)
        requires { self.asked ≡ workers }
    {
        let _workers = workers;
        let OwedToOne {
            node: _node,
            asked: _asked,
        } = self;
    }
}
