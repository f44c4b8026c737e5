ghost use Rattle.std.specs.Prelude.{◌≡◌};
ghost use Rattle.master_beacon.specs.Announcements.{IsFrontOf, longer};
ghost use Rattle.master_beacon.specs.Holds.{sight};

use crate::beacon::Beacon;
use crate::rule::CellPass;
use std::marker::Model;
use std::sync::Wait;

/// What one thread has seen of a beacon.
#[derive(Drop)]
pub struct BeaconPass {
    pub(crate) pass: CellPass,
}

impl Model for BeaconPass {
    ghost use Rattle.std.specs.Prelude.{◌≡◌, false};
    ghost use Rattle.crossbeam_utils.specs.Seq.{cell_view};
    ghost use Rattle.master_beacon.specs.Holds.{Sight, sight};

    ghost Value = { Sight };

    ghost view = { λ p. sight p.pass.table_id (cell_view p.pass).seen };

    ghost invariant = { λ p. (cell_view p.pass).publishes ≡ false };
}

impl BeaconPass {
    /// One pass of two, which has seen the longer of their two fronts. What each of them saw is a front of that.
    pub fn join<R: Wait>(self, rt: &R, beacon: &Beacon, other: BeaconPass) -> BeaconPass
        requires { (self.beacon ≡ beacon.now) × (other.beacon ≡ beacon.now) }
        ensures longer { result ≡ sight beacon.now (longer self.seen other.seen) }
        ensures fronts { IsFrontOf self.seen result.seen × IsFrontOf other.seen result.seen }
    {
        let BeaconPass { pass: mut mine } = self;
        let BeaconPass { pass: mut theirs } = other;
        beacon.take_in(rt, &mut mine, &mut theirs);
        BeaconPass { pass: mine }
    }
}
