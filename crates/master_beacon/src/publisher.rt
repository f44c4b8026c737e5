ghost use Rattle.std.specs.Prelude.{◌≡◌, ◌<◌, ◌++◌, ◌∷◌, [], IsTrue, MatchBool, ◌↔◌};
ghost use Rattle.master_beacon.specs.Announcements.{announced, last_term, IsRising, IsFrontOf};
ghost use Rattle.master_beacon.specs.Holds.{published, sight};

use crate::beacon::Beacon;
use crate::pass::BeaconPass;
use crate::rule::{CellPass, Publish};
use stamp_base::{NodeNo, Term};
use std::marker::Model;
use std::sync::Wait;

/// The one right to publish on a beacon.
#[derive(Drop)]
pub struct Publisher {
    pub(crate) last: u64,
    pub(crate) pass: CellPass,
}

impl Model for Publisher {
    ghost use Rattle.std.specs.Prelude.{◌≡◌, true};
    ghost use Rattle.crossbeam_utils.specs.Seq.{cell_view};
    ghost use Rattle.master_beacon.specs.Announcements.{last_term, IsRising};
    ghost use Rattle.master_beacon.specs.Holds.{Published, published};

    ghost Value = { Published };

    ghost view = { λ p. published p.pass.table_id (cell_view p.pass).seen };

    ghost invariant = { λ p. ((cell_view p.pass).publishes ≡ true) × (p.last ≡ last_term (cell_view p.pass).seen) × IsRising (cell_view p.pass).seen };
}

impl Publisher {
    /// Publishes the pair and answers true where its term is above the last one published. Otherwise answers false, and nothing
    /// changes.
    pub fn publish<R: Wait>(&mut self, rt: &R, beacon: &Beacon, term: Term, node: NodeNo) -> bool
        requires { self.old.beacon ≡ beacon.now }
        ensures told { IsTrue result ↔ (last_term self.old.list < term) }
        ensures list { MatchBool result (self.new ≡ published beacon.now (self.old.list ++ announced term node ∷ [])) (self.new ≡ self.old) }
        ensures rising { IsRising self.new.list }
    {
        if !self.is_above(term) {
            return false;
        }
        self.append(rt, beacon, term, node);
        true
    }

    fn is_above(&self, term: Term) -> bool
        ensures told { IsTrue result ↔ (last_term self.now.list < term) }
        ensures rising { IsRising self.now.list }
    {
        self.last < term.value()
    }

    fn append<R: Wait>(&mut self, rt: &R, beacon: &Beacon, term: Term, node: NodeNo)
        requires beacon { self.old.beacon ≡ beacon.now }
        requires above { last_term self.old.list < term }
        ensures list { self.new ≡ published beacon.now (self.old.list ++ announced term node ∷ []) }
        ensures rising { IsRising self.new.list }
    {
        let (number, place) = (term.value(), node.value());
        beacon
            .cell
            .swap_as::<Publish, R>(rt, &mut self.pass, [number, place]);
        self.last = number;
    }

    /// A pass that has seen all that was published.
    pub fn pass<R: Wait>(&mut self, _rt: &R, beacon: &Beacon) -> BeaconPass
        requires { self.old.beacon ≡ beacon.now }
        ensures same { self.new ≡ self.old }
        ensures pass { result ≡ sight beacon.now self.old.list }
    {
        BeaconPass {
            pass: beacon.copied(&mut self.pass),
        }
    }

    /// What the pass has seen is a front of what was published. Both stay as they are.
    pub fn tell<R: Wait>(&mut self, rt: &R, beacon: &Beacon, pass: &mut BeaconPass)
        requires publisher { self.old.beacon ≡ beacon.now }
        requires pass { pass.old.beacon ≡ beacon.now }
        ensures same { (self.new ≡ self.old) × (pass.new ≡ pass.old) }
        ensures front { IsFrontOf pass.old.seen self.old.list }
    {
        beacon.take_in(rt, &mut self.pass, &mut pass.pass);
    }
}
