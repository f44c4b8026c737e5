ghost use Rattle.std.specs.Prelude.{◌≡◌, [], Option, IfOk};
ghost use Rattle.crossbeam_utils.specs.Seq.{IsSamePass, cell_view};
ghost use Rattle.master_beacon.specs.Holds.{published};
ghost use Rattle.master_beacon.specs.Rule.{IsPairOrNone, words_of};
ghost use Rattle.master_beacon.specs.Seen.{Seen, answered};
ghost use Rattle.master_beacon.specs.Steps.{Keeps};
ghost use Rattle.master_beacon.specs.Views.{seeing, with_beside};
ghost use Rattle.master_beacon.specs.declared.rule.Announced.{Announced};

use crate::pass::BeaconPass;
use crate::publisher::Publisher;
use crate::rule::{Cell, CellPass, Compare, Copied, Look, PutBeside};
use stamp_base::{NoMemory, NodeNo, Term};
use std::alloc::Global;
use std::marker::Model;
use std::sync::Wait;

/// A term and the node that took it, which one publisher writes and any thread reads. Contracts see which beacon it is.
#[derive(Drop)]
pub struct Beacon {
    pub(crate) cell: Cell,
}

impl Model for Beacon {
    ghost use Rattle.atomic_table.specs.Seated.{TableId};

    ghost Value = { TableId };

    ghost view = { λ b. b.cell.table.shared.table_id };
}

impl Beacon {
    /// A beacon on which nothing was published, and its one publisher. NoMemory where memory is refused.
    pub fn open(alloc: Global) -> Result<(Beacon, Publisher), NoMemory>
        ensures { IfOk result (λ opened. opened.1 ≡ published opened.0 []) }
    {
        let (cell, pass) = Cell::ruled(alloc, [0, 0])?;
        Ok((Beacon { cell }, Publisher { last: 0, pass }))
    }

    /// The term and the node that were published last, by one look; None where none was. The pass has then seen the list up
    /// to there.
    pub fn see<R: Wait>(&self, rt: &R, pass: &mut BeaconPass) -> Option<(Term, NodeNo)>
        requires { pass.old.beacon ≡ self.now }
        ensures beacon { pass.new.beacon ≡ self.now }
        ensures seen { Seen pass.old.seen pass.new.seen result }
    {
        let words = self.cell.load_as::<Look, R>(rt, &mut pass.pass);
        pair_of(&words)
    }

    // A new pass that has seen as much and does not publish.
    pub(crate) fn copied(&self, pass: &mut CellPass) -> CellPass
        requires { pass.old.table_id ≡ self.now }
        ensures same { IsSamePass pass.old pass.new × (cell_view pass.new ≡ cell_view pass.old) }
        ensures copy { (result.table_id ≡ self.now) × (cell_view result ≡ seeing (cell_view pass.old).seen) × (result.me.1 ≡ []) }
    {
        self.cell.split_pass::<Copied>(pass)
    }

    // Takes in what the other pass has seen. The other stays as it is.
    pub(crate) fn take_in<R: Wait>(&self, rt: &R, pass: &mut CellPass, other: &mut CellPass)
        requires { (pass.old.table_id ≡ self.now) × (other.old.table_id ≡ self.now) }
        ensures same { IsSamePass pass.old pass.new × IsSamePass other.old other.new × (cell_view other.new ≡ cell_view other.old) }
        ensures kept { Keeps (with_beside (cell_view pass.old) (seeing (cell_view other.old).seen)) (cell_view pass.new) }
    {
        // A pass that has made steps cannot be joined, a new one can.
        let copy = self.copied(other);
        self.cell.join_pass::<PutBeside>(pass, copy);
        self.cell.load_as::<Compare, R>(rt, pass);
    }
}

// The pair for which the words stand.
fn pair_of(words: &[u64; 2]) -> Option<(Term, NodeNo)>
    ensures { (pair : Option Announced) → words.now ≡ words_of pair → IsPairOrNone pair → result ≡ answered pair }
{
    Some((Term::new(words[0])?, NodeNo::new(words[1])?))
}
