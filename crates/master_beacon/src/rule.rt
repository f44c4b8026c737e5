// The rule of a beacon, and what each step does to a view.
use atomic_table::{Join, Split};
use crossbeam_utils::atomic::seq_cell::{Pass, RuledSeqCell};
use crossbeam_utils::rule::{Outcome, Protocol};
use stamp_base::{NodeNo, Term};
use std::collections::LinkedList;

/// A term, and the node that took it.
#[derive(Clone, Copy, Debug, PartialEq, Eq)]
pub struct Announced {
    /// The term.
    pub term: Term,
    /// The node.
    pub node: NodeNo,
}

/// What a pass knows of the published list. No value of it is made.
pub struct BeaconView {
    /// Whether it is the publisher's, which has the whole list.
    pub publishes: bool,
    /// The front of the list that was seen.
    pub seen: LinkedList<Announced>,
    /// The front that another pass had seen, which was joined to this one and not compared yet.
    pub beside: LinkedList<Announced>,
}

/// The two words are the term and the node of the pair that was published last, and zeros where there is none.
pub type Cell = RuledSeqCell<[u64; 2], BeaconView, InOneList, 2>;

/// A pass of a beacon's cell, with its view of the published list.
pub type CellPass = Pass<[u64; 2], BeaconView>;

/// There is one published list, which rises, and each pass has seen a front of it.
pub struct InOneList;

impl Protocol<[u64; 2], BeaconView> for InOneList {
    ghost use Rattle.master_beacon.specs.Rule.{IsPublished};
    ghost use Rattle.master_beacon.specs.Views.{first_view};

    ghost holds = { IsPublished };

    ghost first = { first_view };
}

/// A pair is published.
pub struct Publish;

impl Outcome<[u64; 2], BeaconView> for Publish {
    ghost use Rattle.master_beacon.specs.Steps.{Publishes};

    ghost then = { Publishes };
}

/// The list so far is seen.
pub struct Look;

impl Outcome<[u64; 2], BeaconView> for Look {
    ghost use Rattle.master_beacon.specs.Steps.{Looks};

    ghost then = { Looks };
}

/// Two fronts of the list are compared, and the longer is kept.
pub struct Compare;

impl Outcome<[u64; 2], BeaconView> for Compare {
    ghost use Rattle.master_beacon.specs.Steps.{Compares};

    ghost then = { Compares };
}

/// A pass makes another, which has seen as much and does not publish.
pub struct Copied;

impl Split<BeaconView> for Copied {
    ghost use Rattle.master_beacon.specs.Views.{seeing};

    ghost left = { λ view. view };

    ghost right = { λ view. seeing view.seen };
}

/// What another pass has seen is put beside what this one has.
pub struct PutBeside;

impl Join<BeaconView> for PutBeside {
    ghost use Rattle.std.specs.Prelude.{[]};
    ghost use Rattle.master_beacon.specs.Views.{seeing, with_beside};

    ghost both = { with_beside };

    ghost spent = { seeing [] };
}
