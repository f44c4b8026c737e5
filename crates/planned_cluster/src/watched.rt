// A cluster that knows which nodes have taken the master record.
ghost use Rattle.std.specs.Prelude.{◌≡◌, [], fold, vec_len, IfOk};
ghost use Rattle.stamp_base.specs.Setups.{numbers_of};
ghost use Rattle.history_book.specs.Isolation.{Isolated};
ghost use Rattle.cause_rules.specs.Explained.{Explained};
ghost use Rattle.cause_rules.specs.Since.{told_then};
ghost use Rattle.cause_rules.specs.Strict.{SerialIfStrict};
ghost use Rattle.machine.specs.State.{opening};
ghost use Rattle.machine.specs.Machine.{IsSteadyAt, reading_of, asks};
ghost use Rattle.machine.specs.Readers as read;
ghost use Rattle.event_parts.specs.Made.{Asks};
ghost use Rattle.command_semantics.specs.Master.{taken_by, last_master, has_take};
ghost use Rattle.cluster_core.specs.Served.{LeavesRoom, NeverLacksIf, is_served};
ghost use Rattle.cluster_core.specs.ClusterModel.{MakesStep, step_under};
ghost use Rattle.planned_cluster.specs.Takes.{then_taken};

use cluster_core::{Cluster, Stopped};
use history_book::Item;
use machine::{Doing, Event};
use port_io::Weather;
use stamp_base::{NoMemory, NodeNo, SessionNo, Setup, Term};
use std::alloc::Global;
use std::marker::Model;
use system_parts::Place;

/// A cluster, the node that took the master record last, and for each node whether it has ever taken it. A take that failed but was
/// applied counts, since its item stands in the history.
#[derive(Drop)]
pub struct WatchedCluster {
    cluster: Cluster,
    last: Option<NodeNo>,
    taken: Vec<bool>,
}

impl Model for WatchedCluster {
    ghost use Rattle.std.specs.Prelude.{◌≡◌};
    ghost use Rattle.cause_rules.specs.Since.{last_told};
    ghost use Rattle.command_semantics.specs.Master.{taken_by};
    ghost use Rattle.cluster_core.specs.Codes.{whole_code};
    ghost use Rattle.cluster_core.specs.ClusterModel.{ClusterModel};
    ghost use Rattle.planned_cluster.specs.Takes.{nodes_taken};

    ghost Value = { ClusterModel };

    ghost coded = { whole_code };

    ghost view = { λ w. w.cluster };

    ghost invariant = { λ w.
        (w.last ≡ last_told taken_by w.cluster.history) × (w.taken.items ≡ nodes_taken w.cluster.history) };
}

impl WatchedCluster {
    /// Nobody has taken the record. NoMemory where memory is refused.
    pub fn open(alloc: Global, setup: Setup) -> Result<WatchedCluster, NoMemory>
        ensures state { IfOk result (λ made. made.state ≡ opening (numbers_of setup)) }
        ensures history { IfOk result (λ made. made.history ≡ []) }
        ensures spare { IfOk result (λ made. made.spare ≡ 0) }
    {
        Ok(WatchedCluster {
            cluster: Cluster::open(alloc, setup)?,
            last: None,
            taken: Vec::from_elem(alloc, false, NodeNo::COUNT)?,
        })
    }

    /// As the cluster makes it, with its errors.
    pub fn make<W: Weather>(&mut self, weather: &mut W, event: &Event) -> Result<(), Stopped>
        requires { IsSteadyAt self.old.state.setup.skew self.old.state.seen (reading_of event.now) }
        ensures made { MakesStep (step_under (W.ahead weather.old) self.old.state event.now) self.old self.new result }
        ensures asked { Asks result (asks self.old.state event.now) (W.ahead weather.old) (W.ahead weather.new)
            (W.faults weather.old) (W.faults weather.new) }
        ensures room { LeavesRoom event.now self.old self.new result }
        ensures served { NeverLacksIf (is_served self.old.state event.now) result }
    {
        let before = self.cluster.history().len();
        let answer = self.cluster.make(weather, event);
        note_takes(
            &mut self.last,
            &mut self.taken,
            &self.cluster.history()[before..],
        );
        answer
    }

    /// The cluster, which is watched no longer.
    pub fn into_cluster(self) -> Cluster
        ensures { result ≡ self }
    {
        let WatchedCluster { cluster, .. } = self;
        cluster
    }

    /// The history so far.
    pub fn history(&self) -> &[Item]
        ensures value { result.now ≡ self.now.history }
        ensures isolated { Isolated self.now.history }
        ensures explained { Explained self.now.state.setup self.now.history }
        ensures serial { SerialIfStrict self.now.state.setup self.now.history }
    {
        self.cluster.history()
    }

    /// For how many items more there is room that was reserved for requests.
    pub fn spare(&self) -> usize
        ensures { result ≡ self.now.spare }
    {
        self.cluster.spare()
    }

    /// What the session is doing.
    pub fn doing(&self, session: SessionNo) -> Doing
        ensures { result ≡ read.doing_of self.now.state session }
    {
        self.cluster.doing(session)
    }

    /// What the session has in flight.
    pub fn in_flight(&self, session: SessionNo) -> (Option<(NodeNo, Place)>, bool)
        ensures { result ≡ (read.place_of self.now.state session, read.asks_commit self.now.state session) }
    {
        self.cluster.in_flight(session)
    }

    /// The term of the node's oracle. None where it has none.
    pub fn term_of(&self, node: NodeNo) -> Option<Term>
        ensures { result ≡ read.term_of self.now.state node }
    {
        self.cluster.term_of(node)
    }

    /// Whether a sweep is open.
    pub fn sweeping(&self) -> bool
        ensures { result ≡ read.sweeping self.now.state }
    {
        self.cluster.sweeping()
    }

    /// The node that took the master record last, or the first node where none did.
    pub fn master(&self) -> NodeNo
        ensures { result ≡ last_master self.now.history }
    {
        match self.last {
            Some(node) => node,
            None => NodeNo::FIRST,
        }
    }

    /// Whether the node has ever taken the master record.
    pub fn has_taken(&self, node: NodeNo) -> bool
        ensures { result ≡ has_take self.now.history node }
    {
        self.taken[node.index()]
    }
}

/// Notes which nodes have taken the record by these items.
fn note_takes(last: &mut Option<NodeNo>, taken: &mut Vec<bool>, items: &[Item])
    requires { vec_len taken.old ≡ 8 }
    ensures last { last.new ≡ fold (told_then taken_by) last.old items.now }
    ensures taken { taken.new.items ≡ fold then_taken taken.old.items items.now }
{
    for item in items {
        if let Some(node) = taken_by(item) {
            *last = Some(node);
            taken[node.index()] = true;
        }
    }
}

fn taken_by(item: &Item) -> Option<NodeNo>
    ensures { result ≡ taken_by item.now }
{
    match item {
        Item::Take { node, .. } => Some(*node),
        _ => None,
    }
}
