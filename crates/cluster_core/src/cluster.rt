// The cluster, whose history is isolated and explained, and serial where reads are strict.
ghost use Rattle.std.specs.Prelude.{◌≡◌, [], IfOk};
ghost use Rattle.stamp_base.specs.Setups.{numbers_of};
ghost use Rattle.history_book.specs.Isolation.{Isolated};
ghost use Rattle.cause_rules.specs.Explained.{Explained};
ghost use Rattle.cause_rules.specs.Strict.{SerialIfStrict};
ghost use Rattle.machine.specs.State.{opening};
ghost use Rattle.machine.specs.Machine.{IsSteadyAt, reading_of, asks};
ghost use Rattle.machine.specs.Readers as read;
ghost use Rattle.event_parts.specs.Made.{Asks};
ghost use Rattle.cluster_core.specs.Served.{LeavesRoom, NeverLacksIf, is_served};
ghost use Rattle.cluster_core.specs.ClusterModel.{MakesStep, step_under};

use crate::ClusterState;
use event_parts::Stopped;
use history_book::Item;
use machine::{Doing, Event};
use port_io::Weather;
use stamp_base::{NoMemory, NodeNo, SessionNo, Setup, Term};
use std::alloc::Global;
use std::marker::Model;
use system_parts::Place;

/// The nodes with their oracles, the sessions, the janitor and the stores, with the history of their events. Each event is one
/// call. The history is isolated, each of its refusals is shown by what stands before it, and where the setup asks for strict reads
/// it is serial. Readings are in ticks of the base clock.
#[derive(Drop)]
pub struct Cluster {
    pub(crate) engine: ClusterState,
}

impl Model for Cluster {
    ghost use Rattle.cluster_core.specs.ClusterModel.{ClusterModel};
    ghost use Rattle.cluster_core.specs.Codes.{whole_code};
    ghost use Rattle.cluster_core.specs.Reached.{IsReached};

    ghost Value = { ClusterModel };

    ghost coded = { whole_code };

    ghost view = { λ c. c.engine };

    // The history tells the state, as it does from the opening on.
    ghost invariant = { λ c. IsReached c.engine };
}

impl Cluster {
    /// The record is free, the stores are empty, the sessions are free, and so is the history. NoMemory where memory is refused.
    pub fn open(alloc: Global, setup: Setup) -> Result<Cluster, NoMemory>
        ensures state { IfOk result (λ made. made.state ≡ opening (numbers_of setup)) }
        ensures history { IfOk result (λ made. made.history ≡ []) }
        ensures spare { IfOk result (λ made. made.spare ≡ 0) }
    {
        Ok(Cluster {
            engine: ClusterState::open(alloc, setup)?,
        })
    }

    /// The event is one step of the machine, under the fate that the weather has ahead for the one store that it asks. Refused
    /// where the machine refuses it, and StoreFault where that store fails. At NoMemory all is as before, and the weather was not
    /// asked; no event that serves an accepted request meets it, since an accept reserves room for all that is still appended for
    /// the request. A reading is behind none before it by more than the skew, and far from the end of the numbers.
    pub fn make<W: Weather>(&mut self, weather: &mut W, event: &Event) -> Result<(), Stopped>
        requires { IsSteadyAt self.old.state.setup.skew self.old.state.seen (reading_of event.now) }
        ensures made { MakesStep (step_under (W.ahead weather.old) self.old.state event.now) self.old self.new result }
        ensures asked { Asks result (asks self.old.state event.now) (W.ahead weather.old) (W.ahead weather.new)
            (W.faults weather.old) (W.faults weather.new) }
        ensures room { LeavesRoom event.now self.old self.new result }
        ensures served { NeverLacksIf (is_served self.old.state event.now) result }
    {
        self.engine.make(weather, event)
    }

    /// The history so far.
    pub fn history(&self) -> &[Item]
        ensures value { result.now ≡ self.now.history }
        ensures isolated { Isolated self.now.history }
        ensures explained { Explained self.now.state.setup self.now.history }
        ensures serial { SerialIfStrict self.now.state.setup self.now.history }
    {
        self.engine.history()
    }

    /// For how many items more there is room that was reserved for requests.
    pub fn spare(&self) -> usize
        ensures { result ≡ self.now.spare }
    {
        self.engine.spare()
    }

    /// The greatest reading that was handed in, in ticks, at first 0.
    pub fn seen(&self) -> u64
        ensures { result ≡ self.now.state.seen }
    {
        self.engine.seen()
    }

    /// What the session is doing.
    pub fn doing(&self, session: SessionNo) -> Doing
        ensures { result ≡ read.doing_of self.now.state session }
    {
        self.engine.doing(session)
    }

    /// What the session has in flight: the node that holds its request, with the place where that stands, and whether it is a
    /// commit. Without a request it is none.
    pub fn in_flight(&self, session: SessionNo) -> (Option<(NodeNo, Place)>, bool)
        ensures { result ≡ (read.place_of self.now.state session, read.asks_commit self.now.state session) }
    {
        self.engine.in_flight(session)
    }

    /// Where the session's request stands, and at which node. None exactly where it has none in flight.
    pub fn place(&self, session: SessionNo) -> Option<(NodeNo, Place)>
        ensures { result ≡ read.place_of self.now.state session }
    {
        self.in_flight(session).0
    }

    /// Whether a commit of the session is in flight.
    pub fn asks_commit(&self, session: SessionNo) -> bool
        ensures { result ≡ read.asks_commit self.now.state session }
    {
        self.in_flight(session).1
    }

    /// The term of the node's oracle. None where it has none.
    pub fn term_of(&self, node: NodeNo) -> Option<Term>
        ensures { result ≡ read.term_of self.now.state node }
    {
        self.engine.term_of(node)
    }

    /// Whether a sweep is open.
    pub fn sweeping(&self) -> bool
        ensures { result ≡ read.sweeping self.now.state }
    {
        self.engine.sweeping()
    }
}
