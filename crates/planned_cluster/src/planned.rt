ghost use Rattle.std.specs.Prelude.{◌≡◌, IfOk};
ghost use Rattle.stamp_base.specs.Setups.{numbers_of};
ghost use Rattle.port_io.specs.Planned.{OneEach};
ghost use Rattle.history_book.specs.declared.item.Actor.TheVariants.{Session};
ghost use Rattle.machine.specs.Machine.{IsSteadyAt, reading_of};
ghost use Rattle.command_semantics.specs.Views.{view_of};
ghost use Rattle.cluster_core.specs.Served.{LeavesRoom, NeverLacksIf, is_served};
ghost use Rattle.planned_cluster.specs.Fitting.{SessionIsThere};
ghost use Rattle.planned_cluster.specs.Standing.{OpensFor, PlaysOn, clock_made};

use crate::watched::WatchedCluster;
use cluster_core::Stopped;
use command_semantics::View;
use history_book::Actor;
use machine::{Doing, Event};
use port_io::{Fate, PlannedWeather, Weather};
use stamp_base::{NoMemory, SessionNo, Setup, Store};
use std::alloc::Global;

/// The cluster, the weather that is still ahead, and the base clock.
#[derive(Drop)]
pub struct PlannedCluster {
    /// The cluster, with who took the master record.
    pub cluster: WatchedCluster,
    /// The faults that are still ahead.
    pub weather: PlannedWeather,
    /// The base clock, in ticks.
    pub clock: u64,
}

impl PlannedCluster {
    /// Before the first event, for any script with this setup and these faults.
    pub fn open(
        alloc: Global,
        setup: Setup,
        faults: &[(Store, u64, Fate)],
    ) -> Result<PlannedCluster, NoMemory>
        requires { OneEach faults.now }
        ensures opens { IfOk result (λ made. OpensFor (numbers_of setup) faults.now made.cluster made.clock
            (⟦<PlannedWeather as Weather>⟧.ahead made.weather)) }
        ensures spare { IfOk result (λ made. made.cluster.spare ≡ 0) }
    {
        Ok(PlannedCluster {
            cluster: WatchedCluster::open(alloc, setup)?,
            weather: PlannedWeather::new(copied(alloc, faults)?),
            clock: 0,
        })
    }

    /// Makes the event, under the fate that is planned for the next call on the store that it asks. Where memory is refused all
    /// is as before; it is never refused to an event that serves a request which was accepted.
    pub fn make(&mut self, event: &Event) -> Result<(), Stopped>
        requires { IsSteadyAt self.old.cluster.state.setup.skew self.old.cluster.state.seen (reading_of event.now) }
        ensures played { PlaysOn event.now result
            self.old.cluster self.old.clock (⟦<PlannedWeather as Weather>⟧.ahead self.old.weather)
            self.new.cluster self.new.clock (⟦<PlannedWeather as Weather>⟧.ahead self.new.weather) }
        ensures room { LeavesRoom event.now self.old.cluster self.new.cluster result }
        ensures served { NeverLacksIf (is_served self.old.cluster.state event.now) result }
    {
        let answer = self.cluster.make(&mut self.weather, event);
        self.clock = clock_made(self.clock, event, &answer);
        answer
    }

    /// What a run of the actor looks at.
    pub fn view(&self, actor: Actor) -> View
        ensures { result ≡ view_of self.now.cluster.state actor }
    {
        match actor {
            Actor::Session(session) => self.view_of_session(session),
            Actor::Clock | Actor::Node(_) | Actor::Janitor => {
                View {
                    doing: Doing::Gone,
                    request: None,
                    commit: false,
                    sweeping: self.cluster.sweeping(),
                }
            }
        }
    }

    fn view_of_session(&self, session: SessionNo) -> View
        ensures { result ≡ view_of self.now.cluster.state (Session session) }
    {
        let (request, commit) = self.cluster.in_flight(session);
        View {
            doing: self.cluster.doing(session),
            request,
            commit,
            sweeping: self.cluster.sweeping(),
        }
    }
}

/// A tick that was made sets the base clock.
fn clock_made(clock: u64, event: &Event, answer: &Result<(), Stopped>) -> u64
    ensures { result ≡ clock_made clock event.now answer.now }
{
    match (event, answer) {
        (_, Err(Stopped::NoMemory)) => clock,
        (Event::Tick { to }, _) => *to,
        _ => clock,
    }
}

fn copied(alloc: Global, faults: &[(Store, u64, Fate)]) -> Result<Vec<(Store, u64, Fate)>, NoMemory>
    ensures { IfOk result (λ copy. copy.items ≡ faults.now) }
{
    let mut copy = Vec::new(alloc);
    copy.extend_from_slice(faults)?;
    Ok(copy)
}

/// A session that a line names is one of those that there are, as its type says.
pub fn see_session(actor: &Actor)
    ensures { SessionIsThere actor.now }
{
    if let Actor::Session(session) = actor {
        let _ = session.index();
    }
}
