// The clock ticks, and actors note their part in the script.
ghost use Rattle.port_io.specs.declared.weather.Fate.TheVariants.{Works};
ghost use Rattle.machine.specs.Machine.{stepped};
ghost use Rattle.cluster_core.specs.ClusterModel.{MakesStep};
ghost use Rattle.cluster_core.specs.Served.{LeavesRoom};

use crate::ClusterState;
use event_parts::Stopped;
use history_book::{Actor, Note};
use machine::Event;

impl ClusterState {
    /// The base clock stands at `to`.
    pub(crate) fn tick(&mut self, to: u64) -> Result<(), Stopped>
        ensures made { MakesStep (stepped self.old.state (Event.Tick to) Works) self.old self.new result }
        ensures room { LeavesRoom (Event.Tick to) self.old self.new result }
    {
        node_events::tick(&mut self.book, to)
    }

    /// The actor notes its part in the script.
    pub(crate) fn note(&mut self, actor: Actor, note: Note) -> Result<(), Stopped>
        ensures made { MakesStep (stepped self.old.state (Event.Note actor note) Works) self.old self.new result }
        ensures room { LeavesRoom (Event.Note actor note) self.old self.new result }
    {
        node_events::note(&mut self.book, actor, note)
    }
}
