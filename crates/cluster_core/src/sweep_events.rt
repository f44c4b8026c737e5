// The events of the janitor.
ghost use Rattle.port_io.specs.declared.weather.Fate.TheVariants.{Works};
ghost use Rattle.machine.specs.Machine.{stepped, asks};
ghost use Rattle.event_parts.specs.Made.{Asks};
ghost use Rattle.cluster_core.specs.ClusterModel.{MakesStep, step_under};
ghost use Rattle.cluster_core.specs.Served.{LeavesRoom};
ghost use Rattle.cluster_core.specs.Required.{CanMake};

use crate::ClusterState;
use event_parts::Stopped;
use machine::Event;
use port_io::Weather;
use stamp_base::{NodeNo, TxnId};

impl ClusterState {
    /// The janitor begins to sweep a transaction, by the epoch of the node's instance.
    pub(crate) fn sweep_open(&mut self, node: NodeNo, txn: TxnId) -> Result<(), Stopped>
        ensures made { MakesStep (stepped self.old.state (Event.SweepOpen node txn) Works) self.old self.new result }
        ensures room { LeavesRoom (Event.SweepOpen node txn) self.old self.new result }
    {
        if node.index() >= self.posts.len() {
            return Ok(());
        }
        let post = &self.posts[node.index()];
        session_events::sweep_open(&mut self.book, &mut self.sweep, post, node, txn)
    }

    /// The janitor makes the next step of the sweep.
    pub(crate) fn sweep_step<W: Weather>(&mut self, weather: &mut W) -> Result<(), Stopped>
        requires { CanMake self.old.state Event.SweepStep }
        ensures made { MakesStep (step_under (W.ahead weather.old) self.old.state Event.SweepStep) self.old self.new result }
        ensures asked { Asks result (asks self.old.state Event.SweepStep) (W.ahead weather.old) (W.ahead weather.new)
            (W.faults weather.old) (W.faults weather.new) }
        ensures room { LeavesRoom Event.SweepStep self.old self.new result }
    {
        session_events::sweep_step(
            weather,
            &mut self.book,
            &mut self.sweep,
            &mut self.cells,
            &mut self.table,
        )
    }
}
