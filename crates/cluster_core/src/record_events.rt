// The events of a node and the master record.
ghost use Rattle.machine.specs.Machine.{asks};
ghost use Rattle.event_parts.specs.Made.{Asks};
ghost use Rattle.cluster_core.specs.ClusterModel.{MakesStep, step_under};
ghost use Rattle.cluster_core.specs.Served.{LeavesRoom};
ghost use Rattle.cluster_core.specs.Required.{CanMake};

use crate::ClusterState;
use crate::engine::seen_after;
use event_parts::Stopped;
use machine::Event;
use port_io::Weather;
use stamp_base::NodeNo;

impl ClusterState {
    /// The node takes the record.
    pub(crate) fn take<W: Weather>(
        &mut self,
        weather: &mut W,
        node: NodeNo,
        reading: u64,
    ) -> Result<(), Stopped>
        requires { CanMake self.old.state (Event.Take node reading) }
        ensures made { MakesStep (step_under (W.ahead weather.old) self.old.state (Event.Take node reading)) self.old self.new result }
        ensures asked { Asks result (asks self.old.state (Event.Take node reading)) (W.ahead weather.old) (W.ahead weather.new)
            (W.faults weather.old) (W.faults weather.new) }
        ensures room { LeavesRoom (Event.Take node reading) self.old self.new result }
    {
        if node.index() >= self.posts.len() {
            self.seen = self.seen.max(reading);
            return Ok(());
        }
        let post = &mut self.posts[node.index()];
        let made = node_events::take(
            weather,
            &mut self.book,
            self.alloc,
            &self.setup,
            post,
            &mut self.master,
            node,
            reading,
        );
        self.seen = seen_after(self.seen, reading, &made);
        made
    }

    /// The node renews its lease.
    pub(crate) fn renew<W: Weather>(
        &mut self,
        weather: &mut W,
        node: NodeNo,
        reading: u64,
    ) -> Result<(), Stopped>
        requires { CanMake self.old.state (Event.Renew node reading) }
        ensures made { MakesStep (step_under (W.ahead weather.old) self.old.state (Event.Renew node reading)) self.old self.new result }
        ensures asked { Asks result (asks self.old.state (Event.Renew node reading)) (W.ahead weather.old) (W.ahead weather.new)
            (W.faults weather.old) (W.faults weather.new) }
        ensures room { LeavesRoom (Event.Renew node reading) self.old self.new result }
    {
        if node.index() >= self.posts.len() {
            self.seen = self.seen.max(reading);
            return Ok(());
        }
        let post = &mut self.posts[node.index()];
        let made = node_events::renew(
            weather,
            &mut self.book,
            post,
            &mut self.master,
            node,
            reading,
        );
        self.seen = seen_after(self.seen, reading, &made);
        made
    }

    /// The node asks for a further range of stamps.
    pub(crate) fn extend<W: Weather>(
        &mut self,
        weather: &mut W,
        node: NodeNo,
    ) -> Result<(), Stopped>
        requires { CanMake self.old.state (Event.Extend node) }
        ensures made { MakesStep (step_under (W.ahead weather.old) self.old.state (Event.Extend node)) self.old self.new result }
        ensures asked { Asks result (asks self.old.state (Event.Extend node)) (W.ahead weather.old) (W.ahead weather.new)
            (W.faults weather.old) (W.faults weather.new) }
        ensures room { LeavesRoom (Event.Extend node) self.old self.new result }
    {
        if node.index() >= self.posts.len() {
            return Ok(());
        }
        let post = &mut self.posts[node.index()];
        node_events::extend(weather, &mut self.book, post, &mut self.master, node)
    }
}
