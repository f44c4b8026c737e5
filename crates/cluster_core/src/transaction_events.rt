// The events of a session alone, and with the cells and the commit table.
ghost use Rattle.port_io.specs.declared.weather.Fate.TheVariants.{Works};
ghost use Rattle.machine.specs.Machine.{stepped, asks};
ghost use Rattle.event_parts.specs.Made.{Asks};
ghost use Rattle.cluster_core.specs.ClusterModel.{MakesStep, step_under};
ghost use Rattle.cluster_core.specs.Served.{LeavesRoom};
ghost use Rattle.cluster_core.specs.Required.{CanMake};

use crate::ClusterState;
use event_parts::Stopped;
use machine::Event;
use port_io::Weather;
use stamp_base::{KeyNo, SessionNo, Value};

impl ClusterState {
    /// The session writes a value at a key.
    pub(crate) fn write<W: Weather>(
        &mut self,
        weather: &mut W,
        session: SessionNo,
        key: KeyNo,
        value: Value,
    ) -> Result<(), Stopped>
        requires { CanMake self.old.state (Event.Write session key value) }
        ensures made { MakesStep (step_under (W.ahead weather.old) self.old.state (Event.Write session key value)) self.old self.new result }
        ensures asked { Asks result (asks self.old.state (Event.Write session key value)) (W.ahead weather.old) (W.ahead weather.new)
            (W.faults weather.old) (W.faults weather.new) }
        ensures room { LeavesRoom (Event.Write session key value) self.old self.new result }
    {
        let client = &mut self.clients[session.index()];
        session_events::write(
            weather,
            &mut self.book,
            client,
            &mut self.cells,
            session,
            key,
            value,
        )
    }

    /// The session begins a read of a key.
    pub(crate) fn fetch<W: Weather>(
        &mut self,
        weather: &mut W,
        session: SessionNo,
        key: KeyNo,
    ) -> Result<(), Stopped>
        ensures made { MakesStep (step_under (W.ahead weather.old) self.old.state (Event.Fetch session key)) self.old self.new result }
        ensures asked { Asks result (asks self.old.state (Event.Fetch session key)) (W.ahead weather.old) (W.ahead weather.new)
            (W.faults weather.old) (W.faults weather.new) }
        ensures room { LeavesRoom (Event.Fetch session key) self.old self.new result }
    {
        let client = &mut self.clients[session.index()];
        session_events::fetch(
            weather,
            &mut self.book,
            client,
            &self.cells,
            &self.setup,
            session,
            key,
        )
    }

    /// The session makes the next step of what it has under way.
    pub(crate) fn step<W: Weather>(
        &mut self,
        weather: &mut W,
        session: SessionNo,
    ) -> Result<(), Stopped>
        requires { CanMake self.old.state (Event.Step session) }
        ensures made { MakesStep (step_under (W.ahead weather.old) self.old.state (Event.Step session)) self.old self.new result }
        ensures asked { Asks result (asks self.old.state (Event.Step session)) (W.ahead weather.old) (W.ahead weather.new)
            (W.faults weather.old) (W.faults weather.new) }
        ensures room { LeavesRoom (Event.Step session) self.old self.new result }
    {
        let client = &mut self.clients[session.index()];
        session_events::step(
            weather,
            &mut self.book,
            client,
            &mut self.cells,
            &mut self.table,
            session,
        )
    }

    /// The session sets the shadow that its last read offered.
    pub(crate) fn heal<W: Weather>(
        &mut self,
        weather: &mut W,
        session: SessionNo,
    ) -> Result<(), Stopped>
        requires { CanMake self.old.state (Event.Heal session) }
        ensures made { MakesStep (step_under (W.ahead weather.old) self.old.state (Event.Heal session)) self.old self.new result }
        ensures asked { Asks result (asks self.old.state (Event.Heal session)) (W.ahead weather.old) (W.ahead weather.new)
            (W.faults weather.old) (W.faults weather.new) }
        ensures room { LeavesRoom (Event.Heal session) self.old self.new result }
    {
        let client = &mut self.clients[session.index()];
        session_events::heal(weather, &mut self.book, client, &mut self.cells, session)
    }

    /// The session ends its transaction without a commit.
    pub(crate) fn abort(&mut self, session: SessionNo) -> Result<(), Stopped>
        ensures made { MakesStep (stepped self.old.state (Event.Abort session) Works) self.old self.new result }
        ensures room { LeavesRoom (Event.Abort session) self.old self.new result }
    {
        let client = &mut self.clients[session.index()];
        session_events::abort(&mut self.book, client, session)
    }

    /// The session is gone for good.
    pub(crate) fn vanish(&mut self, session: SessionNo) -> Result<(), Stopped>
        ensures made { MakesStep (stepped self.old.state (Event.Vanish session) Works) self.old self.new result }
        ensures room { LeavesRoom (Event.Vanish session) self.old self.new result }
    {
        let client = &mut self.clients[session.index()];
        session_events::vanish(&mut self.book, client, session)
    }
}
