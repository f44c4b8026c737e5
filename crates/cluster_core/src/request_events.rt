// The events of a session's request and the node that serves it.
ghost use Rattle.port_io.specs.declared.weather.Fate.TheVariants.{Works};
ghost use Rattle.machine.specs.Machine.{stepped, asks};
ghost use Rattle.event_parts.specs.Made.{Asks};
ghost use Rattle.cluster_core.specs.ClusterModel.{MakesStep, step_under};
ghost use Rattle.cluster_core.specs.Served.{HasRoomFor, LeavesRoom, NeverLacksIf, is_served};
ghost use Rattle.cluster_core.specs.Required.{CanMake};

use crate::ClusterState;
use crate::engine::seen_after;
use event_parts::Stopped;
use machine::Event;
use port_io::Weather;
use stamp_base::{NodeNo, SessionNo};

impl ClusterState {
    /// The node's instance ends.
    pub(crate) fn crash(&mut self, node: NodeNo) -> Result<(), Stopped>
        requires { CanMake self.old.state (Event.Crash node) }
        ensures made { MakesStep (stepped self.old.state (Event.Crash node) Works) self.old self.new result }
        ensures room { LeavesRoom (Event.Crash node) self.old self.new result }
    {
        if node.index() >= self.posts.len() {
            return Ok(());
        }
        let post = &mut self.posts[node.index()];
        node_events::crash(&mut self.book, post, &mut self.clients, node)
    }

    /// The session asks the node for a start.
    pub(crate) fn ask_begin(&mut self, session: SessionNo, node: NodeNo) -> Result<(), Stopped>
        requires { CanMake self.old.state (Event.AskBegin session node) }
        ensures made { MakesStep (stepped self.old.state (Event.AskBegin session node) Works) self.old self.new result }
        ensures room { LeavesRoom (Event.AskBegin session node) self.old self.new result }
    {
        if node.index() >= self.posts.len() {
            return Ok(());
        }
        let post = &mut self.posts[node.index()];
        let client = &mut self.clients[session.index()];
        session_events::ask_begin(&mut self.book, client, post, session, node)
    }

    /// The session asks the node to commit what it wrote.
    pub(crate) fn ask_commit(&mut self, session: SessionNo, node: NodeNo) -> Result<(), Stopped>
        requires { CanMake self.old.state (Event.AskCommit session node) }
        ensures made { MakesStep (stepped self.old.state (Event.AskCommit session node) Works) self.old self.new result }
        ensures room { LeavesRoom (Event.AskCommit session node) self.old self.new result }
    {
        if node.index() >= self.posts.len() {
            return Ok(());
        }
        let post = &mut self.posts[node.index()];
        let client = &mut self.clients[session.index()];
        session_events::ask_commit(&mut self.book, client, post, session, node)
    }

    /// The node accepts the session's request.
    pub(crate) fn accept(
        &mut self,
        node: NodeNo,
        session: SessionNo,
        reading: u64,
    ) -> Result<(), Stopped>
        requires { CanMake self.old.state (Event.Accept node session reading) }
        ensures made { MakesStep (stepped self.old.state (Event.Accept node session reading) Works) self.old self.new result }
        ensures room { LeavesRoom (Event.Accept node session reading) self.old self.new result }
    {
        if node.index() >= self.posts.len() {
            self.seen = self.seen.max(reading);
            return Ok(());
        }
        let post = &mut self.posts[node.index()];
        let client = &mut self.clients[session.index()];
        let made = node_events::accept(
            &mut self.book,
            post,
            &mut self.table,
            client,
            node,
            session,
            reading,
        );
        self.seen = seen_after(self.seen, reading, &made);
        made
    }

    /// The node draws the stamp of the session's request.
    pub(crate) fn decide(&mut self, node: NodeNo, session: SessionNo) -> Result<(), Stopped>
        requires may { CanMake self.old.state (Event.Decide node session) }
        requires room { HasRoomFor self.old (Event.Decide node session) }
        ensures made { MakesStep (stepped self.old.state (Event.Decide node session) Works) self.old self.new result }
        ensures room { LeavesRoom (Event.Decide node session) self.old self.new result }
        ensures served { NeverLacksIf (is_served self.old.state (Event.Decide node session)) result }
    {
        if node.index() >= self.posts.len() {
            return Ok(());
        }
        let post = &mut self.posts[node.index()];
        let client = &mut self.clients[session.index()];
        node_events::decide(&mut self.book, post, client, node, session)
    }

    /// The node places the record of the session's commit.
    pub(crate) fn put<W: Weather>(
        &mut self,
        weather: &mut W,
        node: NodeNo,
        session: SessionNo,
    ) -> Result<(), Stopped>
        requires { HasRoomFor self.old (Event.Put node session) }
        ensures made { MakesStep (step_under (W.ahead weather.old) self.old.state (Event.Put node session)) self.old self.new result }
        ensures asked { Asks result (asks self.old.state (Event.Put node session)) (W.ahead weather.old) (W.ahead weather.new)
            (W.faults weather.old) (W.faults weather.new) }
        ensures room { LeavesRoom (Event.Put node session) self.old self.new result }
        ensures served { NeverLacksIf (is_served self.old.state (Event.Put node session)) result }
    {
        if node.index() >= self.posts.len() {
            return Ok(());
        }
        let post = &mut self.posts[node.index()];
        node_events::put(
            weather,
            &mut self.book,
            post,
            &mut self.table,
            node,
            session,
        )
    }

    /// The node answers the session's request.
    pub(crate) fn answer(&mut self, node: NodeNo, session: SessionNo) -> Result<(), Stopped>
        requires may { CanMake self.old.state (Event.Answer node session) }
        requires room { HasRoomFor self.old (Event.Answer node session) }
        ensures made { MakesStep (stepped self.old.state (Event.Answer node session) Works) self.old self.new result }
        ensures room { LeavesRoom (Event.Answer node session) self.old self.new result }
        ensures served { NeverLacksIf (is_served self.old.state (Event.Answer node session)) result }
    {
        if node.index() >= self.posts.len() {
            return Ok(());
        }
        let post = &mut self.posts[node.index()];
        let client = &mut self.clients[session.index()];
        node_events::answer(&mut self.book, post, client, node, session)
    }
}
