// The store that an event asks, and the room that it needs, told and made before the event.
ghost use Rattle.std.specs.Prelude.{◌≡◌, OnOk, slice_get};
ghost use Rattle.machine.specs.Machine.{asks, asks_at_post};
ghost use Rattle.machine.specs.Events.Take.{take_asks};
ghost use Rattle.machine.specs.Events.Renew.{renew_asks};
ghost use Rattle.machine.specs.Events.Put.{put_asks, to_place};
ghost use Rattle.event_parts.specs.Served.{HasPlaceFor};
ghost use Rattle.cluster_core.specs.Served.{HasRoomFor, held_in};

use crate::ClusterState;
use machine::Event;
use stamp_base::{NoMemory, NodeNo, SessionNo, Store};

impl ClusterState {
    /// The store that the event asks, if it asks any.
    pub fn store_of(&self, event: &Event) -> Option<Store>
        ensures { result ≡ asks self.now.state event.now }
    {
        match event {
            Event::Take { node, .. } => self.take_store(*node),
            Event::Renew { node, .. } | Event::Extend { node } => self.record_store(*node),
            Event::Put { node, session } => self.put_store(*node, *session),
            Event::Write { session, key, .. } => {
                session_events::write_store(&self.clients[session.index()], *key)
            }
            Event::Fetch { session, key } => {
                session_events::fetch_store(&self.clients[session.index()], &self.setup, *key)
            }
            Event::Step { session } => session_events::next_store(&self.clients[session.index()]),
            Event::Heal { session } => session_events::heal_store(&self.clients[session.index()]),
            Event::SweepStep => session_events::sweep_store(&self.sweep),
            _ => None,
        }
    }

    /// Makes the room that an event needs which serves a request, as an accept reserves it otherwise. State and history stay.
    /// NoMemory where memory is refused.
    pub fn make_ready(&mut self, event: &Event) -> Result<(), NoMemory>
        ensures ready { OnOk result (HasRoomFor self.new event.now) }
        ensures state { self.new.state ≡ self.old.state }
        ensures history { self.new.history ≡ self.old.history }
    {
        self.book.reserve(2)?;
        match event {
            Event::Put { node, session } => self.reserve_place(*node, *session),
            _ => Ok(()),
        }
    }

    /// A place in the commit table for the commit that the node is to place, if there is one.
    fn reserve_place(&mut self, node: NodeNo, session: SessionNo) -> Result<(), NoMemory>
        ensures place { OnOk result (HasPlaceFor (to_place (held_in self.old.state node session)) self.new.places) }
        ensures state { self.new.state ≡ self.old.state }
        ensures history { self.new.history ≡ self.old.history }
        ensures spare { self.new.spare ≡ self.old.spare }
    {
        if node.index() >= self.posts.len() {
            return Ok(());
        }
        match node_events::commit_to_place(&self.posts[node.index()], session) {
            Some((start, _)) => self.table.reserve(start),
            None => Ok(()),
        }
    }

    fn take_store(&self, node: NodeNo) -> Option<Store>
        ensures { result ≡ asks_at_post (slice_get self.now.state.nodes node) take_asks }
    {
        if node.index() >= self.posts.len() {
            return None;
        }
        node_events::take_store(&self.posts[node.index()])
    }

    fn record_store(&self, node: NodeNo) -> Option<Store>
        ensures { result ≡ asks_at_post (slice_get self.now.state.nodes node) renew_asks }
    {
        if node.index() >= self.posts.len() {
            return None;
        }
        node_events::record_store(&self.posts[node.index()])
    }

    fn put_store(&self, node: NodeNo, session: SessionNo) -> Option<Store>
        ensures { result ≡ asks_at_post (slice_get self.now.state.nodes node) (put_asks session) }
    {
        if node.index() >= self.posts.len() {
            return None;
        }
        node_events::put_store(&self.posts[node.index()], session)
    }
}
