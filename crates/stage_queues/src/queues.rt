ghost use Rattle.std.specs.Prelude.{◌≡◌, ℕ, ◌+◌, ◌-◌, ◌^◌, ◌<◌, [], length, Some, IfSome, MatchOption, slice_get};
ghost use Rattle.stage_queues.specs.NodePasses.{joined_node, TellsNode};
ghost use Rattle.stage_queues.specs.Passes.{AreNodePassesOf, pass_at};
ghost use Rattle.stage_queues.specs.Places.{place_of};
ghost use Rattle.stage_queues.specs.Plan.{node_ring};
ghost use Rattle.stage_queues.specs.Spots.{spot, whom, all_sessions, senders_to};
ghost use Rattle.stage_queues.specs.declared.spot.Row.TheVariants.{Actors, Requests};
ghost use Rattle.history_book.specs.declared.item.Actor.TheVariants.{Session};
ghost use Rattle.stage_queues.specs.declared.waiting.TheConstants.{ACTORS};

use crate::batch_queue::BatchQueue;
use crate::bell::{Bell, Rung, Watchers};
use crate::gathering::AtWork;
use crate::giving_way::{GivesWay, KeepsProcessor};
use crate::node::NodeQueues;
use crate::node_pass::NodePass;
use crate::pass::StagePass;
use crate::request_queue::RequestQueue;
use crate::rings::{Heard, Rungs};
use crate::settled_queue::SettledQueue;
use crate::spot::Row;
use crate::waiting::{Crowd, FIRST_SESSION, Place, Waiter, actor_place};
use batch_pool::Batch;
use history_book::Actor;
use stamp_base::{NodeNo, SessionNo, Stage};
use std::marker::Model;
use std::sync::Wait;
use std::sync::atomic::{AtomicBool, Ordering};
use std::time::Duration;

/// The queues and pools of all nodes, and where their threads wait.
#[derive(Drop)]
pub struct Queues {
    pub(crate) nodes: Vec<NodeQueues>,
    pub(crate) buffers: usize,
    pub(crate) direct: bool,
    pub(crate) actors: Vec<Place>,
    pub(crate) at_work: AtWork,
    pub(crate) closed: AtomicBool,
    pub(crate) watchers: Watchers,
}

impl Model for Queues {
    ghost use Rattle.std.specs.Prelude.{◌≡◌, vec_len};
    ghost use Rattle.stage_queues.specs.declared.spot.Row.TheVariants.{Actors};
    ghost use Rattle.stage_queues.specs.declared.waiting.TheConstants.{ACTORS};
    ghost use Rattle.stage_queues.specs.Plan.{Plan, AreNumbered};
    ghost use Rattle.stage_queues.specs.Spots.{StandIn};

    ghost Value = { Plan };

    ghost view = { λ q. record { nodes = q.nodes.items; buffers = q.buffers; direct = q.direct } };

    ghost invariant = { λ q. AreNumbered q.nodes.items × StandIn Actors q.actors.items × (vec_len q.actors ≡ ACTORS) };
}

impl Queues {
    /// How many buffers the pool of each node has.
    pub fn buffers(&self) -> usize
        ensures { result ≡ self.now.buffers }
    {
        self.buffers
    }

    /// Whether sessions place their commits, so that no persist stage has anything to put.
    pub fn direct(&self) -> bool
        ensures { result ≡ self.now.direct }
    {
        self.direct
    }

    /// The queue of requests of a node.
    pub fn requests(&self, node: NodeNo) -> &RequestQueue
        requires { node < length self.now.nodes }
        ensures { IfSome (slice_get self.now.nodes node) (λ rings. result.now ≡ node_ring node rings.requests) }
    {
        &self.nodes[node.index()].requests
    }

    /// The queue of batches of a node.
    pub fn batches(&self, node: NodeNo) -> &BatchQueue
        requires { node < length self.now.nodes }
        ensures { IfSome (slice_get self.now.nodes node) (λ rings. result.now ≡ node_ring node rings.batches) }
    {
        &self.nodes[node.index()].batches
    }

    /// The queue of settled batches of a node.
    pub fn settled(&self, node: NodeNo) -> &SettledQueue
        requires { node < length self.now.nodes }
        ensures { IfSome (slice_get self.now.nodes node) (λ rings. result.now ≡ node_ring node rings.settled) }
    {
        &self.nodes[node.index()].settled
    }

    /// An empty batch of the node's pool. None only where every buffer was out just then.
    pub fn take_batch<R: Wait>(&self, rt: &R, node: NodeNo, pass: &mut StagePass) -> Option<Batch>
        requires node { node < length self.now.nodes }
        requires held { pass.old.held < 2 ^ 32 }
        ensures held { MatchOption result (pass.new ≡ pass.old) (λ _. pass.new ≡ record pass.old { held = pass.old.held + 1 }) }
        ensures empty { IfSome result (λ batch. (batch.entries ≡ []) × (0 < batch.room)) }
    {
        let batch = self.node(node).buffers.lock(rt).pool.take()?;
        pass.held += 1;
        Some(batch)
    }

    /// Gives a batch back to the node's pool, and wakes the node's request stage if it has asked for one.
    pub fn give_batch<R: Wait>(&self, rt: &R, node: NodeNo, pass: &mut StagePass, batch: Batch)
        requires node { node < length self.now.nodes }
        requires held { 0 < pass.old.held }
        ensures { pass.new ≡ record pass.old { held = pass.old.held - 1 } }
    {
        let queues = self.node(node);
        let home = queues.buffers.lock(rt).give(batch);
        pass.held -= 1;
        let _heard = queues.tell_home(home);
    }

    /// For a request stage that found the pool out: it is woken once a batch comes back. Who asks is to try once more before it
    /// waits.
    pub fn ask_for_batch(&self, node: NodeNo) {
        if let Some(queues) = self.nodes.get(node.index()) {
            queues.requests.lacks_batch.ask();
        }
    }

    /// Parks the waiter until it is woken, once it has looked for that in vain. It may be woken for no reason, and once the queues
    /// are closed it does not wait.
    pub fn wait<R: Wait>(&self, rt: &R, waiter: Waiter) {
        self.wait_giving_way(rt, &KeepsProcessor, waiter);
    }

    /// As `wait`, where the waiter gives way so between its looks.
    pub fn wait_giving_way<R: Wait, W: GivesWay>(&self, rt: &R, way: &W, waiter: Waiter) {
        match waiter {
            Waiter::Actor(actor) => {
                if let Some(place) = self.actors.get(actor_place(actor)) {
                    self.rest(place);
                    self.park(rt, way, &place.bell);
                    self.rise(place);
                }
            }
            Waiter::Stage(node, stage, number) => {
                if let Some(bell) = self.stage_bell(node, stage, number) {
                    self.park(rt, way, bell);
                }
            }
        }
    }

    fn park<R: Wait, W: GivesWay>(&self, rt: &R, way: &W, bell: &Bell) {
        if !self.closed() {
            self.watchers.watch(bell, way);
            bell.wait(rt);
        }
    }

    /// Parks the actor until it is woken, as `wait_giving_way` does, but no longer than this.
    pub fn wait_a_while<R: Wait, W: GivesWay>(
        &self,
        rt: &R,
        way: &W,
        actor: Actor,
        most: Duration,
    ) {
        if let Some(place) = self.actors.get(actor_place(actor)) {
            self.rest(place);
            if !self.closed() {
                self.watchers.watch(&place.bell, way);
                place.bell.wait_a_while(rt, most);
            }
            self.rise(place);
        }
    }

    /// Wakes the waiter. Where it does not wait, its next wait ends at once.
    pub fn wake(&self, waiter: Waiter) {
        match waiter {
            Waiter::Actor(actor) => {
                let _rung = self.wake_actor(actor);
            }
            Waiter::Stage(node, stage, number) => {
                if let Some(bell) = self.stage_bell(node, stage, number) {
                    let _rung = bell.ring();
                }
            }
        }
    }

    /// Wakes the actor, as `wake` does.
    pub fn wake_actor(&self, actor: Actor) -> Rung
        ensures { result.spot ≡ spot Actors (place_of actor) }
    {
        self.wake_at(actor_place(actor))
    }

    fn wake_at(&self, number: usize) -> Rung
        requires { number < ACTORS }
        ensures { result.spot ≡ spot Actors number }
    {
        let place = &self.actors[number];
        self.rise(place);
        place.bell.ring()
    }

    // An actor that does not work sends no ticket. Where nobody is left who could, the request stages take what there is.
    fn rest(&self, place: &Place) {
        place.rest();
        self.leave();
    }

    // Counted by the actor's thread or by who wakes it, whichever comes first.
    fn rise(&self, place: &Place) {
        if place.rise() {
            self.at_work.enter();
        }
    }

    /// An actor's thread waits, or has ended.
    pub fn leave(&self) {
        if self.at_work.leave() {
            self.press();
        }
    }

    /// The request stages take the tickets that are there, however few they are. Whoever works on for long without waiting calls it
    /// now and then, so that no ticket waits for that.
    pub fn press(&self) {
        for node in &self.nodes {
            if node.requests.gathered.is_some() {
                let _rungs = node.requests.press();
            }
        }
    }

    /// A ticket was sent to the node's request stage, which takes it at once where enough are there or nobody else is at work.
    pub fn tell_ticket(&self, node: NodeNo) -> Heard
        requires { node < length self.now.nodes }
        ensures { result.whom ≡ whom (Requests node) 0 1 }
    {
        self.node(node).tell_ticket(&self.at_work)
    }

    /// Whether the node's request stage is to take the tickets that are there.
    pub fn is_due(&self, node: NodeNo) -> bool {
        match self.nodes.get(node.index()) {
            Some(queues) => self.is_due_at(&queues.requests),
            None => false,
        }
    }

    fn is_due_at(&self, requests: &RequestQueue) -> bool {
        let gathered = &requests.gathered;
        gathered.is_some()
            && (gathered.is_pressed() || gathered.is_enough() || self.at_work.is_none())
    }

    /// Whether the session's line waits for the stamp of what it asks next, and not for the answer.
    pub fn heed_stamp(&self, session: SessionNo, awaits: bool) {
        if let Some(place) = self.actors.get(actor_place(Actor::Session(session))) {
            place.heed_stamp(awaits);
        }
    }

    /// The session's request has its stamp: wakes the session if its line waits for that.
    pub fn tell_stamp(&self, session: SessionNo) -> Heard
        ensures { result.whom ≡ whom Actors (place_of (Session session)) 1 }
    {
        let number = actor_place(Actor::Session(session));
        match self.actors[number].leave_stamp() {
            Ok(heard) => heard,
            Err(owed) => owed.pay(Rungs::one(self.wake_at(number))),
        }
    }

    /// For a persist worker that found no batch: it is going to wait for one. Whether it had told so already; otherwise it is to
    /// look once more before it waits.
    pub fn rest_for_batch(&self, node: NodeNo, worker: u64) -> bool {
        match self.nodes.get(node.index()) {
            Some(queues) => queues.batches.rest(worker),
            None => true,
        }
    }

    /// Wakes every session.
    pub fn wake_sessions(&self) -> Rungs
        ensures { result.of ≡ all_sessions }
    {
        let mut rungs = Rungs::none(Row::Actors, FIRST_SESSION);
        for session in 0..SessionNo::COUNT {
            rungs.add(self.wake_at(FIRST_SESSION + session));
        }
        rungs
    }

    /// Wakes the threads of a node's stage.
    pub fn wake_stage(&self, node: NodeNo, stage: Stage) {
        if let Some(queues) = self.nodes.get(node.index()) {
            let _rungs = match stage {
                Stage::Request => queues.requests.wake_reader(),
                Stage::Persist => queues.batches.wake_readers(),
                Stage::Reply => queues.settled.wake_reader(),
            };
        }
    }

    /// For a sender that found the queue from which the node's stage receives full: the senders are woken once there is room. Who
    /// asks is to try once more before it waits, since the room may have come before.
    pub fn ask_for_room(&self, node: NodeNo, stage: Stage) {
        if let Some(crowd) = self.crowd(node, stage) {
            crowd.ask();
        }
    }

    /// There is room in the queue from which the node's stage receives: wakes the senders, if one has asked for it.
    pub fn tell_room(&self, node: NodeNo, stage: Stage) -> Heard
        requires { node < length self.now.nodes }
        ensures { result.whom.row ≡ senders_to node stage }
    {
        let queues = self.node(node);
        match stage {
            Stage::Request => self.tell_sessions(&queues.requests),
            Stage::Persist => queues.tell_request_stage(),
            Stage::Reply => queues.tell_workers(),
        }
    }

    fn tell_sessions(&self, requests: &RequestQueue) -> Heard
        ensures { result.whom ≡ all_sessions }
    {
        match requests.leave_room() {
            Ok(heard) => heard,
            Err(owed) => owed.pay(self.wake_sessions()),
        }
    }

    fn crowd(&self, node: NodeNo, stage: Stage) -> Option<&Crowd> {
        let queues = self.nodes.get(node.index())?;
        Some(match stage {
            Stage::Request => &queues.requests.crowd,
            Stage::Persist => &queues.batches.crowd,
            Stage::Reply => &queues.settled.crowd,
        })
    }

    /// Closes the queues, and wakes every waiter.
    pub fn close(&self) {
        self.closed.store(true, Ordering::SeqCst);
        for actor in &self.actors {
            let _rung = actor.bell.ring();
        }
        for node in &self.nodes {
            node.wake_stages();
        }
    }

    /// Whether the queues are closed.
    pub fn closed(&self) -> bool {
        self.closed.load(Ordering::SeqCst)
    }

    fn node(&self, node: NodeNo) -> &NodeQueues
        requires { node < length self.now.nodes }
        ensures there { slice_get self.now.nodes node ≡ Some result.now }
        ensures number { result.now.node ≡ node }
    {
        &self.nodes[node.index()]
    }

    fn stage_bell(&self, node: NodeNo, stage: Stage, number: u64) -> Option<&Bell> {
        let queues = self.nodes.get(node.index())?;
        match stage {
            Stage::Request => Some(&queues.requests.reader),
            Stage::Persist => Some(&queues.batches.readers.get(number as usize)?.bell),
            Stage::Reply => Some(&queues.settled.reader),
        }
    }

    /// Joins the passes that two threads have, node by node, into `mine`.
    pub(crate) fn join_nodes(&self, mine: &mut [NodePass], theirs: &mut [NodePass])
        requires mine { AreNodePassesOf self.now.nodes mine.old }
        requires theirs { AreNodePassesOf self.now.nodes theirs.old }
        ensures length { length mine.new ≡ length mine.old }
        ensures joined { (node : ℕ) → node < length mine.old → pass_at mine.new node ≡ joined_node (pass_at mine.old node) (pass_at theirs.old node) }
        ensures tells { (node : ℕ) → node < length mine.old → TellsNode (pass_at mine.new node) }
    {
        for i in 0..self.nodes.len() {
            let own = mine[i].take();
            let other = theirs[i].take();
            mine[i] = self.nodes[i].join(own, other);
        }
    }
}
