ghost use Rattle.std.specs.Prelude.{◌≡◌, ◌+◌, ◌<◌, ◌^◌, IfErr, IfNone, MatchOption, MatchResult, vec_len};
ghost use Rattle.stage_queues.specs.declared.spot.Row.TheVariants.{Requests, Workers};
ghost use Rattle.stage_queues.specs.Spots.{whom, StandIn};
ghost use Rattle.stage_queues.specs.NodePasses.{batch_put, batch_taken, HasLeftBatches};
ghost use Rattle.stage_queues.specs.Passes.{at_node, let_go, got, SendsBatches, ReceivesBatches};
ghost use Rattle.stage_queues.specs.Plan.{node_ring};

use crate::pass::StagePass;
use crate::rings::{Heard, Owed, OwedToOne, Rungs};
use crate::spot::{Row, Whom};
use crate::waiting::{Crowd, Place};
use batch_rule::BatchRing;
use persist_batches::Numbered;
use std::marker::Model;
use std::sync::Wait;

/// A node's queue of batches: from its request stage to its persist workers, which wait here.
#[derive(Drop)]
pub struct BatchQueue {
    pub(crate) node: usize,
    pub(crate) ring: BatchRing,
    pub(crate) readers: Vec<Place>,
    pub(crate) crowd: Crowd,
}

impl Model for BatchQueue {
    ghost use Rattle.std.specs.Prelude.{◌≡◌, ◌+◌, vec_len};
    ghost use Rattle.stage_queues.specs.declared.spot.Row.TheVariants.{Requests, Workers};
    ghost use Rattle.stage_queues.specs.Plan.{NodeRing};
    ghost use Rattle.stage_queues.specs.Spots.{whom, StandIn};

    ghost Value = { NodeRing };

    ghost view = { λ q. record { node = q.node; ring = q.ring } };

    ghost invariant = { λ q. StandIn (Workers q.node) q.readers.items × (vec_len q.readers + 2 ≡ q.ring.room) × (q.crowd.whom ≡ whom (Requests q.node) 0 1) };
}

impl BatchQueue {
    pub(crate) fn new(node: usize, ring: BatchRing, readers: Vec<Place>) -> BatchQueue
        requires row { StandIn (Workers node) readers.items }
        requires count { vec_len readers + 2 ≡ ring.room }
        ensures { result ≡ node_ring node ring }
    {
        BatchQueue {
            node,
            ring,
            readers,
            crowd: Crowd::of(Whom {
                row: Row::Requests(node),
                from: 0,
                count: 1,
            }),
        }
    }

    /// Sends a batch, whose number is above all before it, and wakes a worker that waits for one. Err only where the queue was full
    /// at that step.
    pub fn send<R: Wait>(
        &self,
        rt: &R,
        pass: &mut StagePass,
        batch: Numbered,
    ) -> Result<(), Numbered>
        requires sends { SendsBatches self.now batch.number pass.old }
        requires held { 0 < pass.old.held }
        ensures put { MatchResult result (λ _. pass.new ≡ let_go pass.old self.now.node (batch_put batch (at_node pass.old self.now.node))) (λ back. (back ≡ batch) × (pass.new ≡ pass.old)) }
        ensures full { IfErr result (λ _. HasLeftBatches self.now.ring.room (at_node pass.old self.now.node)) }
    {
        let owed = pass.nodes[self.node].send_batch(rt, &self.ring, self.node, batch)?;
        pass.held -= 1;
        self.wake_reader(owed);
        Ok(())
    }

    /// Receives the batch at the front. None only where the queue was empty at that step.
    pub fn receive<R: Wait>(&self, rt: &R, pass: &mut StagePass) -> Option<Numbered>
        requires receives { ReceivesBatches self.now pass.old }
        requires held { pass.old.held < 2 ^ 32 }
        ensures taken { MatchOption result (pass.new ≡ pass.old) (λ batch. pass.new ≡ got pass.old self.now.node (batch_taken batch (at_node pass.old self.now.node))) }
        ensures empty { IfNone result (HasLeftBatches 0 (at_node pass.old self.now.node)) }
    {
        let batch = pass.nodes[self.node].take_batch(rt, &self.ring)?;
        pass.held += 1;
        self.rise(pass.worker);
        Some(batch)
    }

    /// Wakes every worker.
    pub(crate) fn wake_readers(&self) -> Rungs
        ensures row { (result.of.row ≡ Workers self.now.node) × (result.of.from ≡ 0) }
        ensures count { result.of.count + 2 ≡ self.now.ring.room }
    {
        let mut rungs = Rungs::none(Row::Workers(self.node), 0);
        for reader in &self.readers {
            rungs.add(reader.bell.ring());
        }
        rungs
    }

    /// There is room. Where the request stage has asked for it, it is to be woken.
    pub(crate) fn leave_room(&self) -> Result<Heard, Owed>
        ensures { MatchResult result (λ heard. heard.whom ≡ whom (Requests self.now.node) 0 1) (λ owed. owed.whom ≡ whom (Requests self.now.node) 0 1) }
    {
        self.crowd.leave()
    }

    /// The worker is going to wait for a batch. Whether it had told so already; otherwise it looks at the queue once more.
    pub(crate) fn rest(&self, worker: u64) -> bool {
        match self.readers.get(worker as usize) {
            Some(reader) => reader.rest(),
            None => true,
        }
    }

    // The worker has a batch, and is not to be woken for the next.
    fn rise(&self, worker: u64) {
        if let Some(reader) = self.readers.get(worker as usize) {
            let _waited = reader.rise();
        }
    }

    // One batch is for one worker. Those that are at work look at the queue before they wait.
    fn wake_reader(&self, owed: OwedToOne)
        requires { (owed.node ≡ self.now.node) × (owed.asked ≡ 0) }
    {
        let mut owed = owed;
        for reader in &self.readers {
            match owed.ask(reader) {
                Some(still) => owed = still,
                None => return,
            }
        }
        owed.nobody_waits(self.readers.len());
    }
}
