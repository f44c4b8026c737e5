ghost use Rattle.std.specs.Prelude.{◌≡◌, ◌+◌, ◌<◌, ◌^◌, IfErr, IfNone, MatchOption, MatchResult};
ghost use Rattle.stage_queues.specs.declared.spot.Row.TheVariants.{Replies, Workers};
ghost use Rattle.stage_queues.specs.Spots.{whom};
ghost use Rattle.stage_queues.specs.NodePasses.{settled_put, settled_taken, HasLeftSettled};
ghost use Rattle.stage_queues.specs.Passes.{at_node, let_go, got, UsesSettled};
ghost use Rattle.stage_queues.specs.Plan.{node_ring};

use crate::bell::Bell;
use crate::pass::StagePass;
use crate::rings::{Heard, Owed, Rungs};
use crate::spot::{Row, Spot, Whom};
use crate::waiting::Crowd;
use persist_batches::Numbered;
use settled_rule::SettledRing;
use std::marker::Model;
use std::sync::Wait;

/// A node's queue of settled batches: from its persist workers to its reply stage, which waits here.
#[derive(Drop)]
pub struct SettledQueue {
    pub(crate) node: usize,
    pub(crate) ring: SettledRing,
    pub(crate) reader: Bell,
    pub(crate) crowd: Crowd,
}

impl Model for SettledQueue {
    ghost use Rattle.std.specs.Prelude.{◌≡◌, ◌+◌};
    ghost use Rattle.stage_queues.specs.declared.spot.Row.TheVariants.{Replies, Workers};
    ghost use Rattle.stage_queues.specs.Plan.{NodeRing};
    ghost use Rattle.stage_queues.specs.Spots.{spot, whom};

    ghost Value = { NodeRing };

    ghost view = { λ q. record { node = q.node; ring = q.ring } };

    ghost invariant = { λ q. (q.reader.spot ≡ spot (Replies q.node) 0) × (q.crowd.whom ≡ whom (Workers q.node) 0 q.crowd.whom.count) × (q.crowd.whom.count + 2 ≡ q.ring.room) };
}

impl SettledQueue {
    pub(crate) fn new(node: usize, ring: SettledRing, workers: usize) -> SettledQueue
        requires { workers + 2 ≡ ring.room }
        ensures { result ≡ node_ring node ring }
    {
        SettledQueue {
            node,
            ring,
            reader: Bell::at(Spot {
                row: Row::Replies(node),
                number: 0,
            }),
            crowd: Crowd::of(Whom {
                row: Row::Workers(node),
                from: 0,
                count: workers,
            }),
        }
    }

    /// Sends a batch and wakes the reply stage. Err only where the queue was full at that step.
    pub fn send<R: Wait>(
        &self,
        rt: &R,
        pass: &mut StagePass,
        batch: Numbered,
    ) -> Result<(), Numbered>
        requires uses { UsesSettled self.now pass.old }
        requires held { 0 < pass.old.held }
        ensures put { MatchResult result (λ _. pass.new ≡ let_go pass.old self.now.node (settled_put batch (at_node pass.old self.now.node))) (λ back. (back ≡ batch) × (pass.new ≡ pass.old)) }
        ensures full { IfErr result (λ _. HasLeftSettled self.now.ring.room (at_node pass.old self.now.node)) }
    {
        let owed = pass.nodes[self.node].send_settled(rt, &self.ring, self.node, batch)?;
        pass.held -= 1;
        owed.pay(self.wake_reader());
        Ok(())
    }

    /// Wakes the reply stage.
    pub(crate) fn wake_reader(&self) -> Rungs
        ensures { result.of ≡ whom (Replies self.now.node) 0 1 }
    {
        Rungs::one(self.reader.ring())
    }

    /// There is room. Where a worker has asked for it, all are to be woken.
    pub(crate) fn leave_room(&self) -> Result<Heard, Owed>
        ensures row { MatchResult result (λ heard. heard.whom.row ≡ Workers self.now.node) (λ owed. (owed.whom.row ≡ Workers self.now.node) × (owed.whom.from ≡ 0)) }
        ensures count { MatchResult result (λ heard. heard.whom.count + 2 ≡ self.now.ring.room) (λ owed. owed.whom.count + 2 ≡ self.now.ring.room) }
    {
        self.crowd.leave()
    }

    /// Receives the batch at the front. None only where the queue was empty at that step.
    pub fn receive<R: Wait>(&self, rt: &R, pass: &mut StagePass) -> Option<Numbered>
        requires uses { UsesSettled self.now pass.old }
        requires held { pass.old.held < 2 ^ 32 }
        ensures taken { MatchOption result (pass.new ≡ pass.old) (λ batch. pass.new ≡ got pass.old self.now.node (settled_taken batch (at_node pass.old self.now.node))) }
        ensures empty { IfNone result (HasLeftSettled 0 (at_node pass.old self.now.node)) }
    {
        let batch = pass.nodes[self.node].take_settled(rt, &self.ring)?;
        pass.held += 1;
        Some(batch)
    }
}
