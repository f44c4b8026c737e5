ghost use Rattle.std.specs.Prelude.{◌≡◌, IsSomeAnd, IfNone, IfErr, IfOk, MatchOption, MatchResult};
ghost use Rattle.stage_queues.specs.declared.spot.Row.TheVariants.{Replies};
ghost use Rattle.stage_queues.specs.Spots.{whom};
ghost use Rattle.stage_queues.specs.NodePasses.{nothing, ticket_put, batch_put, batch_taken, settled_put, settled_taken, TakesTicket, MaySendTicket, MayTakeTicket, MaySendBatch, IsOfRing, TookAllTickets, HasLeftTickets, HasLeftBatches, HasLeftSettled};

use crate::gathering::Counted;
use crate::rings::{Owed, OwedToOne};
use crate::spot::{Row, Whom};
use batch_rule::{BatchPass, BatchRing};
use persist_batches::Numbered;
use request_rule::{RequestPass, RequestRing, Ticket};
use settled_rule::{SettledPass, SettledRing};
use std::mem;
use std::sync::Wait;

/// The passes that a thread has at one node, of each queue one at most.
#[derive(Drop)]
pub struct NodePass {
    pub(crate) requests: Option<RequestPass>,
    pub(crate) batches: Option<BatchPass>,
    pub(crate) settled: Option<SettledPass>,
}

impl NodePass {
    pub(crate) fn nothing() -> NodePass
        ensures { result ≡ nothing }
    {
        NodePass {
            requests: None,
            batches: None,
            settled: None,
        }
    }

    pub(crate) fn take(&mut self) -> NodePass
        ensures { (result ≡ self.old) × (self.new ≡ nothing) }
    {
        mem::replace(self, NodePass::nothing())
    }

    pub(crate) fn send_ticket<R: Wait>(
        &mut self,
        rt: &R,
        ring: &RequestRing,
        ticket: Ticket,
        counted: &Counted,
    ) -> Result<(), Ticket>
        requires { MaySendTicket ring.now self.old }
        ensures put { MatchResult result (λ _. self.new ≡ ticket_put ticket self.old) (λ back. (back ≡ ticket) × (self.new ≡ self.old)) }
        ensures full { IfErr result (λ _. HasLeftTickets ring.now.room self.old) }
    {
        let _counted = counted;
        match &mut self.requests {
            Some(pass) => ring.send(rt, pass, ticket),
            None => Err(ticket),
        }
    }

    pub(crate) fn take_ticket<R: Wait>(&mut self, rt: &R, ring: &RequestRing) -> Option<Ticket>
        requires { MayTakeTicket ring.now self.old }
        ensures taken { MatchOption result (self.new ≡ self.old) (λ ticket. TakesTicket ticket self.old self.new) }
        ensures empty { IfNone result (TookAllTickets self.old) }
    {
        match &mut self.requests {
            Some(pass) => ring.receive(rt, pass),
            None => None,
        }
    }

    pub(crate) fn send_batch<R: Wait>(
        &mut self,
        rt: &R,
        ring: &BatchRing,
        node: usize,
        batch: Numbered,
    ) -> Result<OwedToOne, Numbered>
        requires { MaySendBatch ring.now batch.number self.old }
        ensures owed { IfOk result (λ owed. (owed.node ≡ node) × (owed.asked ≡ 0)) }
        ensures put { MatchResult result (λ _. self.new ≡ batch_put batch self.old) (λ back. (back ≡ batch) × (self.new ≡ self.old)) }
        ensures full { IfErr result (λ _. HasLeftBatches ring.now.room self.old) }
    {
        match &mut self.batches {
            Some(pass) => match ring.send(rt, pass, batch) {
                Ok(()) => Ok(OwedToOne::of(node)),
                Err(back) => Err(back),
            },
            None => Err(batch),
        }
    }

    pub(crate) fn take_batch<R: Wait>(&mut self, rt: &R, ring: &BatchRing) -> Option<Numbered>
        requires { IsSomeAnd self.old.batches (IsOfRing ring.now) }
        ensures taken { MatchOption result (self.new ≡ self.old) (λ batch. self.new ≡ batch_taken batch self.old) }
        ensures empty { IfNone result (HasLeftBatches 0 self.old) }
    {
        match &mut self.batches {
            Some(pass) => ring.receive(rt, pass),
            None => None,
        }
    }

    pub(crate) fn send_settled<R: Wait>(
        &mut self,
        rt: &R,
        ring: &SettledRing,
        node: usize,
        batch: Numbered,
    ) -> Result<Owed, Numbered>
        requires { IsSomeAnd self.old.settled (IsOfRing ring.now) }
        ensures owed { IfOk result (λ owed. owed.whom ≡ whom (Replies node) 0 1) }
        ensures put { MatchResult result (λ _. self.new ≡ settled_put batch self.old) (λ back. (back ≡ batch) × (self.new ≡ self.old)) }
        ensures full { IfErr result (λ _. HasLeftSettled ring.now.room self.old) }
    {
        match &mut self.settled {
            Some(pass) => match ring.send(rt, pass, batch) {
                Ok(()) => Ok(Owed::to(Whom {
                    row: Row::Replies(node),
                    from: 0,
                    count: 1,
                })),
                Err(back) => Err(back),
            },
            None => Err(batch),
        }
    }

    pub(crate) fn take_settled<R: Wait>(&mut self, rt: &R, ring: &SettledRing) -> Option<Numbered>
        requires { IsSomeAnd self.old.settled (IsOfRing ring.now) }
        ensures taken { MatchOption result (self.new ≡ self.old) (λ batch. self.new ≡ settled_taken batch self.old) }
        ensures empty { IfNone result (HasLeftSettled 0 self.old) }
    {
        match &mut self.settled {
            Some(pass) => ring.receive(rt, pass),
            None => None,
        }
    }
}
