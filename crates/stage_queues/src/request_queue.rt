ghost use Rattle.std.specs.Prelude.{◌≡◌, IfErr, IfNone, MatchOption, MatchResult};
ghost use Rattle.stage_queues.specs.declared.spot.Row.TheVariants.{Requests};
ghost use Rattle.stage_queues.specs.Spots.{whom, all_sessions};
ghost use Rattle.stage_queues.specs.NodePasses.{ticket_put, TakesTicket, TookAllTickets, HasLeftTickets};
ghost use Rattle.stage_queues.specs.Passes.{at_node, with_node, SendsTickets, ReceivesTickets};
ghost use Rattle.stage_queues.specs.Plan.{node_ring};

use crate::bell::Bell;
use crate::buffers::Home;
use crate::gathering::{AtWork, Gathered};
use crate::pass::StagePass;
use crate::rings::{Heard, Owed, Rungs};
use crate::spot::{Row, Spot, Whom};
use crate::waiting::{Crowd, FIRST_SESSION};
use request_rule::{RequestRing, Ticket};
use stamp_base::SessionNo;
use std::marker::Model;
use std::sync::Wait;

/// A node's queue of requests: from the threads of sessions to its request stage, which waits here.
#[derive(Drop)]
pub struct RequestQueue {
    pub(crate) node: usize,
    pub(crate) ring: RequestRing,
    pub(crate) reader: Bell,
    pub(crate) crowd: Crowd,
    pub(crate) gathered: Gathered,
    // Whether the stage waits for a batch of the pool.
    pub(crate) lacks_batch: Crowd,
}

impl Model for RequestQueue {
    ghost use Rattle.std.specs.Prelude.{◌≡◌};
    ghost use Rattle.stage_queues.specs.declared.spot.Row.TheVariants.{Requests};
    ghost use Rattle.stage_queues.specs.Plan.{NodeRing};
    ghost use Rattle.stage_queues.specs.Spots.{spot, whom, all_sessions};

    ghost Value = { NodeRing };

    ghost view = { λ q. record { node = q.node; ring = q.ring } };

    ghost invariant = { λ q. (q.reader.spot ≡ spot (Requests q.node) 0) × (q.crowd.whom ≡ all_sessions) × (q.lacks_batch.whom ≡ whom (Requests q.node) 0 1) };
}

impl RequestQueue {
    pub(crate) fn new(node: usize, ring: RequestRing, enough: usize) -> RequestQueue
        ensures { result ≡ node_ring node ring }
    {
        RequestQueue {
            node,
            ring,
            reader: Bell::at(Spot {
                row: Row::Requests(node),
                number: 0,
            }),
            crowd: Crowd::of(Whom {
                row: Row::Actors,
                from: FIRST_SESSION,
                count: SessionNo::COUNT,
            }),
            gathered: Gathered::none(enough),
            lacks_batch: Crowd::of(Whom {
                row: Row::Requests(node),
                from: 0,
                count: 1,
            }),
        }
    }

    /// Sends a ticket. `Queues::tell_ticket` then wakes the request stage. Err only where the queue was full at that step.
    pub fn send<R: Wait>(&self, rt: &R, pass: &mut StagePass, ticket: Ticket) -> Result<(), Ticket>
        requires { SendsTickets self.now pass.old }
        ensures put { MatchResult result (λ _. pass.new ≡ with_node pass.old self.now.node (ticket_put ticket (at_node pass.old self.now.node))) (λ back. (back ≡ ticket) × (pass.new ≡ pass.old)) }
        ensures full { IfErr result (λ _. HasLeftTickets self.now.ring.room (at_node pass.old self.now.node)) }
    {
        let counted = self.gathered.add();
        match pass.nodes[self.node].send_ticket(rt, &self.ring, ticket, &counted) {
            Ok(()) => {
                counted.sent();
                Ok(())
            }
            Err(back) => {
                self.gathered.give_up(counted);
                Err(back)
            }
        }
    }

    /// The tickets that are there are to be taken: wakes the stage.
    pub(crate) fn press(&self) -> Rungs
        ensures { result.of ≡ whom (Requests self.now.node) 0 1 }
    {
        self.gathered.press();
        self.wake_reader()
    }

    /// Wakes the request stage.
    pub(crate) fn wake_reader(&self) -> Rungs
        ensures { result.of ≡ whom (Requests self.now.node) 0 1 }
    {
        Rungs::one(self.reader.ring())
    }

    /// There is room. Where a session has asked for it, all are to be woken.
    pub(crate) fn leave_room(&self) -> Result<Heard, Owed>
        ensures { MatchResult result (λ heard. heard.whom ≡ all_sessions) (λ owed. owed.whom ≡ all_sessions) }
    {
        self.crowd.leave()
    }

    /// A batch came home. Where the stage has asked for one, it is to be woken.
    pub(crate) fn leave_home(&self, home: Home) -> Result<Heard, Owed>
        ensures { MatchResult result (λ heard. heard.whom ≡ whom (Requests self.now.node) 0 1) (λ owed. owed.whom ≡ whom (Requests self.now.node) 0 1) }
    {
        home.told();
        self.lacks_batch.leave()
    }

    /// A ticket was sent. Where enough are there, or nobody else is at work, the stage is to be woken.
    pub(crate) fn leave_tickets(&self, at_work: &AtWork) -> Result<Heard, Owed>
        ensures { MatchResult result (λ heard. heard.whom ≡ whom (Requests self.now.node) 0 1) (λ owed. owed.whom ≡ whom (Requests self.now.node) 0 1) }
    {
        let stage = Whom {
            row: Row::Requests(self.node),
            from: 0,
            count: 1,
        };
        if self.gathered.is_enough() || at_work.is_alone() {
            return Err(Owed::to(stage));
        }
        Ok(Heard::unasked(stage))
    }

    /// Receives the ticket at the front. None only where the queue was empty at that step.
    pub fn receive<R: Wait>(&self, rt: &R, pass: &mut StagePass) -> Option<Ticket>
        requires { ReceivesTickets self.now pass.old }
        ensures rest { MatchOption result (pass.new ≡ pass.old) (λ _. pass.new ≡ with_node pass.old self.now.node (at_node pass.new self.now.node)) }
        ensures taken { MatchOption result (pass.new ≡ pass.old) (λ ticket. TakesTicket ticket (at_node pass.old self.now.node) (at_node pass.new self.now.node)) }
        ensures empty { IfNone result (TookAllTickets (at_node pass.old self.now.node)) }
    {
        let ticket = pass.nodes[self.node].take_ticket(rt, &self.ring)?;
        self.gathered.remove();
        Some(ticket)
    }
}
