ghost use Rattle.std.specs.Prelude.{◌≡◌, IfSome};
ghost use Rattle.request_rule.specs.Rule.{Tells as TellsTickets};
ghost use Rattle.request_rule.specs.Accounts.{joined as joined_requests};
ghost use Rattle.batch_rule.specs.Rule.{Tells as TellsBatches};
ghost use Rattle.batch_rule.specs.Accounts.{joined as joined_batches};
ghost use Rattle.settled_rule.specs.Rule.{IsFair};
ghost use Rattle.settled_rule.specs.Accounts.{joined as joined_settled};
ghost use Rattle.stage_queues.specs.declared.spot.Row.TheVariants.{Requests, Workers};
ghost use Rattle.stage_queues.specs.Spots.{whom};
ghost use Rattle.stage_queues.specs.NodePasses.{both, joined_node, IsOfRing, IsNodePassOf, TellsNode};

use crate::batch_queue::BatchQueue;
use crate::buffers::{Buffers, Home};
use crate::gathering::AtWork;
use crate::node_pass::NodePass;
use crate::request_queue::RequestQueue;
use crate::rings::Heard;
use crate::settled_queue::SettledQueue;
use batch_rule::{BatchPass, BatchRing};
use request_rule::{RequestPass, RequestRing};
use settled_rule::{SettledPass, SettledRing};
use std::marker::Model;
use std::sync::Mutex;

/// The queues of one node, and its pool of batches.
#[derive(Drop)]
pub struct NodeQueues {
    pub(crate) requests: RequestQueue,
    pub(crate) batches: BatchQueue,
    pub(crate) settled: SettledQueue,
    pub(crate) buffers: Mutex<Buffers>,
}

impl Model for NodeQueues {
    ghost use Rattle.std.specs.Prelude.{◌≡◌};
    ghost use Rattle.stage_queues.specs.Plan.{NodeRings};

    ghost Value = { NodeRings };

    ghost view = { λ n. record { node = n.requests.node; requests = n.requests.ring; batches = n.batches.ring; settled = n.settled.ring } };

    ghost invariant = { λ n. (n.batches.node ≡ n.requests.node) × (n.settled.node ≡ n.requests.node) × (n.settled.ring.room ≡ n.batches.ring.room) };
}

impl NodeQueues {
    /// There is room for batches: wakes the request stage, if it has asked for it.
    pub(crate) fn tell_request_stage(&self) -> Heard
        ensures { result.whom ≡ whom (Requests self.now.node) 0 1 }
    {
        match self.batches.leave_room() {
            Ok(heard) => heard,
            Err(owed) => owed.pay(self.requests.wake_reader()),
        }
    }

    /// There is room for settled batches: wakes the workers, if one has asked for it.
    pub(crate) fn tell_workers(&self) -> Heard
        ensures { result.whom.row ≡ Workers self.now.node }
    {
        match self.settled.leave_room() {
            Ok(heard) => heard,
            Err(owed) => owed.pay(self.batches.wake_readers()),
        }
    }

    /// A batch came home: wakes the request stage, if it has asked for one.
    pub(crate) fn tell_home(&self, home: Home) -> Heard
        ensures { result.whom ≡ whom (Requests self.now.node) 0 1 }
    {
        match self.requests.leave_home(home) {
            Ok(heard) => heard,
            Err(owed) => owed.pay(self.requests.wake_reader()),
        }
    }

    /// A ticket was sent: wakes the request stage, if it is to take those that are there.
    pub(crate) fn tell_ticket(&self, at_work: &AtWork) -> Heard
        ensures { result.whom ≡ whom (Requests self.now.node) 0 1 }
    {
        match self.requests.leave_tickets(at_work) {
            Ok(heard) => heard,
            Err(owed) => owed.pay(self.requests.press()),
        }
    }

    /// Wakes the threads of each stage.
    pub(crate) fn wake_stages(&self) {
        let _request = self.requests.wake_reader();
        let _persist = self.batches.wake_readers();
        let _reply = self.settled.wake_reader();
    }

    /// Joins the passes that two threads have at this node.
    pub(crate) fn join(&self, mine: NodePass, theirs: NodePass) -> NodePass
        requires { IsNodePassOf self.now mine × IsNodePassOf self.now theirs }
        ensures joined { result ≡ joined_node mine theirs }
        ensures tells { TellsNode result }
    {
        NodePass {
            requests: join_requests(&self.requests.ring, mine.requests, theirs.requests),
            batches: join_batches(&self.batches.ring, mine.batches, theirs.batches),
            settled: join_settled(&self.settled.ring, mine.settled, theirs.settled),
        }
    }
}

fn join_requests(
    ring: &RequestRing,
    mine: Option<RequestPass>,
    theirs: Option<RequestPass>,
) -> Option<RequestPass>
    requires { IfSome mine (IsOfRing ring.now) × IfSome theirs (IsOfRing ring.now) }
    ensures joined { result ≡ both joined_requests mine theirs }
    ensures tells { IfSome result (λ p. TellsTickets p.account) }
{
    let mut all = match (mine, theirs) {
        (Some(mine), Some(theirs)) => ring.join(mine, theirs),
        (Some(mine), None) => mine,
        (None, theirs) => theirs?,
    };
    ring.tell(&mut all);
    Some(all)
}

fn join_batches(
    ring: &BatchRing,
    mine: Option<BatchPass>,
    theirs: Option<BatchPass>,
) -> Option<BatchPass>
    requires { IfSome mine (IsOfRing ring.now) × IfSome theirs (IsOfRing ring.now) }
    ensures joined { result ≡ both joined_batches mine theirs }
    ensures tells { IfSome result (λ p. TellsBatches p.account) }
{
    let mut all = match (mine, theirs) {
        (Some(mine), Some(theirs)) => ring.join(mine, theirs),
        (Some(mine), None) => mine,
        (None, theirs) => theirs?,
    };
    ring.tell(&mut all);
    Some(all)
}

fn join_settled(
    ring: &SettledRing,
    mine: Option<SettledPass>,
    theirs: Option<SettledPass>,
) -> Option<SettledPass>
    requires { IfSome mine (IsOfRing ring.now) × IfSome theirs (IsOfRing ring.now) }
    ensures joined { result ≡ both joined_settled mine theirs }
    ensures tells { IfSome result (λ p. IsFair p.account) }
{
    let mut all = match (mine, theirs) {
        (Some(mine), Some(theirs)) => ring.join(mine, theirs),
        (Some(mine), None) => mine,
        (None, theirs) => theirs?,
    };
    ring.tell(&mut all);
    Some(all)
}
