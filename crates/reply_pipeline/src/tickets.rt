// The sessions' side of the pipeline: what their threads send.
ghost use Rattle.std.specs.Prelude.{◌≡◌, ◌<◌, IfOk, length};
ghost use Rattle.stage_queues.specs.declared.spot.Row.TheVariants.{Requests};
ghost use Rattle.stage_queues.specs.Spots.{whom};
ghost use Rattle.reply_pipeline.specs.Seats.{IsSenderPass, SendsOrGivesBack};

use stage_queues::{Heard, Queues, StagePass, Ticket};
use stamp_base::NodeNo;
use std::sync::Wait;

/// Sends a ticket to the node's request stage, unless its queue is full; the ticket is handed back then, and nothing was sent.
pub fn offer_ticket<R: Wait>(
    rt: &R,
    node: NodeNo,
    queues: &Queues,
    pass: &mut StagePass,
    ticket: Ticket,
) -> Result<Heard, Ticket>
    requires node { node < length queues.now.nodes }
    requires pass { IsSenderPass queues.now pass.old }
    ensures sent { SendsOrGivesBack node ticket pass.old pass.new result }
    ensures pass { IsSenderPass queues.now pass.new }
    ensures held { pass.new.held ≡ pass.old.held }
    ensures heard { IfOk result (λ heard. heard.whom ≡ whom (Requests node) 0 1) }
{
    let sent = queues.requests(node).send(rt, pass, ticket);
    let heard = queues.tell_ticket(node);
    match sent {
        Ok(()) => Ok(heard),
        Err(back) => Err(back),
    }
}
