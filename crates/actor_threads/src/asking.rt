// The ticket of what an actor asked.
ghost use Rattle.std.specs.Prelude.{◌≡◌, length};
ghost use Rattle.reply_pipeline.specs.Seats.{IsSenderPass};
ghost use Rattle.actor_threads.specs.Asking.{ticket_of_ask, Offers};

use crate::shared::Shared;
use history_book::Actor;
use reply_pipeline::{Gate, offer_ticket};
use stage_queues::{StagePass, Ticket};
use stamp_base::{NodeNo, Stage, Term};
use std::sync::Wait;
use thread_steps::Steps;

/// A ticket for which the queue of the node had no room.
#[derive(Clone, Copy)]
pub struct Unsent {
    /// The node whose queue was full.
    pub node: NodeNo,
    /// The ticket, handed back.
    pub ticket: Ticket,
}

/// The ticket of an ask.
pub fn asked_ticket(actor: Actor, asked: Option<(NodeNo, Term)>) -> Option<Unsent>
    ensures { result ≡ ticket_of_ask actor asked }
{
    match (asked, actor) {
        (Some((node, term)), Actor::Session(session)) => {
            Some(Unsent {
                node,
                ticket: Ticket { session, term },
            })
        }
        _ => None,
    }
}

/// The node of an ask, as long as its ticket is at hand.
pub fn node_asked(unsent: &Option<Unsent>) -> Option<NodeNo> {
    match unsent {
        Some(Unsent { node, .. }) => Some(*node),
        None => None,
    }
}

/// Sends the ticket if the queue of its node has room.
pub fn offer<R: Wait, B: Steps + Sync, G: Gate>(
    rt: &R,
    shared: &Shared<'_, B, G>,
    pass: &mut StagePass,
    unsent: &mut Option<Unsent>,
)
    requires pass { IsSenderPass shared.now.queues.now pass.old }
    requires nodes { length shared.now.queues.now.nodes ≡ shared.now.setup.nodes }
    ensures pass { IsSenderPass shared.now.queues.now pass.new }
    ensures offers { Offers shared.now.setup.nodes unsent.old unsent.new pass.old pass.new }
{
    if let Some(Unsent { node, ticket }) = *unsent {
        // No clause of the board says that the node is one of the setup.
        if node.value() >= shared.setup.nodes
            || offer_ticket(rt, node, shared.queues, pass, ticket).is_ok()
        {
            *unsent = None;
        }
    }
}

/// Sends the ticket if the queue of its node has room, also where room comes meanwhile, and asks to be woken for room otherwise.
pub fn offer_again<R: Wait, B: Steps + Sync, G: Gate>(
    rt: &R,
    shared: &Shared<'_, B, G>,
    pass: &mut StagePass,
    unsent: &mut Option<Unsent>,
)
    requires pass { IsSenderPass shared.now.queues.now pass.old }
    requires nodes { length shared.now.queues.now.nodes ≡ shared.now.setup.nodes }
    ensures pass { IsSenderPass shared.now.queues.now pass.new }
    ensures offers { Offers shared.now.setup.nodes unsent.old unsent.new pass.old pass.new }
{
    offer(rt, shared, pass, unsent);
    if let Some(Unsent { node, .. }) = *unsent {
        shared.queues.ask_for_room(node, Stage::Request);
        offer(rt, shared, pass, unsent);
    }
}
