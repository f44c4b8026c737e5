// Who is woken after a line.
ghost use Rattle.std.specs.Prelude.{◌≡◌};
ghost use Rattle.actor_threads.specs.Waking.{woken_by};

use crate::shared::Shared;
use history_book::Actor;
use reply_pipeline::Gate;
use script_data::Verb;
use stage_queues::Queues;
use stamp_base::{Name, NodeNo, Stage};
use thread_steps::Steps;

/// Who may wait for what a line does.
#[derive(Clone, Copy, Debug, PartialEq, Eq)]
pub enum Woken {
    /// The line ends nobody's wait.
    Nobody,
    /// The actors that wait for the name.
    AwaitersOf(Name),
    /// The sessions, and the stages of the node whose instance is gone.
    UsersOf(NodeNo),
    /// The threads of the node's stage.
    ThreadsOf(NodeNo, Stage),
}

/// Wakes those that wait for what a line of the actor does.
pub fn wake_for<B: Steps + Sync, G: Gate>(shared: &Shared<'_, B, G>, actor: Actor, verb: &Verb) {
    match woken_by(actor, verb) {
        Woken::Nobody => {}
        Woken::AwaitersOf(name) => shared
            .awaiters
            .wake(shared.queues, shared.lines.as_slice(), &name),
        Woken::UsersOf(node) => wake_users(shared.queues, node),
        Woken::ThreadsOf(node, stage) => shared.queues.wake_stage(node, stage),
    }
}

// A name that is posted, the end of requests by a crash, a stage that is freed. Who waits for a request is woken by the stages.
fn woken_by(actor: Actor, verb: &Verb) -> Woken
    ensures { result ≡ woken_by actor verb.now }
{
    match (verb, actor) {
        (Verb::Post { name }, _) => Woken::AwaitersOf(*name),
        (Verb::Crash, Actor::Node(node)) => Woken::UsersOf(node),
        (Verb::Free { stage }, Actor::Node(node)) => Woken::ThreadsOf(node, *stage),
        _ => Woken::Nobody,
    }
}

// A stage that is held passes over what the instance has left.
fn wake_users(queues: &Queues, node: NodeNo) {
    let _rungs = queues.wake_sessions();
    for stage in [Stage::Request, Stage::Persist, Stage::Reply] {
        queues.wake_stage(node, stage);
    }
}
