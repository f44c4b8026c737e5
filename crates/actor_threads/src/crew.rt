ghost use Rattle.std.specs.Prelude.{◌≡◌, ◌+◌, All, IfOk, length, vec_len};
ghost use Rattle.reply_pipeline.specs.Seats.{AreReady, IsSenderPass};

use stage_queues::{Queues, StagePass};
use stamp_base::{NoMemory, Setup};
use std::alloc::Global;

/// The queues, and the passes of all who use them.
#[derive(Drop)]
pub struct Crew {
    /// The queues of all nodes.
    pub queues: Queues,
    /// Node by node, those of the stages.
    pub stages: Vec<StagePass>,
    /// One for each actor.
    pub senders: Vec<StagePass>,
}

impl Crew {
    /// All memory of queues, pools and passes is taken here. NoMemory where memory is refused.
    pub fn open(alloc: Global, setup: &Setup, actors: usize) -> Result<Crew, NoMemory>
        ensures stages { IfOk result (λ crew. AreReady crew.queues setup.now.workers crew.stages.items) }
        ensures senders { IfOk result (λ crew. All (IsSenderPass crew.queues) crew.senders.items) }
        ensures count { IfOk result (λ crew. vec_len crew.senders ≡ actors) }
        ensures nodes { IfOk result (λ crew. length crew.queues.nodes ≡ setup.now.nodes) }
        ensures buffers { IfOk result (λ crew. crew.queues.buffers ≡ setup.now.workers + 2) }
    {
        let (queues, mut stages) = Queues::open(alloc, setup, actors)?;
        // The passes of actors stand behind those of the stages.
        let senders = stages.split_off(stages.len() - actors)?;
        Ok(Crew {
            queues,
            stages,
            senders,
        })
    }
}
