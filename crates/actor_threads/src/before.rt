ghost use Rattle.std.specs.Prelude.{◌≡◌};
ghost use Rattle.actor_threads.specs.Sending.{done_of};

use history_book::Actor;
use stamp_base::NodeNo;
use std::sync::ledger::Ledger;
use thread_steps::ActorShare;

/// A share as it was before its actor's thread began.
#[derive(Clone, Copy)]
pub struct Before {
    /// The actor.
    pub actor: Actor,
    /// How many of its lines were done.
    pub done: u64,
    /// The node that the share was aimed at as the master.
    pub aim: NodeNo,
}

impl Before {
    /// As the share is now.
    pub fn of<L: Ledger>(mine: &ActorShare<L>) -> Before
        ensures { done_of result ≡ mine.now }
    {
        Before {
            actor: mine.actor(),
            done: mine.done(),
            aim: mine.aimed(),
        }
    }
}
