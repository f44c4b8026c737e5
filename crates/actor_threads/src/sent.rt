ghost use Rattle.std.specs.Prelude.{◌≡◌};
ghost use Rattle.actor_threads.specs.Sending.{ComesBack, done_of};

use crate::before::Before;
use std::marker::Model;
use std::sync::ledger::Ledger;
use std::thread::{Promise, PromisedHandle, Threads};
use thread_steps::ActorShare;

// An actor's thread gives back the share that it was given, with a count that did not fall.
impl<L: Ledger> Promise<ActorShare<L>> for Before {
    ghost use Rattle.actor_threads.specs.Sending.{ComesBack, done_of};

    ghost kept_by = { λ before mine. ComesBack (done_of before) mine };
}

/// A share that its actor's thread has, or that has come back at once since there was no thread. Contracts see the share as it was
/// before.
#[derive(Drop)]
pub struct Sent<L: Ledger> {
    before: Before,
    thread: Result<PromisedHandle<ActorShare<L>, Before>, ActorShare<L>>,
}

impl<L: Ledger> Model for Sent<L> {
    ghost use Rattle.std.specs.Prelude.{◌≡◌, MatchResult};
    ghost use Rattle.thread_steps.specs.Done.{Done};
    ghost use Rattle.actor_threads.specs.Sending.{ComesBack, done_of};

    ghost Value = { Done };

    ghost view = { λ s. done_of s.before };

    ghost invariant = { λ s. MatchResult s.thread (λ handle. handle.promise ≡ s.before) (λ mine. ComesBack (done_of s.before) mine) };
}

impl<L: Ledger> Sent<L> {
    /// A thread has it.
    pub fn there(before: Before, handle: PromisedHandle<ActorShare<L>, Before>) -> Sent<L>
        requires { handle.promise ≡ before }
        ensures { result ≡ done_of before }
    {
        Sent {
            before,
            thread: Ok(handle),
        }
    }

    /// It has come back.
    pub fn here(before: Before, mine: ActorShare<L>) -> Sent<L>
        requires { ComesBack (done_of before) mine }
        ensures { result ≡ done_of before }
    {
        Sent {
            before,
            thread: Err(mine),
        }
    }

    /// The share, once the thread has ended.
    pub fn join<R: Threads>(self, rt: &R) -> ActorShare<L>
        ensures { ComesBack self result }
    {
        match self.thread {
            Ok(handle) => handle.join(rt),
            Err(mine) => mine,
        }
    }
}
