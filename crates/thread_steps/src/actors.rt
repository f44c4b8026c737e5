ghost use Rattle.thread_steps.specs.Going.{GoesOn};

use crate::share::ActorShare;
use stamp_base::{NodeNo, Term};
use std::sync::Wait;
use std::sync::ledger::Ledger;

/// What became of an actor's present line.
#[derive(Clone, Copy, Debug, PartialEq, Eq)]
pub enum ActorStep {
    /// Its next event was made. Where that was an ask, it was asked of this node, whose oracle has this term.
    Did { asked: Option<(NodeNo, Term)> },
    /// It waits, and nothing was made.
    Waits,
    /// No line is left.
    Ended,
    /// Memory was refused, and nothing was made.
    NoMemory,
}

/// What the threads of actors make their steps at: the board, or what stands for it in a test.
pub trait ActorSteps<L: Ledger> {
    /// Makes the next event of the present line of the share's actor. The share counts the lines that were done since.
    fn actor_step<R: Wait>(&self, rt: &R, mine: &mut ActorShare<L>) -> ActorStep
        ensures { GoesOn mine.old mine.new };

    /// Makes events of the actor's lines one after the other, for a while, and those by which stages serve what it asks, where
    /// nothing is in the way. By default, one step.
    fn actor_stretch<R: Wait>(&self, rt: &R, mine: &mut ActorShare<L>) -> ActorStep
        ensures { GoesOn mine.old mine.new }
    {
        self.actor_step(rt, mine)
    }
}
