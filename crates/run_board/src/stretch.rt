// What an actor makes under one taking of the lock, where no step need be waited for.
ghost use Rattle.std.specs.Prelude.{◌≡◌};
ghost use Rattle.thread_steps.specs.Going.{GoesOn};

use crate::answers::Advance;
use crate::play::Play;
use history_book::{Actor, Cause, Item, Note};
use stamp_base::{NodeNo, Term};
use std::sync::ledger::Ledger;
use thread_steps::{ActorShare, ActorStep};

/// How many events of its lines an actor makes at most. They take less than a millisecond: with fewer, sixteen sessions pass the
/// lock so often that a run takes a tenth more processor time, and with more it takes hardly less.
const EVENTS: u64 = 256;

impl<L: Ledger> Play<L> {
    /// Makes events of the actor's lines one after the other, and serves what they ask, until a request is left to the stages, the
    /// actor is to look about, or so many are made. A line that waits ends it too; the answer is Waits only where nothing was made
    /// before.
    pub(crate) fn stretch(&mut self, mine: &mut ActorShare<L>) -> ActorStep
        ensures { GoesOn mine.old mine.new }
    {
        let mut step = self.event(mine);
        for _more in 1..EVENTS {
            if !goes_on(&step) || self.is_to_look(mine.aimed()) {
                return step;
            }
            match self.event(mine) {
                ActorStep::Did { asked } => step = ActorStep::Did { asked },
                _ => return step,
            }
        }
        step
    }

    // One event of the actor's line. What it asks is served where nothing is in the way, and told otherwise.
    fn event(&mut self, mine: &mut ActorShare<L>) -> ActorStep
        ensures { GoesOn mine.old mine.new }
    {
        match without_why(self.advance(mine)) {
            ActorStep::Did { asked: Some(asked) } => ActorStep::Did {
                asked: self.left_of(mine.actor(), asked),
            },
            step => step,
        }
    }

    // What is left of an ask.
    fn left_of(&mut self, actor: Actor, asked: (NodeNo, Term)) -> Option<(NodeNo, Term)> {
        let (node, term) = asked;
        match actor {
            Actor::Session(session) if self.serve_through(node, term, session) => None,
            _ => Some(asked),
        }
    }

    // Whether the actor is to look who is master, or to tell it, before it goes on: the last event took the record, passed an
    // await, or found no oracle at the node at which its share is aimed.
    fn is_to_look(&self, aim: NodeNo) -> bool {
        match self.history().last() {
            Some(Item::Take { .. }) => true,
            Some(Item::Note { note, .. }) => matches!(note, Note::Await(_)),
            Some(Item::Refused { cause, .. }) => *cause == (Cause::NoOracle { node: aim }),
            _ => false,
        }
    }
}

// Whether an event was made that has left nothing to the stages.
fn goes_on(step: &ActorStep) -> bool {
    matches!(step, ActorStep::Did { asked: None })
}

/// The answer of an event, without why a line waits.
pub(crate) fn without_why(answer: Advance) -> ActorStep {
    match answer {
        Advance::Did { asked } => ActorStep::Did { asked },
        Advance::Waits(_) => ActorStep::Waits,
        Advance::Ended => ActorStep::Ended,
        Advance::NoMemory => ActorStep::NoMemory,
    }
}
