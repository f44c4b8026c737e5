// The steps of actors and stages.
ghost use Rattle.std.specs.Prelude.{◌≡◌, ◌≤◌, Some, drop, length};
ghost use Rattle.turn_rules.specs.declared.ahead.NextAction.TheVariants.{Makes};
ghost use Rattle.turn_rules.specs.Carried.{own_ahead, event_of, carried_items};
ghost use Rattle.turn_rules.specs.Lawful.{IsFree, IsInPlace, stage_of};
ghost use Rattle.run_board.specs.Run.{reached_by};
ghost use Rattle.run_board.specs.Steps.{Advances, Serves, ServesBy, LacksOnlyThere, LacksUnserved, state_of, asked_of, node_asked, drawn_in, done_by};

use crate::ScriptRun;
use crate::answers::Advance;
use crate::making::since;
use history_book::{Actor, Item};
use machine::Event;
use planned_cluster::Stopped;
use stamp_base::{NodeNo, SessionNo, Stage, Stamp, Term};
use thread_steps::StageStep;
use turn_rules::{NextAction, Turn, own_turns_are_told};

impl ScriptRun {
    /// Makes the next event of the actor's present line, its share being aimed at this node, unless it waits or no line is left.
    pub fn advance(&mut self, actor: Actor, aim: NodeNo) -> Advance
        ensures { Advances self.old actor aim result self.new }
    {
        match &self.ahead(&actor, aim) {
            NextAction::Makes(event) => self.make_own(&actor, aim, event),
            NextAction::Waits(why) => Advance::Waits(*why),
            NextAction::Passes => Advance::Ended,
        }
    }

    fn make_own(&mut self, actor: &Actor, aim: NodeNo, event: &Event) -> Advance
        requires { own_ahead self.old.script (reached_by self.old) actor.now aim ≡ Makes event.now }
        ensures { Advances self.old actor.now aim result self.new }
    {
        own_turns_are_told();
        let before = self.planned.cluster.history().len();
        let turn = Turn::Own { actor: *actor, aim };
        match self.make(turn, event) {
            Err(Stopped::NoMemory) => Advance::NoMemory,
            Ok(()) | Err(Stopped::Refused(_)) | Err(Stopped::StoreFault(_)) => {
                Advance::Did {
                    asked: self.asked_since(before),
                }
            }
        }
    }

    // What the items from this place on ask, and the term of the node's oracle.
    fn asked_since(&self, before: usize) -> Option<(NodeNo, Term)>
        requires { before ≤ length (carried_items self.now.script self.now.turns) }
        ensures { result ≡ asked_of (state_of self.now) (node_asked (drop before (carried_items self.now.script self.now.turns))) }
    {
        let node = node_asked(&self.history()[before..])?;
        let term = self.term_of(node)?;
        Some((node, term))
    }

    /// Makes one event of the node's stage for the session's request, unless the stage is held, or the request is not there. Memory
    /// may be refused only where the request is accepted, or where it stands before its decision and the range is extended, which
    /// is used up, as a session whose request waits there was told: this one or another.
    pub fn stage_step(
        &mut self,
        node: NodeNo,
        term: Term,
        stage: Stage,
        session: SessionNo,
    ) -> StageStep
        ensures made { Serves self.old node term stage session result self.new }
        ensures memory { LacksOnlyThere self.old node stage session result }
    {
        if self.is_held(node, stage) {
            return StageStep::Held;
        }
        let found = self.term_of(node);
        if found != Some(term) {
            return StageStep::Stale { found };
        }
        let Some(turn) = self.turn_of(stage, node, session) else {
            return StageStep::Stale { found };
        };
        let Some(event) = self.event_of(&turn) else {
            return StageStep::Stale { found };
        };
        self.serve(turn, &event)
    }

    fn serve(&mut self, turn: Turn, event: &Event) -> StageStep
        requires event { event_of self.old.script (reached_by self.old) turn ≡ Some event.now }
        requires free { IsFree (reached_by self.old).held (stage_of turn) }
        requires in_place { IsInPlace (state_of self.old) turn }
        ensures made { ServesBy self.old turn event.now result self.new }
        ensures memory { LacksUnserved turn result }
    {
        let before = self.history().len();
        match self.make(turn, event) {
            Ok(()) => done(&turn, since(self.history(), before)),
            Err(Stopped::Refused(cause)) => StageStep::Refused(cause),
            Err(Stopped::StoreFault(_)) => StageStep::Fault,
            Err(Stopped::NoMemory) => StageStep::NoMemory,
        }
    }
}

/// The node that an ask among the items names.
#[tactic(auto, unfolding(crate::specs::Steps::node_asked))]
fn node_asked(items: &[Item]) -> Option<NodeNo>
    ensures { result ≡ node_asked items.now }
{
    for item in items {
        if let Item::AskBegin { node, .. } | Item::AskCommit { node, .. } = item {
            return Some(*node);
        }
    }
    None
}

/// The stamps that a draw among the items tells.
#[tactic(auto, unfolding(crate::specs::Steps::drawn_in))]
fn drawn_in(items: &[Item]) -> Option<(Stamp, Option<Stamp>)>
    ensures { result ≡ drawn_in items.now }
{
    for item in items {
        if let Item::Draw { start, commit, .. } = item {
            return Some((*start, *commit));
        }
    }
    None
}

/// How a turn that was done is told.
fn done(turn: &Turn, items: &[Item]) -> StageStep
    ensures { result ≡ done_by turn.now items.now }
{
    match turn {
        Turn::Decide { .. } => {
            match drawn_in(items) {
                Some((start, commit)) => StageStep::Did { start, commit },
                None => StageStep::Went,
            }
        }
        Turn::Put { .. } => StageStep::Settled,
        Turn::Answer { .. } => StageStep::Answered,
        Turn::Own { .. } | Turn::Accept { .. } | Turn::Extend { .. } => StageStep::Went,
    }
}
