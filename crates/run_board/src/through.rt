// A request that is served through all stages of its node under one taking of the lock.
ghost use Rattle.std.specs.Prelude.{◌≡◌, ◌<◌, ◌↔◌, IsTrue, false, not};
ghost use Rattle.stamp_base.specs.declared.stage.Stage.{Stage as Stages};
ghost use Rattle.stamp_base.specs.declared.stage.Stage.TheVariants.{Request, Persist};
ghost use Rattle.run_board.specs.Steps.{state_of, has_turn, IsStageHeld};
ghost use Rattle.run_board.specs.Through.{AreSettled, IsClear, MakesSteps, GoesThrough};

use crate::play::Play;
use stamp_base::{NodeNo, SessionNo, Stage, Term};
use std::sync::ledger::Ledger;
use thread_steps::StageStep;

/// How many steps of its request stage are made for a request at most. Four are enough where the range is extended first.
const STEPS: u64 = 16;

impl<L: Ledger> Play<L> {
    /// Serves the session's request as the stages of its node would, one after the other, where nothing is there that it would wait
    /// for: no stage of the node is held, and no commit there is drawn and not put. Whether nothing is left to its request stage: a
    /// request that is, also where memory is refused, stands where that stage goes on with it.
    pub fn serve_through(&mut self, node: NodeNo, term: Term, session: SessionNo) -> bool
        ensures through { GoesThrough node term session self.old self.new }
        ensures in_the_way { (IsClear self.old.ran node → ⊥) → self.new ≡ self.old }
        ensures left { result ≡ not (has_turn (state_of self.new.ran) node Request session) }
    {
        if self.is_clear(node) {
            self.pass_stages(node, term, session);
        }
        !self.has_turn(node, Stage::Request, session)
    }

    // What is drawn is put, if it is a commit, and answered.
    fn pass_stages(&mut self, node: NodeNo, term: Term, session: SessionNo)
        ensures { GoesThrough node term session self.old self.new }
    {
        self.draw(node, term, session);
        let _put = self.stage_step(node, term, Stage::Persist, session);
        let _answered = self.stage_step(node, term, Stage::Reply, session);
    }

    // Makes steps of the request stage until it is through with the request, or memory is refused.
    fn draw(&mut self, node: NodeNo, term: Term, session: SessionNo)
        ensures { MakesSteps node term Request session self.old self.new }
    {
        for _step in 0..STEPS {
            if self.is_through(node, term, session) {
                return;
            }
        }
    }

    // One step of the request stage. Whether it was the last one.
    fn is_through(&mut self, node: NodeNo, term: Term, session: SessionNo) -> bool
        ensures { MakesSteps node term Request session self.old self.new }
    {
        let step = self.stage_step(node, term, Stage::Request, session);
        is_last(&step)
    }

    fn is_clear(&self, node: NodeNo) -> bool
        ensures { IsTrue result ↔ IsClear self.now.ran node }
    {
        self.is_free(node) && self.are_settled(node)
    }

    fn is_free(&self, node: NodeNo) -> bool
        ensures { IsTrue result ↔ ((stage : Stages) → IsStageHeld self.now.ran node stage ≡ false) }
    {
        let request = self.is_held(node, Stage::Request);
        let persist = self.is_held(node, Stage::Persist);
        let reply = self.is_held(node, Stage::Reply);
        is_none(request, persist, reply)
    }

    fn are_settled(&self, node: NodeNo) -> bool
        ensures { IsTrue result ↔ AreSettled self.now.ran node }
    {
        for number in 0..SessionNo::COUNT as u64 {
            if self.is_unsettled(node, number) {
                return false;
            }
        }
        true
    }

    // Whether the commit of the session of this number is drawn there and not put.
    fn is_unsettled(&self, node: NodeNo, number: u64) -> bool
        requires { number < 16 }
        ensures { result ≡ has_turn (state_of self.now.ran) node Persist number }
    {
        match SessionNo::new(number) {
            Some(session) => self.has_turn(node, Stage::Persist, session),
            None => unreachable!(),
        }
    }

    // Whether the node's stage has a turn to make of the session's request as it stands.
    fn has_turn(&self, node: NodeNo, stage: Stage, session: SessionNo) -> bool
        ensures { result ≡ has_turn (state_of self.now.ran) node stage session }
    {
        self.run.has_turn(node, stage, session)
    }
}

// Whether a request stage makes no further step for a request behind this one.
fn is_last(step: &StageStep) -> bool {
    matches!(
        step,
        StageStep::Did { .. } | StageStep::Stale { .. } | StageStep::NoMemory
    )
}

fn is_none(request: bool, persist: bool, reply: bool) -> bool
    ensures { IsTrue result ↔ ((request ≡ false) × (persist ≡ false) × (reply ≡ false)) }
{
    !request && !persist && !reply
}
