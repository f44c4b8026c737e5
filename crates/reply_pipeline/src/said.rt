// What the board says of a request, and how it is asked: behind the gate, and once.
ghost use Rattle.std.specs.Prelude.{◌≡◌, false};
ghost use Rattle.reply_pipeline.specs.Serving.{ends};
ghost use Rattle.reply_pipeline.specs.Telling.{is_over};

use crate::gate::{Gate, GatePlace};
use stamp_base::{NodeNo, SessionNo, Stage, Term};
use std::sync::Wait;
use thread_steps::{StageStep, Steps};

/// The gate was passed for one step of a stage. It can't be let go: the board is asked by it.
pub struct Passed {
    node: NodeNo,
    stage: Stage,
}

impl Passed {
    /// Passes the gate for one step of the stage.
    pub fn at<R: Wait, G: Gate>(rt: &R, gate: &G, node: NodeNo, stage: Stage) -> Passed
        ensures { (result.node ≡ node) × (result.stage ≡ stage) }
    {
        gate.pass(rt, GatePlace { node, stage });
        Passed { node, stage }
    }
}

/// What the board said to a stage of a request. Nothing but an ask makes one, and it can't be let go: what was said is followed.
pub struct Said {
    node: NodeNo,
    stage: Stage,
    session: SessionNo,
    term: Term,
    step: StageStep,
}

impl Said {
    /// Has the board make the step of the stage for which the gate was passed.
    pub fn ask<R: Wait, B: Steps>(
        rt: &R,
        board: &B,
        passed: Passed,
        session: SessionNo,
        term: Term,
    ) -> Said
        ensures place { (result.node ≡ passed.node) × (result.stage ≡ passed.stage) }
        ensures request { (result.session ≡ session) × (result.term ≡ term) }
    {
        let Passed { node, stage } = passed;
        let step = match board.stage_step(rt, node, term, stage, session) {
            StageStep::Held => held_step(rt, board, node, term),
            step => step,
        };
        Said {
            node,
            stage,
            session,
            term,
            step,
        }
    }

    /// What became of the request.
    pub fn step(&self) -> StageStep
        ensures { result ≡ self.now.step }
    {
        self.step
    }

    /// The session whose request it is.
    pub fn session(&self) -> SessionNo
        ensures { result ≡ self.now.session }
    {
        self.session
    }

    /// The request has not ended, and is asked for once more, or its ticket is left.
    pub fn goes_on(self)
        requires { ends self.step ≡ false }
    {
        self.heeded();
    }

    /// The stage is held, or an earlier commit is not settled: it asks again.
    pub fn again(self)
        requires { is_over self.step ≡ false }
    {
        self.heeded();
    }

    /// It was followed.
    pub fn heeded(self) {
        let Said {
            node: _node,
            stage: _stage,
            session: _session,
            term: _term,
            step: _step,
        } = self;
    }
}

// The board says Held wherever the stage is held, also of what is not there any more. A held stage keeps nothing of an instance
// that is gone.
fn held_step<R: Wait, B: Steps>(rt: &R, board: &B, node: NodeNo, term: Term) -> StageStep {
    let found = board.term_of(rt, node);
    if found == Some(term) {
        StageStep::Held
    } else {
        StageStep::Stale { found }
    }
}
