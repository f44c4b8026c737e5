// What stands for the board: requests that go from step to step as the stages ask.
use reply_pipeline::{StageStep, Steps};
use stamp_base::{NoMemory, NodeNo, SessionNo, Stage, Stamp, Term};
use std::alloc::Global;
use std::sync::{Mutex, Wait};

/// A step that was made.
#[derive(Clone, Copy, Debug, PartialEq, Eq)]
pub struct Made {
    pub node: NodeNo,
    pub stage: Stage,
    pub session: SessionNo,
}

/// Makes the steps of one commit of each session, in their order, and notes them. One stage may be told something else.
#[derive(Drop)]
pub struct Fake {
    made: Mutex<Vec<Made>>,
    instead: Option<(Stage, StageStep)>,
    held: Option<SessionNo>,
    direct: bool,
}

impl Fake {
    /// All memory is taken here.
    pub fn open(alloc: Global, instead: Option<(Stage, StageStep)>) -> Result<Fake, NoMemory> {
        Ok(Fake {
            made: Mutex::new(Vec::with_capacity(alloc, 16)?),
            instead,
            held: None,
            direct: false,
        })
    }

    /// The same, with every stage held for this session.
    pub fn holding(self, session: SessionNo) -> Fake {
        Fake {
            held: Some(session),
            ..self
        }
    }

    /// The same, where sessions place their commits: a commit that is decided is answered.
    pub fn placed_by_sessions(self) -> Fake {
        Fake {
            direct: true,
            ..self
        }
    }

    /// How many steps were made.
    pub fn count<R: Wait>(&self, rt: &R) -> usize {
        self.made.lock(rt).len()
    }

    /// The steps, in the order in which they were made.
    pub fn into_made(self) -> Vec<Made> {
        self.made.into_inner()
    }

    fn answer(&self, stage: Stage, session: SessionNo, before: usize) -> StageStep {
        match self.instead {
            _ if self.held == Some(session) => StageStep::Held,
            Some((at, answer)) if at == stage => answer,
            _ if self.direct => next_direct_step(stage, before),
            _ => next_step(stage, before),
        }
    }
}

impl Steps for Fake {
    fn stage_step<R: Wait>(
        &self,
        rt: &R,
        node: NodeNo,
        _term: Term,
        stage: Stage,
        session: SessionNo,
    ) -> StageStep {
        let mut made = self.made.lock(rt);
        let before = steps_of(&made, session);
        let answer = self.answer(stage, session, before);
        if is_made(&answer)
            && made
                .push(Made {
                    node,
                    stage,
                    session,
                })
                .is_err()
        {
            return StageStep::NoMemory;
        }
        answer
    }

    fn term_of<R: Wait>(&self, _rt: &R, _node: NodeNo) -> Option<Term> {
        Some(Term::FIRST)
    }

    fn is_held<R: Wait>(&self, _rt: &R, _node: NodeNo, _stage: Stage) -> bool {
        false
    }

    fn turns_made<R: Wait>(&self, _rt: &R) -> usize {
        0
    }
}

// The step of a commit of which so many steps were made: it is accepted, decided, put and answered.
fn next_step(stage: Stage, before: usize) -> StageStep {
    match (stage, before) {
        (Stage::Request, 0) => StageStep::Went,
        (Stage::Request, 1) => StageStep::Did {
            start: Stamp::FIRST,
            commit: Some(Stamp::LAST),
        },
        (Stage::Persist, 2) => StageStep::Settled,
        (Stage::Reply, 3) => StageStep::Answered,
        _ => StageStep::Stale { found: None },
    }
}

// The same, where its session is to place the commit: the reply stage comes next, and nothing is put.
fn next_direct_step(stage: Stage, before: usize) -> StageStep {
    match (stage, before) {
        (Stage::Request, _) => next_step(stage, before),
        (Stage::Reply, 2) => StageStep::Answered,
        _ => StageStep::Stale { found: None },
    }
}

fn steps_of(made: &[Made], session: SessionNo) -> usize {
    made.iter().filter(|step| step.session == session).count()
}

fn is_made(step: &StageStep) -> bool {
    !matches!(
        step,
        StageStep::Held | StageStep::Stale { .. } | StageStep::NoMemory
    )
}
