// What a round over a script's actors and stages has asked the board for.
ghost use Rattle.std.specs.Prelude.{◌≡◌, ◌+◌, ◌<◌, ◌≤◌, ◌^◌, ◌||◌, IfOk, true};
ghost use Rattle.run_driver.specs.Rounds.{is_made, step_of};

use history_book::{Actor, Cause};
use stamp_base::{NoMemory, NodeNo, SessionNo, Stage};
use std::sync::Wait;
use std::sync::ledger::Ledger;
use thread_steps::{ActorShare, ActorStep, ActorSteps, StageStep, Steps};

/// How far a round has come.
#[derive(Drop)]
pub struct Round {
    // How many actors go no further now.
    actors: u64,
    // How many steps of stages were asked for.
    steps: u64,
    made: bool,
}

impl Round {
    /// Nobody was asked.
    pub fn none() -> Round
        ensures { (result.actors ≡ 0) × (result.steps ≡ 0) }
    {
        Round {
            actors: 0,
            steps: 0,
            made: false,
        }
    }

    /// Whether an event was made in it, or a share came up.
    pub fn made(&self) -> bool
        ensures { result ≡ self.now.made }
    {
        self.made
    }

    /// With the share's actor, which goes no further now.
    pub fn add_actor<L: Ledger>(&mut self, mine: &ActorShare<L>, stands: Stands)
        requires actor { stands.actor ≡ mine.now.actor }
        requires few { self.old.actors < 2 ^ 63 }
        ensures { self.new ≡ record self.old { actors = self.old.actors + 1; made = self.old.made || stands.made } }
    {
        let _mine = mine;
        self.actors += 1;
        self.made |= stands.made;
    }

    /// With the next step of a stage.
    pub fn add_step(&mut self, asked: Asked)
        requires next { step_of asked ≡ self.old.steps }
        ensures { self.new ≡ record self.old { steps = self.old.steps + 1; made = self.old.made || asked.made } }
    {
        self.steps += 1;
        self.made |= asked.made;
    }
}

/// That an actor goes no further now. Nobody but `carry_on` has one to show.
#[derive(Drop)]
pub struct Stands {
    actor: Actor,
    // Whether an event was made, or the share came up.
    made: bool,
}

/// Makes the events of the share's actor until its line waits or none is left. A share may come up with no event: its last line was
/// brought to its end by the step of a stage. NoMemory where memory is refused.
pub fn carry_on<L: Ledger, R: Wait, B: Steps + ActorSteps<L>>(
    rt: &R,
    board: &B,
    nodes: u64,
    mine: &mut ActorShare<L>,
) -> Result<Stands, NoMemory>
    ensures stands { IfOk result (λ stands. stands.actor ≡ mine.old.actor) }
    ensures risen { IfOk result (λ stands. mine.old.amount < mine.new.amount → stands.made ≡ true) }
    ensures no_fall { mine.old.amount ≤ mine.new.amount }
    ensures actor { mine.new.actor ≡ mine.old.actor }
{
    let actor = mine.actor();
    let before = mine.done();
    let mut did = false;
    for _ in rt.forever() {
        if let Actor::Session(_) = actor {
            aim_at_master(rt, board, nodes, mine);
        }
        match board.actor_step(rt, mine) {
            ActorStep::Did { .. } => did = true,
            ActorStep::Waits | ActorStep::Ended => return Ok(standing(mine, before, did)),
            ActorStep::NoMemory => return Err(NoMemory),
        }
    }
    unreachable!()
}

// That the share's actor goes no further, which did count so many lines before.
fn standing<L: Ledger>(mine: &ActorShare<L>, before: u64, did: bool) -> Stands
    ensures actor { result.actor ≡ mine.now.actor }
    ensures risen { before < mine.now.amount → result.made ≡ true }
{
    Stands {
        actor: mine.actor(),
        made: did || before < mine.done(),
    }
}

// The node whose oracle has the greatest term. Where there is none the share stays aimed as it was.
fn aim_at_master<L: Ledger, R: Wait, B: Steps>(
    rt: &R,
    board: &B,
    nodes: u64,
    mine: &mut ActorShare<L>,
)
    ensures { (mine.new.actor ≡ mine.old.actor) × (mine.new.amount ≡ mine.old.amount) }
{
    let mut greatest = 0;
    for number in 0..nodes {
        if let Some(node) = NodeNo::new(number) {
            let term = board.term_of(rt, node).map_or(0, |term| term.value());
            if term > greatest {
                greatest = term;
                mine.aim(node);
            }
        }
    }
}

/// That the board was asked for a step of a stage, unless the node has no oracle. Nobody but `ask` has one to show.
#[derive(Drop)]
pub struct Asked {
    node: NodeNo,
    session: SessionNo,
    stage: Stage,
    made: bool,
}

/// Asks the board for the stage's step for the session's request, under the term of the node's oracle. NoMemory where memory is
/// refused.
pub fn ask<R: Wait, B: Steps>(
    rt: &R,
    board: &B,
    node: NodeNo,
    session: SessionNo,
    stage: Stage,
) -> Result<Asked, NoMemory>
    ensures { IfOk result (λ asked. (asked.node ≡ node) × (asked.session ≡ session) × (asked.stage ≡ stage)) }
{
    let made = match board.term_of(rt, node) {
        Some(term) => match board.stage_step(rt, node, term, stage, session) {
            StageStep::NoMemory => return Err(NoMemory),
            step => is_made(&step),
        },
        None => false,
    };
    Ok(Asked {
        node,
        session,
        stage,
        made,
    })
}

// A request that waits for an earlier commit makes nothing by itself.
fn is_made(step: &StageStep) -> bool
    ensures { result ≡ is_made step.now }
{
    !matches!(
        step,
        StageStep::Held
            | StageStep::Stale { .. }
            | StageStep::Refused(Cause::NotYet { .. })
            | StageStep::NoMemory
    )
}
