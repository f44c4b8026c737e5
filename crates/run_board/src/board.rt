ghost use Rattle.std.specs.Prelude.{◌≡◌, ◌≤◌, IfOk, IfErr, map, vec_len};
ghost use Rattle.stamp_base.specs.declared.limits.TheConstants.{LINE_LIMIT};
ghost use Rattle.history_book.specs.Isolation.{Isolated};
ghost use Rattle.cause_rules.specs.Explained.{Explained};
ghost use Rattle.cause_rules.specs.Strict.{SerialIfStrict};
ghost use Rattle.session_script.specs.Script.{data_of};
ghost use Rattle.command_semantics.specs.Answers.{AnswersOnThreads};
ghost use Rattle.command_semantics.specs.Planned.{Planned};
ghost use Rattle.service_rules.specs.Service.{KeepsService};
ghost use Rattle.turn_rules.specs.Told.{AreForThreads};
ghost use Rattle.thread_steps.specs.Done.{parts_for, fresh};
ghost use Rattle.thread_scripts.specs.Actors.{actors_of};
ghost use Rattle.thread_steps.specs.Going.{GoesOn};
ghost use Rattle.run_board.specs.Playing.{IsResult, LacksAtRequest};

use crate::answers::Advance;
use crate::play::Play;
use crate::stretch::without_why;
use cluster_core::Cluster;
use session_script::Script;
use stamp_base::{NoMemory, NodeNo, SessionNo, Stage, Term};
use std::alloc::Global;
use std::hint::spin_loop;
use std::sync::atomic::{AtomicBool, Ordering};
use std::sync::ledger::{Blank, Ledger};
use std::sync::{Mutex, MutexGuard, Wait};
use std::thread::yield_now;
use thread_scripts::{actors_with_lines, copied};
use thread_steps::{ActorShare, ActorStep, ActorSteps, Cursors, StageStep, Steps};
use turn_rules::Turn;

/// How often a thread tries for the lock before it sleeps.
const TRIES: u64 = 100;

/// How many pauses lie between two tries of a thread that keeps its processor. They take about as long as a yield that comes back
/// at once.
const PAUSES: u64 = 10;

/// A play behind a lock, and its script once more.
#[derive(Drop)]
pub struct Board<L: Ledger> {
    play: Mutex<Play<L>>,
    script: Script,
    // Whether who finds the lock taken may give its processor away.
    yields: AtomicBool,
}

impl<L: Ledger> Board<L> {
    /// A board, and one share for each actor with lines, in the order clock, janitor, nodes, sessions. The blank has as many parts
    /// as that, or one where no actor has a line. NoMemory where memory is refused.
    pub fn open(
        alloc: Global,
        script: Script,
        blank: Blank,
    ) -> Result<(Board<L>, Vec<ActorShare<L>>), NoMemory>
        requires name { blank.name ≡ L.name }
        requires of_blank { blank.parts ≡ L.parts }
        requires parts { L.parts ≡ parts_for (actors_of (data_of script)) }
        requires few { vec_len script.lines ≤ LINE_LIMIT }
        requires for_threads { AreForThreads script.lines.items }
        ensures script { IfOk result (λ r. data_of r.0.script ≡ data_of script) }
        ensures shares { IfOk result (λ r. r.1.items ≡ map fresh (actors_of (data_of script))) }
    {
        let actors = actors_with_lines(alloc, &script)?;
        let copy = copied(alloc, &script)?;
        let (cursors, shares) = Cursors::open(alloc, actors.as_slice(), blank)?;
        let play = Play::open(alloc, copy, cursors)?;
        Ok((Board::of(play, script), shares))
    }

    fn of(play: Play<L>, script: Script) -> Board<L>
        ensures { data_of result.script ≡ data_of script }
    {
        Board {
            play: Mutex::new(play),
            script,
            yields: AtomicBool::new(false),
        }
    }

    /// The script that is carried out.
    pub fn script(&self) -> &Script
        ensures { data_of result.now ≡ data_of self.now.script }
    {
        &self.script
    }

    // The play, once nobody else has it. An event takes about a microsecond, and to sleep and be woken several; so who finds the
    // lock taken tries again some times before it sleeps.
    fn taken<R: Wait>(&self, rt: &R) -> MutexGuard<'_, Play<L>> {
        for _try in 0..TRIES {
            if let Some(play) = self.play.try_lock() {
                return play;
            }
            self.give_way();
        }
        self.play.lock(rt)
    }

    // Beside busy processes a thread that gives its processor away may get it back only after milliseconds.
    fn give_way(&self) {
        if self.yields.load(Ordering::SeqCst) {
            yield_now();
            return;
        }
        for _pause in 0..PAUSES {
            spin_loop();
        }
    }

    /// Makes the next event of the present line of the share's actor, as `Play::advance` does.
    pub fn advance<R: Wait>(&self, rt: &R, mine: &mut ActorShare<L>) -> Advance
        ensures { GoesOn mine.old mine.new }
    {
        self.taken(rt).advance(mine)
    }

    /// The cluster and the turns that led there, as `Play::finish` gives them. At Err all is handed back.
    pub fn finish(
        self,
        shares: Vec<ActorShare<L>>,
    ) -> Result<(Cluster, Vec<Turn>), (Board<L>, Vec<ActorShare<L>>)>
        ensures result { IfOk result (λ r. IsResult (data_of self.script) r.0.history r.1.items) }
        ensures isolated { IfOk result (λ r. Isolated r.0.history × Explained (data_of self.script).setup r.0.history) }
        ensures serial { IfOk result (λ r. SerialIfStrict (data_of self.script).setup r.0.history) }
        ensures answered { IfOk result (λ r. AnswersOnThreads (data_of self.script) r.0.history) }
        ensures planned { IfOk result (λ r. Planned (data_of self.script) r.0.history) }
        ensures service { IfOk result (λ r. KeepsService (data_of self.script).setup r.0.history) }
        ensures back { IfErr result (λ r. (data_of r.0.script ≡ data_of self.script) × (r.1.items ≡ shares.items)) }
    {
        let Board { play, script, .. } = self;
        match play.into_inner().finish(&script, shares) {
            Ok(made) => Ok(made),
            Err((play, shares)) => Err((Board::of(play, script), shares)),
        }
    }
}

impl<L: Ledger> ActorSteps<L> for Board<L> {
    /// Makes the next event of the present line of the share's actor, and leaves out why a line waits.
    fn actor_step<R: Wait>(&self, rt: &R, mine: &mut ActorShare<L>) -> ActorStep {
        without_why(self.advance(rt, mine))
    }

    /// Makes events of the actor's lines one after the other, and has what they ask served, under one taking of the lock, as
    /// `Play::stretch` does.
    fn actor_stretch<R: Wait>(&self, rt: &R, mine: &mut ActorShare<L>) -> ActorStep {
        // A stretch lasts longer than it takes to sleep and be woken.
        self.play.lock(rt).stretch(mine)
    }
}

impl<L: Ledger> Steps for Board<L> {
    /// Makes one event of the node's stage for the session's request, as `Play::stage_step` does. A stage that persists or replies
    /// is never refused memory.
    fn stage_step<R: Wait>(
        &self,
        rt: &R,
        node: NodeNo,
        term: Term,
        stage: Stage,
        session: SessionNo,
    ) -> StageStep
        ensures memory { LacksAtRequest stage result }
    {
        self.taken(rt).stage_step(node, term, stage, session)
    }

    /// The term of the node's oracle, if it has one, as `Play::term_of` tells it.
    fn term_of<R: Wait>(&self, rt: &R, node: NodeNo) -> Option<Term> {
        self.taken(rt).term_of(node)
    }

    /// Whether the node's stage is held, as `Play::is_held` tells it.
    fn is_held<R: Wait>(&self, rt: &R, node: NodeNo, stage: Stage) -> bool {
        self.taken(rt).is_held(node, stage)
    }

    /// How many turns were made so far, as `Play::turns_made` tells it.
    fn turns_made<R: Wait>(&self, rt: &R) -> usize {
        self.taken(rt).turns_made()
    }

    fn let_yield(&self, may: bool) {
        if self.yields.load(Ordering::SeqCst) != may {
            self.yields.store(may, Ordering::SeqCst);
        }
    }
}
