ghost use Rattle.std.specs.Prelude.{◌≡◌, [], ◌≤◌, ◌↔◌, IsOk, IfOk, IfErr, IsTrue, sum_by, vec_len, length, map};
ghost use Rattle.stamp_base.specs.declared.limits.TheConstants.{LINE_LIMIT};
ghost use Rattle.history_book.specs.Isolation.{Isolated};
ghost use Rattle.cause_rules.specs.Explained.{Explained};
ghost use Rattle.cause_rules.specs.Strict.{SerialIfStrict};
ghost use Rattle.session_script.specs.Script.{data_of};
ghost use Rattle.command_semantics.specs.Answers.{AnswersOnThreads};
ghost use Rattle.command_semantics.specs.Planned.{Planned};
ghost use Rattle.service_rules.specs.Service.{KeepsService};
ghost use Rattle.turn_rules.specs.Told.{AreForThreads};
ghost use Rattle.turn_rules.specs.Carried.{carried_items};
ghost use Rattle.thread_steps.specs.Done.{all_done, first_cursor};
ghost use Rattle.thread_scripts.specs.Actors.{actors_of, AreBehind, AreAtTheirEnds};
ghost use Rattle.turn_rules.specs.Laws.{IsPlannedSoFar};
ghost use Rattle.run_board.specs.Run.{reached_by};
ghost use Rattle.machine.specs.Readers.{term_of};
ghost use Rattle.run_board.specs.Steps.{place_of, state_of, IsStageHeld, LacksOnlyThere};
ghost use Rattle.thread_steps.specs.Going.{GoesOn};
ghost use Rattle.run_board.specs.Playing.{Advances, Serves, AreCounted, IsOver, IsResult};
ghost use Rattle.run_board.specs.SoFar.{AreAnsweredSoFar};

use crate::answers::Advance;
use crate::laws::{advances_go_further, ended_runs_are_whole, stage_steps_go_further};
use crate::run::ScriptRun;
use crate::sessions::see_sessions;
use cluster_core::Cluster;
use history_book::Item;
use script_service::turns_keep_service;
use session_script::Script;
use stamp_base::{NoMemory, NodeNo, SessionNo, Stage, Term};
use std::alloc::Global;
use std::marker::Model;
use std::sync::ledger::Ledger;
use thread_scripts::is_same;
use thread_steps::{ActorShare, Cursors, StageStep};
use turn_rules::{
    Turn, turns_answer, turns_answer_so_far, turns_are_planned, turns_are_planned_so_far,
};

/// What lies under the lock: the script, the turns that were made of it and what stands after them, and how many lines of each
/// actor are done.
#[derive(Drop)]
pub struct Play<L: Ledger> {
    pub(crate) run: ScriptRun,
    cursors: Cursors<L>,
}

impl<L: Ledger> Model for Play<L> {
    ghost use Rattle.run_board.specs.Playing.{Played, IsKeptPlay};

    ghost Value = { Played };

    ghost view = { λ p. record { ran = p.run; cursors = p.cursors } };

    ghost invariant = { λ p. IsKeptPlay p.run p.cursors };
}

impl<L: Ledger> Play<L> {
    /// No turn was made, and no line is done.
    pub(crate) fn open(
        alloc: Global,
        script: Script,
        cursors: Cursors<L>,
    ) -> Result<Play<L>, NoMemory>
        requires few { vec_len script.lines ≤ LINE_LIMIT }
        requires for_threads { AreForThreads script.lines.items }
        requires cursors { cursors ≡ map first_cursor (actors_of (data_of script)) }
        ensures script { IfOk result (λ p. p.ran.script ≡ data_of script) }
        ensures turns { IfOk result (λ p. p.ran.turns ≡ []) }
        ensures cursors { IfOk result (λ p. p.cursors ≡ cursors) }
    {
        see_sessions(script.lines.as_slice());
        let run = ScriptRun::open(alloc, script)?;
        Ok(Play { run, cursors })
    }

    /// The history that the turns have made, at every moment. It is isolated, each of its refusals is shown by what stands before
    /// it, and where the setup asks for strict reads it is serial. Every line that an actor has passed is answered, and so is each
    /// line before a cursor, since no cursor is ahead of its actor; nor does one lack a line that its actor had passed with a turn
    /// of its own. Faults, ticks and readings are those that the script plans.
    pub fn history(&self) -> &[Item]
        ensures value { result.now ≡ carried_items self.now.ran.script self.now.ran.turns }
        ensures isolated { Isolated result.now }
        ensures explained { Explained self.now.ran.script.setup result.now }
        ensures serial { SerialIfStrict self.now.ran.script.setup result.now }
        ensures answered { AreAnsweredSoFar self.now.ran }
        ensures behind { AreBehind (place_of self.now.ran) self.now.cursors }
        ensures counted { AreCounted self.now.ran self.now.cursors }
        ensures planned { IsPlannedSoFar self.now.ran.script (reached_by self.now.ran) }
    {
        turns_answer_so_far();
        turns_are_planned_so_far();
        self.run.history()
    }

    /// Makes the next event of the present line of the share's actor, unless it waits or no line is left: where the line names the
    /// master, it asks the node at which the share is aimed, or the first where that node has not taken the record. The share
    /// counts the lines that were passed since.
    pub fn advance(&mut self, mine: &mut ActorShare<L>) -> Advance
        ensures made { Advances self.old mine.old result self.new mine.new }
        ensures goes_on { GoesOn mine.old mine.new }
    {
        advances_go_further();
        let actor = mine.actor();
        let aim = mine.aimed();
        match self.run.advance(actor, aim) {
            Advance::NoMemory => Advance::NoMemory,
            answer => {
                let place = self.run.place(&actor) as u64;
                self.cursors.catch_up(mine, place);
                answer
            }
        }
    }

    /// Makes one event of the node's stage for the session's request, unless the stage is held, or the request is not there. Memory
    /// may be refused only where the request is accepted, or where it stands before its decision and the range is extended, which
    /// is used up, as a session whose request waits there was told: this one or another.
    pub fn stage_step(
        &mut self,
        node: NodeNo,
        term: Term,
        stage: Stage,
        session: SessionNo,
    ) -> StageStep
        ensures made { Serves self.old node term stage session result self.new }
        ensures memory { LacksOnlyThere self.old.ran node stage session result }
    {
        stage_steps_go_further();
        self.run.stage_step(node, term, stage, session)
    }

    /// The term of the node's oracle, if it has one.
    pub fn term_of(&self, node: NodeNo) -> Option<Term>
        ensures { result ≡ term_of (state_of self.now.ran) node }
    {
        self.run.term_of(node)
    }

    /// Whether the node's stage is held.
    pub fn is_held(&self, node: NodeNo, stage: Stage) -> bool
        ensures { result ≡ IsStageHeld self.now.ran node stage }
    {
        self.run.is_held(node, stage)
    }

    /// How many turns were made.
    pub fn turns_made(&self) -> usize
        ensures { result ≡ length self.now.ran.turns }
    {
        self.run.turns_made()
    }

    /// The cluster and the turns that led there. Err exactly where a share is missing, a line is left at some cursor, or the
    /// script is another; all is handed back then.
    pub fn finish(
        self,
        script: &Script,
        shares: Vec<ActorShare<L>>,
    ) -> Result<(Cluster, Vec<Turn>), (Play<L>, Vec<ActorShare<L>>)>
        ensures over { IsOk result ↔ IsOver (data_of script.now) self shares.items }
        ensures result { IfOk result (λ r. IsResult (data_of script.now) r.0.history r.1.items) }
        ensures isolated { IfOk result (λ r. Isolated r.0.history × Explained (data_of script.now).setup r.0.history) }
        ensures serial { IfOk result (λ r. SerialIfStrict (data_of script.now).setup r.0.history) }
        ensures answered { IfOk result (λ r. AnswersOnThreads (data_of script.now) r.0.history) }
        ensures planned { IfOk result (λ r. Planned (data_of script.now) r.0.history) }
        ensures service { IfOk result (λ r. KeepsService (data_of script.now).setup r.0.history) }
        ensures counted { IfOk result (λ r. sum_by (λ s. s.amount) shares.items ≡ all_done self.cursors) }
        ensures back { IfErr result (λ r. (r.0 ≡ self) × (r.1.items ≡ shares.items)) }
    {
        if !self.is_over(script, shares.as_slice()) {
            return Err((self, shares));
        }
        Ok(self.close(shares))
    }

    fn is_over(&self, script: &Script, shares: &[ActorShare<L>]) -> bool
        ensures { IsTrue result ↔ IsOver (data_of script.now) self.now shares.now }
    {
        shares.len() == self.cursors.as_slice().len()
            && is_same(self.run.script(), script)
            && self.are_at_their_ends()
    }

    // Whether no actor has a line behind its cursor. An actor's lines were counted when it sat down.
    fn are_at_their_ends(&self) -> bool
        ensures { IsTrue result ↔ AreAtTheirEnds self.now.ran.script self.now.cursors }
    {
        let run = &self.run;
        self.cursors
            .as_slice()
            .iter()
            .all(|cursor| run.ends_at(&cursor.actor, cursor.done))
    }

    fn close(self, shares: Vec<ActorShare<L>>) -> (Cluster, Vec<Turn>)
        requires shares { vec_len shares ≡ length self.cursors }
        requires ends { AreAtTheirEnds self.ran.script self.cursors }
        ensures result { IsResult self.ran.script result.0.history result.1.items }
        ensures isolated { Isolated result.0.history × Explained self.ran.script.setup result.0.history }
        ensures serial { SerialIfStrict self.ran.script.setup result.0.history }
        ensures answered { AnswersOnThreads self.ran.script result.0.history }
        ensures planned { Planned self.ran.script result.0.history }
        ensures service { KeepsService self.ran.script.setup result.0.history }
        ensures counted { sum_by (λ s. s.amount) shares.items ≡ all_done self.cursors }
    {
        ended_runs_are_whole();
        turns_answer();
        turns_are_planned();
        turns_keep_service();
        let Play { run, cursors } = self;
        cursors.audit(shares);
        let _history = run.history();
        run.into_parts()
    }
}
