ghost use Rattle.std.specs.Prelude.{◌≡◌, ◌≢◌, ◌<◌, ◌∷◌, ◌++◌, [], None, Some, IfOk, length};
ghost use Rattle.stamp_base.specs.declared.stage.Stage.TheVariants.{Request};
ghost use Rattle.reply_pipeline.specs.Requesting.{entry_of};
ghost use Rattle.reply_pipeline.specs.Telling.{drawn_by, is_over, is_short, IsSaidFor, IsSaidOf};
ghost use Rattle.history_book.specs.declared.item.Actor.TheVariants.{Session};
ghost use Rattle.stage_queues.specs.declared.spot.Row.TheVariants.{Actors};
ghost use Rattle.stage_queues.specs.Places.{place_of};
ghost use Rattle.stage_queues.specs.Spots.{senders_to, spot, whom};

use crate::ending::Ending;
use crate::gate::{Gate, GateWay};
use crate::said::{Passed, Said};
use batch_pool::{Batch, Entry};
use history_book::{Actor, Cause};
use stage_queues::{Heard, Queues, Rung, Ticket, Waiter};
use stamp_base::{NodeNo, SessionNo, Stage, Stamp, Term};
use std::sync::Wait;
use thread_steps::{StageStep, Steps};

/// The entry of a request that was drawn, until it is entered in a batch.
#[derive(Drop)]
pub struct Loose {
    entry: Option<Entry>,
}

impl Loose {
    /// Nothing is drawn.
    pub fn none() -> Loose
        ensures { result.entry ≡ None }
    {
        Loose { entry: None }
    }

    // What the step drew.
    fn take(&mut self, ticket: &Ticket, step: &StageStep)
        requires { self.old.entry ≡ None }
        ensures { self.new.entry ≡ drawn_by ticket.now step.now }
    {
        match step {
            StageStep::Did { start, commit } => {
                self.entry = Some(entry_of(ticket, *start, *commit));
            }
            _ => {}
        }
    }

    /// Enters it.
    pub fn enter(&mut self, batch: &mut Batch, entry: Entry)
        requires room { length batch.old.entries ≢ batch.old.room }
        requires entry { self.old.entry ≡ Some entry }
        ensures entered { batch.new ≡ record batch.old { entries = batch.old.entries ++ entry ∷ [] } }
        ensures none { self.new.entry ≡ None }
    {
        self.entry = None;
        match batch.push(entry) {
            Ok(()) => {}
            Err(_) => unreachable!(),
        }
    }
}

/// Where a stage of a node works, and what its three stages do alike.
#[derive(Drop)]
pub struct Desk<'a, B: Steps, G: Gate> {
    /// The node.
    pub node: NodeNo,
    /// The board that is asked for each step.
    pub board: &'a B,
    /// The queues of all nodes.
    pub queues: &'a Queues,
    /// The gate that is passed before each step.
    pub gate: &'a G,
}

impl<B: Steps, G: Gate> Desk<'_, B, G> {
    /// The request stage's next step for a ticket's request. What is drawn is loose from then on.
    pub fn draw<R: Wait>(&self, rt: &R, ticket: &Ticket, loose: &mut Loose) -> Said
        requires { loose.old.entry ≡ None }
        ensures loose { loose.new.entry ≡ drawn_by ticket.now result.step }
        ensures said { IsSaidFor Request ticket.now result }
    {
        let said = self.step(rt, Stage::Request, ticket.session, ticket.term);
        loose.take(ticket, &said.step());
        said
    }

    // Passes the gate, and makes the stage's next step for a request.
    fn step<R: Wait>(&self, rt: &R, stage: Stage, session: SessionNo, term: Term) -> Said
        ensures place { (result.node ≡ self.now.node) × (result.stage ≡ stage) }
        ensures request { (result.session ≡ session) × (result.term ≡ term) }
    {
        let passed = Passed::at(rt, self.gate, self.node, stage);
        Said::ask(rt, self.board, passed, session, term)
    }

    /// Makes the stage's step for an entry's request, again and again while the stage is held or a commit below the request's start
    /// is not settled. A request that is not there any more is passed over. An Ending where the stage is to end: the queues are
    /// closed, or memory was refused.
    pub fn step_in_turn<R: Wait>(
        &self,
        rt: &R,
        stage: Stage,
        worker: u64,
        entry: &Entry,
    ) -> Result<Said, Ending>
        requires { stage ≢ Request }
        ensures { IfOk result (IsSaidOf stage entry.now) }
    {
        for _ in rt.forever() {
            let said = self.step(rt, stage, entry.session, entry.term);
            let step = said.step();
            if is_over(&step) {
                return Ok(said);
            }
            if is_short(&step) {
                return Err(Ending::short(said));
            }
            said.again();
            self.wait(rt, stage, worker)?;
        }
        unreachable!()
    }

    /// Waits until the stage is woken, and ends it where the queues are closed.
    pub fn wait<R: Wait>(&self, rt: &R, stage: Stage, worker: u64) -> Result<(), Ending> {
        self.go_on()?;
        self.rest(rt, stage, worker);
        Ok(())
    }

    fn rest<R: Wait>(&self, rt: &R, stage: Stage, worker: u64) {
        let way = GateWay { gate: self.gate };
        self.queues
            .wait_giving_way(rt, &way, Waiter::Stage(self.node, stage, worker));
        self.board.let_yield(self.gate.yields());
    }

    /// For a stage that found the queue of the next one full: asks for room, and where it has asked since it last waited, waits
    /// until it is woken. Ends the stage where the queues are closed.
    pub fn wait_for_room<R: Wait>(
        &self,
        rt: &R,
        stage: Stage,
        worker: u64,
        asked: bool,
    ) -> Result<(), Ending> {
        if asked {
            return self.wait(rt, stage, worker);
        }
        self.go_on()?;
        self.queues.ask_for_room(self.node, next_of(stage));
        Ok(())
    }

    /// The stage has received something, so that there is room in its queue.
    pub fn tell_room(&self, stage: Stage) -> Heard
        requires { self.now.node < length self.now.queues.now.nodes }
        ensures { result.whom.row ≡ senders_to self.now.node stage }
    {
        self.queues.tell_room(self.node, stage)
    }

    fn go_on(&self) -> Result<(), Ending> {
        Ending::where_closed(self.queues)
    }

    /// Waits until the tickets that are there are to be taken, or the queues are closed.
    pub fn gather<R: Wait>(&self, rt: &R) {
        for _ in rt.forever() {
            if self.queues.is_due(self.node) || self.queues.closed() {
                return;
            }
            self.rest(rt, Stage::Request, 0);
        }
        unreachable!()
    }

    /// For a request stage that found the pool out: asks for a batch, and where it has asked since it last waited, waits until it
    /// is woken. Ends the stage where the queues are closed.
    pub fn wait_for_empty<R: Wait>(&self, rt: &R, asked: bool) -> Result<(), Ending> {
        if asked {
            return self.wait(rt, Stage::Request, 0);
        }
        self.go_on()?;
        self.queues.ask_for_batch(self.node);
        Ok(())
    }

    /// For a persist worker that found no batch: tells that it is going to wait, and where it has told so already, waits until it
    /// is woken. Ends the stage where the queues are closed.
    pub fn wait_for_batch<R: Wait>(&self, rt: &R, worker: u64) -> Result<(), Ending> {
        if self.queues.rest_for_batch(self.node, worker) {
            return self.wait(rt, Stage::Persist, worker);
        }
        self.go_on()
    }

    /// Wakes the session's thread where its line waits for the stamp that was drawn.
    pub fn tell_stamp(&self, said: &Said) -> Heard
        ensures { result.whom ≡ whom Actors (place_of (Session said.now.session)) 1 }
    {
        self.queues.tell_stamp(said.session())
    }

    /// Wakes the session's thread, of whose request that was said.
    pub fn wake_session(&self, said: &Said) -> Rung
        ensures { result.spot ≡ spot Actors (place_of (Session said.now.session)) }
    {
        self.queues.wake_actor(Actor::Session(said.session()))
    }
}

/// The entry of a ticket whose request is drawn.
pub fn entry_of(ticket: &Ticket, start: Stamp, commit: Option<Stamp>) -> Entry
    ensures { result ≡ entry_of ticket.now start commit }
{
    Entry {
        session: ticket.session,
        term: ticket.term,
        start,
        commit,
    }
}

// Whether the stage is through with a request after this step. Otherwise it is held, an earlier commit is not settled, or memory
// was refused.
fn is_over(step: &StageStep) -> bool
    ensures { result ≡ is_over step.now }
{
    match step {
        StageStep::Held | StageStep::NoMemory => false,
        StageStep::Refused(cause) => !matches!(cause, Cause::NotYet { .. }),
        _ => true,
    }
}

// Whether memory was refused.
fn is_short(step: &StageStep) -> bool
    ensures { result ≡ is_short step.now }
{
    match step {
        StageStep::NoMemory => true,
        _ => false,
    }
}

// The stage to which one sends its batches.
fn next_of(stage: Stage) -> Stage {
    match stage {
        Stage::Request => Stage::Persist,
        Stage::Persist | Stage::Reply => Stage::Reply,
    }
}
