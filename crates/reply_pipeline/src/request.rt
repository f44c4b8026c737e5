// The request stage: serves tickets until each request is drawn or has ended, and sends what was drawn on in batches. What is drawn
// does not wait for a stage that is held.
ghost use Rattle.std.specs.Prelude.{◌≡◌, ◌+◌, ◌<◌, [], length, None, Some, IfOk, IfSome, MatchResult};
ghost use Rattle.reply_pipeline.specs.Requesting.{AreNumbered, batches_at, IsRequestPass, IsUnused, EntersTickets, IsRequesting, HasRequested, Enters, EntersLeft, MayEnter, MayStill, GoesOnWith, KeepsLeft, IsServed, ticket_of};
ghost use Rattle.reply_pipeline.specs.Telling.{drawn_in};
ghost use Rattle.reply_pipeline.specs.Serving.{ends};

use crate::desk::{Desk, Loose, entry_of};
use crate::ending::{Ending, StageEnd};
use crate::gate::Gate;
use crate::taken::{Taken, leave};
use batch_pool::{Batch, Entry};
use history_book::Cause;
use persist_batches::Numbered;
use stage_queues::{Queues, StagePass};
use stamp_base::{NodeNo, Stage};
use std::sync::Wait;
use thread_steps::{StageStep, Steps};

/// What became of a ticket that was taken.
pub enum Served {
    /// Its request is drawn.
    Drawn(Entry),
    /// Its request has ended, or is not there any more.
    Ended,
    /// The stage is held.
    Held(Taken),
}

/// Serves as the node's request stage, until the queues are closed or memory is refused. Batches are numbered from 0 on.
#[tactic(auto, using(crate::proofs::RequestLemmas::starts))]
pub fn request_stage<R: Wait, B: Steps, G: Gate>(
    rt: &R,
    node: NodeNo,
    board: &B,
    queues: &Queues,
    pass: &mut StagePass,
    gate: &G,
) -> StageEnd
    requires pass { IsRequestPass queues.now node pass.old }
    requires unused { IsUnused node pass.old }
    requires held { pass.old.held ≡ 0 }
    ensures pass { IsRequestPass queues.now node pass.new }
    ensures enters { EntersTickets node pass.new }
    ensures numbered { AreNumbered (batches_at pass.new node) }
    ensures held { pass.new.held ≡ 0 }
{
    let desk = Desk {
        node,
        board,
        queues,
        gate,
    };
    let end = serve(rt, &desk, pass);
    end.reached(queues)
}

fn serve<R: Wait, B: Steps, G: Gate>(rt: &R, desk: &Desk<'_, B, G>, pass: &mut StagePass) -> Ending
    requires { IsRequesting desk.now.queues.now desk.now.node 0 0 [] pass.old }
    ensures { HasRequested desk.now.queues.now desk.now.node pass.new }
{
    let mut left = None;
    for number in 0..u64::MAX {
        match make_batch(rt, desk, number, left, pass) {
            Ok(next) => left = next,
            Err(end) => return end,
        }
    }
    // No number is left.
    leave(left, Ending::closing(desk.queues))
}

// Gathers what is drawn next in a batch of this number, and sends it. A ticket may be left from the batch before, and from this
// one, whose request waits for a stage that is held.
fn make_batch<R: Wait, B: Steps, G: Gate>(
    rt: &R,
    desk: &Desk<'_, B, G>,
    number: u64,
    left: Option<Taken>,
    pass: &mut StagePass,
) -> Result<Option<Taken>, Ending>
    requires requesting { IsRequesting desk.now.queues.now desk.now.node number 0 [] pass.old }
    requires left { IfSome left (λ ticket. MayStill desk.now.queues.now desk.now.node number 0 [] ticket pass.old) }
    ensures { MatchResult result (λ left. GoesOnWith desk.now.queues.now desk.now.node (number + 1) left pass.new) (λ _. HasRequested desk.now.queues.now desk.now.node pass.new) }
{
    let mut loose = Loose::none();
    let entry = left_or_first(rt, desk, left, pass, &mut loose)?;
    let batch = empty_batch(rt, desk, pass)?;
    let mut batch = Numbered { number, batch };
    loose.enter(&mut batch.batch, entry);
    match fill(rt, desk, pass, &mut batch, &mut loose) {
        Ok(left) => match send(rt, desk, pass, batch, &loose) {
            Ok(()) => Ok(left),
            Err(end) => Err(leave(left, end)),
        },
        Err(end) => {
            give_back(rt, desk, pass, batch);
            Err(end)
        }
    }
}

// The entry of the ticket that is left, or else of one behind it.
fn left_or_first<R: Wait, B: Steps, G: Gate>(
    rt: &R,
    desk: &Desk<'_, B, G>,
    left: Option<Taken>,
    pass: &mut StagePass,
    loose: &mut Loose,
) -> Result<Entry, Ending>
    requires pass { IsRequestPass desk.now.queues.now desk.now.node pass.old }
    requires none { loose.old.entry ≡ None }
    ensures drawn { IfOk result (λ entry. loose.new.entry ≡ Some entry) }
    ensures enters { MatchResult result (λ entry. EntersLeft desk.now.queues.now desk.now.node left (Some entry) pass.old pass.new) (λ _. EntersLeft desk.now.queues.now desk.now.node left None pass.old pass.new) }
{
    if let Some(ticket) = left {
        match serve_ticket(rt, desk, ticket, loose)? {
            Some(entry) => return Ok(entry),
            None => {}
        }
    }
    first_entry(rt, desk, pass, loose)
}

// Waits until tickets are to be taken, and serves them until a request is drawn.
fn first_entry<R: Wait, B: Steps, G: Gate>(
    rt: &R,
    desk: &Desk<'_, B, G>,
    pass: &mut StagePass,
    loose: &mut Loose,
) -> Result<Entry, Ending>
    requires pass { IsRequestPass desk.now.queues.now desk.now.node pass.old }
    requires none { loose.old.entry ≡ None }
    ensures drawn { IfOk result (λ entry. loose.new.entry ≡ Some entry) }
    ensures enters { MatchResult result (λ entry. Enters desk.now.queues.now desk.now.node (Some entry) pass.old pass.new) (λ _. Enters desk.now.queues.now desk.now.node None pass.old pass.new) }
{
    for _ in rt.forever() {
        desk.gather(rt);
        match next_entry(rt, desk, pass, loose)? {
            Some(entry) => return Ok(entry),
            None => desk.wait(rt, Stage::Request, 0)?,
        }
    }
    unreachable!()
}

// Adds what is drawn until the batch is full, no ticket is there, or the stage is held; the ticket that waits for it then is left.
fn fill<R: Wait, B: Steps, G: Gate>(
    rt: &R,
    desk: &Desk<'_, B, G>,
    pass: &mut StagePass,
    batch: &mut Numbered,
    loose: &mut Loose,
) -> Result<Option<Taken>, Ending>
    requires requesting { IsRequesting desk.now.queues.now desk.now.node batch.old.number 1 batch.old.batch.entries pass.old }
    requires none { loose.old.entry ≡ None }
    ensures drawn { IfOk result (λ _. loose.new.entry ≡ None) }
    ensures gathered { IsRequesting desk.now.queues.now desk.now.node batch.new.number 1 batch.new.batch.entries pass.new }
    ensures number { batch.new.number ≡ batch.old.number }
    ensures left { IfOk result (λ left. IfSome left (λ ticket. MayStill desk.now.queues.now desk.now.node batch.new.number 1 batch.new.batch.entries ticket pass.new)) }
{
    for _ in rt.forever() {
        if batch.batch.is_full() {
            return Ok(None);
        }
        let Some(ticket) = receive(rt, desk, pass) else {
            return Ok(None);
        };
        match try_ticket(rt, desk, ticket, loose)? {
            Served::Drawn(entry) => loose.enter(&mut batch.batch, entry),
            Served::Ended => {}
            Served::Held(still) => return Ok(Some(still)),
        }
    }
    unreachable!()
}

// Serves tickets until a request is drawn. None where no ticket is left.
fn next_entry<R: Wait, B: Steps, G: Gate>(
    rt: &R,
    desk: &Desk<'_, B, G>,
    pass: &mut StagePass,
    loose: &mut Loose,
) -> Result<Option<Entry>, Ending>
    requires pass { IsRequestPass desk.now.queues.now desk.now.node pass.old }
    requires none { loose.old.entry ≡ None }
    ensures drawn { IfOk result (λ found. loose.new.entry ≡ found) }
    ensures pass { IsRequestPass desk.now.queues.now desk.now.node pass.new }
    ensures enters { MatchResult result (λ found. Enters desk.now.queues.now desk.now.node found pass.old pass.new) (λ _. Enters desk.now.queues.now desk.now.node None pass.old pass.new) }
{
    for _ in rt.forever() {
        match receive(rt, desk, pass) {
            Some(ticket) => match serve_ticket(rt, desk, ticket, loose)? {
                Some(entry) => return Ok(Some(entry)),
                None => {}
            },
            None => return Ok(None),
        }
    }
    unreachable!()
}

// Serves a ticket, and waits while the stage is held. None where its request has ended or is not there any more.
fn serve_ticket<R: Wait, B: Steps, G: Gate>(
    rt: &R,
    desk: &Desk<'_, B, G>,
    taken: Taken,
    loose: &mut Loose,
) -> Result<Option<Entry>, Ending>
    requires { loose.old.entry ≡ None }
    ensures drawn { IfOk result (λ found. loose.new.entry ≡ found) }
    ensures served { IfOk result (λ found. IfSome found (λ entry. ticket_of entry ≡ taken)) }
{
    let mut taken = taken;
    for _ in rt.forever() {
        match try_ticket(rt, desk, taken, loose)? {
            Served::Drawn(entry) => return Ok(Some(entry)),
            Served::Ended => return Ok(None),
            Served::Held(still) => match desk.wait(rt, Stage::Request, 0) {
                Ok(()) => taken = still,
                Err(end) => return Err(still.left(end)),
            },
        }
    }
    unreachable!()
}

// Makes the steps of a ticket's request until it is drawn or has ended, or the stage is held.
fn try_ticket<R: Wait, B: Steps, G: Gate>(
    rt: &R,
    desk: &Desk<'_, B, G>,
    taken: Taken,
    loose: &mut Loose,
) -> Result<Served, Ending>
    requires { loose.old.entry ≡ None }
    ensures drawn { IfOk result (λ served. loose.new.entry ≡ drawn_in served) }
    ensures served { IfOk result (IsServed taken) }
{
    let ticket = taken.ticket();
    for _ in rt.forever() {
        let said = desk.draw(rt, &ticket, loose);
        match said.step() {
            StageStep::Did { start, commit } => {
                let heard = desk.tell_stamp(&said);
                taken.drawn(said, loose, heard);
                return Ok(Served::Drawn(entry_of(&ticket, start, commit)));
            }
            StageStep::Held => {
                said.goes_on();
                return Ok(Served::Held(taken));
            }
            StageStep::NoMemory => return Err(taken.left(Ending::short(said))),
            step => {
                if ends(&step) {
                    let rung = desk.wake_session(&said);
                    taken.ended(said, rung);
                    return Ok(Served::Ended);
                }
                said.goes_on();
            }
        }
    }
    unreachable!()
}

// Whether the request has ended with this step, or is not there any more. A refused or faulted extension leaves it where it was.
// The causes of a refused extension also end a request, which its next step then does not find.
fn ends(step: &StageStep) -> bool
    ensures { result ≡ ends step.now }
{
    match step {
        StageStep::Held
        | StageStep::Did { .. }
        | StageStep::NoMemory
        | StageStep::Went
        | StageStep::Fault => false,
        StageStep::Refused(cause) => !matches!(
            cause,
            Cause::NoStamp { .. } | Cause::Replaced { .. } | Cause::Spent { .. }
        ),
        _ => true,
    }
}

// An empty batch, once one is at home.
fn empty_batch<R: Wait, B: Steps, G: Gate>(
    rt: &R,
    desk: &Desk<'_, B, G>,
    pass: &mut StagePass,
) -> Result<Batch, Ending>
    requires node { desk.now.node < length desk.now.queues.now.nodes }
    requires held { pass.old.held ≡ 0 }
    ensures held { MatchResult result (λ _. pass.new ≡ record pass.old { held = pass.old.held + 1 }) (λ _. pass.new ≡ pass.old) }
    ensures empty { IfOk result (λ batch. (batch.entries ≡ []) × (0 < batch.room)) }
{
    let mut asked = false;
    for _ in rt.forever() {
        if let Some(batch) = desk.queues.take_batch(rt, desk.node, pass) {
            return Ok(batch);
        }
        desk.wait_for_empty(rt, asked)?;
        asked = !asked;
    }
    unreachable!()
}

// Sends a batch, in which all is entered that was drawn, and waits while the queue is full, or gives it back where the queues are
// closed.
fn send<R: Wait, B: Steps, G: Gate>(
    rt: &R,
    desk: &Desk<'_, B, G>,
    pass: &mut StagePass,
    batch: Numbered,
    loose: &Loose,
) -> Result<(), Ending>
    requires requesting { IsRequesting desk.now.queues.now desk.now.node batch.number 1 batch.batch.entries pass.old }
    requires drawn { loose.now.entry ≡ None }
    ensures sent { MatchResult result (λ _. IsRequesting desk.now.queues.now desk.now.node (batch.number + 1) 0 [] pass.new) (λ _. HasRequested desk.now.queues.now desk.now.node pass.new) }
    ensures left { IfOk result (λ _. KeepsLeft desk.now.queues.now desk.now.node batch pass.old pass.new) }
{
    let _entered = loose;
    let mut batch = batch;
    let mut asked = false;
    for _ in rt.forever() {
        match try_send(rt, desk, pass, batch) {
            Ok(()) => return Ok(()),
            Err(back) => batch = back,
        }
        if let Err(end) = desk.wait_for_room(rt, Stage::Request, 0, asked) {
            give_back(rt, desk, pass, batch);
            return Err(end);
        }
        asked = !asked;
    }
    unreachable!()
}

fn receive<R: Wait, B: Steps, G: Gate>(
    rt: &R,
    desk: &Desk<'_, B, G>,
    pass: &mut StagePass,
) -> Option<Taken>
    requires { IsRequestPass desk.now.queues.now desk.now.node pass.old }
    ensures pass { IsRequestPass desk.now.queues.now desk.now.node pass.new }
    ensures passed { Enters desk.now.queues.now desk.now.node None pass.old pass.new }
    ensures may_enter { IfSome result (λ ticket. MayEnter desk.now.queues.now desk.now.node ticket pass.old pass.new) }
{
    match desk.queues.requests(desk.node).receive(rt, pass) {
        Some(ticket) => Some(Taken::of(ticket, desk.tell_room(Stage::Request))),
        None => None,
    }
}

fn try_send<R: Wait, B: Steps, G: Gate>(
    rt: &R,
    desk: &Desk<'_, B, G>,
    pass: &mut StagePass,
    batch: Numbered,
) -> Result<(), Numbered>
    requires { IsRequesting desk.now.queues.now desk.now.node batch.number 1 batch.batch.entries pass.old }
    ensures sent { MatchResult result (λ _. IsRequesting desk.now.queues.now desk.now.node (batch.number + 1) 0 [] pass.new) (λ back. (back ≡ batch) × (pass.new ≡ pass.old)) }
    ensures left { IfOk result (λ _. KeepsLeft desk.now.queues.now desk.now.node batch pass.old pass.new) }
{
    desk.queues.batches(desk.node).send(rt, pass, batch)
}

fn give_back<R: Wait, B: Steps, G: Gate>(
    rt: &R,
    desk: &Desk<'_, B, G>,
    pass: &mut StagePass,
    batch: Numbered,
)
    requires { IsRequesting desk.now.queues.now desk.now.node batch.number 1 batch.batch.entries pass.old }
    ensures { HasRequested desk.now.queues.now desk.now.node pass.new }
{
    desk.queues.give_batch(rt, desk.node, pass, batch.batch);
}
