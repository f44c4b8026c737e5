// The persist workers: each makes the commits of the batches that it takes durable, and sends the batches on. Where sessions
// place their commits it only sends them on.
ghost use Rattle.std.specs.Prelude.{◌≡◌, ◌+◌, ◌<◌, ◌∷◌, [], Some, IfOk, IfSome, MatchOption, MatchResult, OnOk, length, slice_get};
ghost use Rattle.stamp_base.specs.declared.stage.Stage.TheVariants.{Persist};
ghost use Rattle.stage_queues.specs.Spots.{senders_to};
ghost use Rattle.reply_pipeline.specs.Telling.{counted, puts_nothing, IsTold};
ghost use Rattle.reply_pipeline.specs.Persisting.{IsPersistPass, IsPersisting, Carries, PutsAllButOne};

use crate::desk::Desk;
use crate::ending::{Ending, StageEnd};
use crate::gate::Gate;
use crate::told::Told;
use batch_pool::Entry;
use persist_batches::Numbered;
use stage_queues::{Heard, Queues, StagePass};
use stamp_base::{NodeNo, Stage};
use std::sync::Wait;
use thread_steps::Steps;

/// Serves as one of the node's persist workers, until the queues are closed or memory is refused.
pub fn persist_worker<R: Wait, B: Steps, G: Gate>(
    rt: &R,
    node: NodeNo,
    board: &B,
    queues: &Queues,
    pass: &mut StagePass,
    gate: &G,
) -> StageEnd
    requires pass { IsPersistPass queues.now node pass.old }
    requires held { pass.old.held ≡ 0 }
    ensures pass { IsPersistPass queues.now node pass.new }
    ensures all { PutsAllButOne node pass.old pass.new }
    ensures held { pass.new.held ≡ 0 }
{
    let desk = Desk {
        node,
        board,
        queues,
        gate,
    };
    let end = serve(rt, &desk, pass);
    end.reached(queues)
}

fn serve<R: Wait, B: Steps, G: Gate>(rt: &R, desk: &Desk<'_, B, G>, pass: &mut StagePass) -> Ending
    requires { IsPersisting desk.now.queues.now desk.now.node [] pass.old }
    ensures pass { IsPersisting desk.now.queues.now desk.now.node [] pass.new }
    ensures all { PutsAllButOne desk.now.node pass.old pass.new }
{
    let worker = pass.worker();
    for _ in rt.forever() {
        if let Err(end) = turn(rt, desk, worker, pass) {
            return end;
        }
    }
    unreachable!()
}

// Serves one batch, or waits where there is none.
fn turn<R: Wait, B: Steps, G: Gate>(
    rt: &R,
    desk: &Desk<'_, B, G>,
    worker: u64,
    pass: &mut StagePass,
) -> Result<(), Ending>
    requires { IsPersisting desk.now.queues.now desk.now.node [] pass.old }
    ensures pass { IsPersisting desk.now.queues.now desk.now.node [] pass.new }
    ensures all { MatchResult result (λ _. Carries desk.now.node [] [] pass.old pass.new) (λ _. PutsAllButOne desk.now.node pass.old pass.new) }
{
    match receive(rt, desk, pass) {
        Some(batch) => {
            let heard = desk.tell_room(Stage::Persist);
            settle(rt, desk, worker, pass, batch, &heard)
        }
        None => desk.wait_for_batch(rt, worker),
    }
}

fn settle<R: Wait, B: Steps, G: Gate>(
    rt: &R,
    desk: &Desk<'_, B, G>,
    worker: u64,
    pass: &mut StagePass,
    batch: Numbered,
    heard: &Heard,
) -> Result<(), Ending>
    requires hand { IsPersisting desk.now.queues.now desk.now.node (batch ∷ []) pass.old }
    requires heard { heard.now.whom.row ≡ senders_to desk.now.node Persist }
    ensures pass { IsPersisting desk.now.queues.now desk.now.node [] pass.new }
    ensures put { MatchResult result (λ _. Carries desk.now.node (batch ∷ []) [] pass.old pass.new) (λ _. pass.new.nodes ≡ pass.old.nodes) }
{
    let _heard = heard;
    match put_all(rt, desk, worker, &batch) {
        Ok(told) => send_on(rt, desk, worker, pass, batch, &told),
        Err(end) => {
            give_back(rt, desk, pass, batch);
            Err(end)
        }
    }
}

// Makes each commit among the entries durable.
fn put_all<R: Wait, B: Steps, G: Gate>(
    rt: &R,
    desk: &Desk<'_, B, G>,
    worker: u64,
    batch: &Numbered,
) -> Result<Told, Ending>
    ensures { IfOk result (IsTold Persist batch.now) }
{
    let mut told = Told::none(Stage::Persist, batch);
    for entry in batch.batch.entries() {
        put_one(rt, desk, worker, batch, entry, &mut told)?;
    }
    Ok(told)
}

// Whether there is nothing to put of the entry: then no step is asked for, and a held stage holds nothing.
fn puts_nothing(queues: &Queues, entry: &Entry) -> bool
    ensures { result ≡ puts_nothing queues.now.direct entry.now }
{
    entry.commit.is_none() || queues.direct()
}

fn put_one<R: Wait, B: Steps, G: Gate>(
    rt: &R,
    desk: &Desk<'_, B, G>,
    worker: u64,
    batch: &Numbered,
    entry: &Entry,
    told: &mut Told,
) -> Result<(), Ending>
    requires told { told.old ≡ counted Persist batch.now.number told.old.count }
    requires within { told.old.count < length batch.now.batch.entries }
    requires next { slice_get batch.now.batch.entries told.old.count ≡ Some entry.now }
    ensures { OnOk result (told.new ≡ counted Persist batch.now.number (told.old.count + 1)) }
{
    if puts_nothing(desk.queues, entry) {
        told.pass_over(desk.queues, batch, entry);
        return Ok(());
    }
    let said = desk.step_in_turn(rt, Stage::Persist, worker, entry)?;
    told.add(batch, entry, said);
    Ok(())
}

// Sends a batch on as settled, and waits while the queue is full, or gives it back where the queues are closed.
fn send_on<R: Wait, B: Steps, G: Gate>(
    rt: &R,
    desk: &Desk<'_, B, G>,
    worker: u64,
    pass: &mut StagePass,
    batch: Numbered,
    told: &Told,
) -> Result<(), Ending>
    requires hand { IsPersisting desk.now.queues.now desk.now.node (batch ∷ []) pass.old }
    requires told { IsTold Persist batch told.now }
    ensures pass { IsPersisting desk.now.queues.now desk.now.node [] pass.new }
    ensures put { MatchResult result (λ _. Carries desk.now.node (batch ∷ []) [] pass.old pass.new) (λ _. pass.new.nodes ≡ pass.old.nodes) }
{
    let mut batch = batch;
    let mut asked = false;
    for _ in rt.forever() {
        match send(rt, desk, pass, batch, told) {
            Ok(()) => return Ok(()),
            Err(back) => batch = back,
        }
        if let Err(end) = desk.wait_for_room(rt, Stage::Persist, worker, asked) {
            give_back(rt, desk, pass, batch);
            return Err(end);
        }
        asked = !asked;
    }
    unreachable!()
}

fn receive<R: Wait, B: Steps, G: Gate>(
    rt: &R,
    desk: &Desk<'_, B, G>,
    pass: &mut StagePass,
) -> Option<Numbered>
    requires { IsPersisting desk.now.queues.now desk.now.node [] pass.old }
    ensures pass { MatchOption result (pass.new ≡ pass.old) (λ batch. IsPersisting desk.now.queues.now desk.now.node (batch ∷ []) pass.new) }
    ensures taken { IfSome result (λ batch. Carries desk.now.node [] (batch ∷ []) pass.old pass.new) }
{
    desk.queues.batches(desk.node).receive(rt, pass)
}

fn send<R: Wait, B: Steps, G: Gate>(
    rt: &R,
    desk: &Desk<'_, B, G>,
    pass: &mut StagePass,
    batch: Numbered,
    told: &Told,
) -> Result<(), Numbered>
    requires hand { IsPersisting desk.now.queues.now desk.now.node (batch ∷ []) pass.old }
    requires told { IsTold Persist batch told.now }
    ensures pass { MatchResult result (λ _. IsPersisting desk.now.queues.now desk.now.node [] pass.new) (λ back. (back ≡ batch) × (pass.new ≡ pass.old)) }
    ensures put { OnOk result (Carries desk.now.node (batch ∷ []) [] pass.old pass.new) }
{
    let _told = told;
    desk.queues.settled(desk.node).send(rt, pass, batch)
}

fn give_back<R: Wait, B: Steps, G: Gate>(
    rt: &R,
    desk: &Desk<'_, B, G>,
    pass: &mut StagePass,
    batch: Numbered,
)
    requires { IsPersisting desk.now.queues.now desk.now.node (batch ∷ []) pass.old }
    ensures pass { IsPersisting desk.now.queues.now desk.now.node [] pass.new }
    ensures put { pass.new.nodes ≡ pass.old.nodes }
{
    desk.queues.give_batch(rt, desk.node, pass, batch.batch);
}
