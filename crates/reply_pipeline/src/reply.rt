// The reply stage: brings settled batches into the order of their numbers, and answers the requests.
ghost use Rattle.std.specs.Prelude.{◌≡◌, ◌+◌, ◌-◌, ◌<◌, ◌^◌, length, IfOk, IsSomeAnd, MatchOption};
ghost use Rattle.stamp_base.specs.declared.stage.Stage.TheVariants.{Reply};
ghost use Rattle.reply_pipeline.specs.Replying.{AnswersNext, IsReplyPass, IsReplying, Offers};
ghost use Rattle.stage_queues.specs.Spots.{senders_to};
ghost use Rattle.reply_pipeline.specs.Telling.{counted, IsTold};

use crate::desk::Desk;
use crate::ending::{Ending, StageEnd};
use crate::gate::Gate;
use crate::told::Told;
use batch_pool::Batch;
use persist_batches::{Numbered, Reorder};
use stage_queues::{Heard, Queues, StagePass};
use stamp_base::{NodeNo, Stage};
use std::alloc::Global;
use std::sync::Wait;
use thread_steps::Steps;

/// Serves as the node's reply stage, until the queues are closed or memory is refused.
pub fn reply_stage<R: Wait, B: Steps, G: Gate>(
    rt: &R,
    alloc: Global,
    node: NodeNo,
    board: &B,
    queues: &Queues,
    pass: &mut StagePass,
    gate: &G,
) -> StageEnd
    requires pass { IsReplyPass queues.now node pass.old }
    requires held { pass.old.held ≡ 0 }
    requires buffers { queues.now.buffers < 2 ^ 32 }
    ensures pass { IsReplyPass queues.now node pass.new }
    ensures held { pass.new.held ≡ 0 }
{
    let desk = Desk {
        node,
        board,
        queues,
        gate,
    };
    let end = match Reorder::open(alloc, 0, queues.buffers()) {
        Ok(order) => serve(rt, &desk, pass, order),
        Err(refused) => Ending::lacking(refused),
    };
    end.reached(queues)
}

// Serves until the stage ends, and gives back what then waits for its turn.
fn serve<R: Wait, B: Steps, G: Gate>(
    rt: &R,
    desk: &Desk<'_, B, G>,
    pass: &mut StagePass,
    order: Reorder,
) -> Ending
    requires replying { IsReplying desk.now.queues.now desk.now.node 0 order pass.old }
    requires first { order.next ≡ 0 }
    ensures pass { IsReplyPass desk.now.queues.now desk.now.node pass.new }
    ensures held { pass.new.held ≡ 0 }
{
    let mut order = order;
    let end = answer_all(rt, desk, pass, &mut order);
    while let Some(batch) = order.take_out() {
        give_back(rt, desk, pass, batch.batch);
    }
    end
}

fn answer_all<R: Wait, B: Steps, G: Gate>(
    rt: &R,
    desk: &Desk<'_, B, G>,
    pass: &mut StagePass,
    order: &mut Reorder,
) -> Ending
    requires { IsReplying desk.now.queues.now desk.now.node 0 order.old pass.old }
    ensures { IsReplying desk.now.queues.now desk.now.node 0 order.new pass.new }
{
    for _ in rt.forever() {
        if let Err(end) = turn(rt, desk, pass, order) {
            return end;
        }
    }
    unreachable!()
}

// Takes in what is settled, and answers the batch whose turn it is, or waits where it has not come.
fn turn<R: Wait, B: Steps, G: Gate>(
    rt: &R,
    desk: &Desk<'_, B, G>,
    pass: &mut StagePass,
    order: &mut Reorder,
) -> Result<Option<Told>, Ending>
    requires { IsReplying desk.now.queues.now desk.now.node 0 order.old pass.old }
    ensures pass { IsReplying desk.now.queues.now desk.now.node 0 order.new pass.new }
    ensures answers { IfOk result (AnswersNext order.old order.new) }
{
    take_in(rt, desk, pass, order);
    match order.next() {
        Some(batch) => answer_next(rt, desk, pass, order, batch),
        None => {
            desk.wait(rt, Stage::Reply, 0)?;
            Ok(None)
        }
    }
}

fn take_in<R: Wait, B: Steps, G: Gate>(
    rt: &R,
    desk: &Desk<'_, B, G>,
    pass: &mut StagePass,
    order: &mut Reorder,
)
    requires { IsReplying desk.now.queues.now desk.now.node 0 order.old pass.old }
    ensures pass { IsReplying desk.now.queues.now desk.now.node 0 order.new pass.new }
    ensures next { order.new.next ≡ order.old.next }
{
    for _ in rt.forever() {
        match receive(rt, desk, pass) {
            Some(batch) => {
                let heard = desk.tell_room(Stage::Reply);
                place(rt, desk, pass, order, batch, &heard);
            }
            None => return,
        }
    }
    unreachable!()
}

// Lets a batch wait for its turn, or gives it back where the order refuses it.
fn place<R: Wait, B: Steps, G: Gate>(
    rt: &R,
    desk: &Desk<'_, B, G>,
    pass: &mut StagePass,
    order: &mut Reorder,
    batch: Numbered,
    heard: &Heard,
)
    requires hand { IsReplying desk.now.queues.now desk.now.node 1 order.old pass.old }
    requires heard { heard.now.whom.row ≡ senders_to desk.now.node Reply }
    ensures pass { IsReplying desk.now.queues.now desk.now.node 0 order.new pass.new }
    ensures offered { Offers order.old order.new batch }
{
    let _heard = heard;
    if let Err(back) = order.offer(batch) {
        give_back(rt, desk, pass, back.batch);
    }
}

// Answers the batch whose turn it is, which the order has given, and gives it back.
fn answer_next<R: Wait, B: Steps, G: Gate>(
    rt: &R,
    desk: &Desk<'_, B, G>,
    pass: &mut StagePass,
    order: &Reorder,
    batch: Numbered,
) -> Result<Option<Told>, Ending>
    requires turn { batch.number + 1 ≡ order.now.next }
    requires node { desk.now.node < length desk.now.queues.now.nodes }
    requires held { 0 < pass.old.held }
    ensures pass { pass.new ≡ record pass.old { held = pass.old.held - 1 } }
    ensures answered { IfOk result (λ told. IsSomeAnd told (IsTold Reply batch)) }
{
    let _turn = order;
    let told = answer_all_of(rt, desk, &batch);
    give_back(rt, desk, pass, batch.batch);
    Ok(Some(told?))
}

// Answers each request when its turn comes, and wakes its session.
fn answer_all_of<R: Wait, B: Steps, G: Gate>(
    rt: &R,
    desk: &Desk<'_, B, G>,
    batch: &Numbered,
) -> Result<Told, Ending>
    ensures { IfOk result (IsTold Reply batch.now) }
{
    let mut told = Told::none(Stage::Reply, batch);
    for entry in batch.batch.entries() {
        let said = desk.step_in_turn(rt, Stage::Reply, 0, entry)?;
        let rung = desk.wake_session(&said);
        told.answer(batch, entry, said, rung);
    }
    Ok(told)
}

fn receive<R: Wait, B: Steps, G: Gate>(
    rt: &R,
    desk: &Desk<'_, B, G>,
    pass: &mut StagePass,
) -> Option<Numbered>
    requires pass { IsReplyPass desk.now.queues.now desk.now.node pass.old }
    requires held { pass.old.held < 2 ^ 32 }
    ensures pass { IsReplyPass desk.now.queues.now desk.now.node pass.new }
    ensures held { MatchOption result (pass.new.held ≡ pass.old.held) (λ _. pass.new.held ≡ pass.old.held + 1) }
{
    desk.queues.settled(desk.node).receive(rt, pass)
}

fn give_back<R: Wait, B: Steps, G: Gate>(
    rt: &R,
    desk: &Desk<'_, B, G>,
    pass: &mut StagePass,
    batch: Batch,
)
    requires node { desk.now.node < length desk.now.queues.now.nodes }
    requires held { 0 < pass.old.held }
    ensures { pass.new ≡ record pass.old { held = pass.old.held - 1 } }
{
    desk.queues.give_batch(rt, desk.node, pass, batch);
}
