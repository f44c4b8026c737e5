// What the thread of an actor does.
ghost use Rattle.std.specs.Prelude.{◌≡◌, ◌+◌, drop, length};
ghost use Rattle.reply_pipeline.specs.Seats.{IsSenderPass};
ghost use Rattle.actor_threads.specs.Asking.{Follows, Offers};
ghost use Rattle.actor_threads.specs.Lines.{own_left, AreLeft};
ghost use Rattle.actor_threads.specs.Sending.{ComesBack};
ghost use Rattle.actor_threads.specs.Sights.{IsSightOf};
ghost use Rattle.actor_threads.specs.Waking.{awaits_stamp};

use crate::asking::{Unsent, asked_ticket, node_asked, offer, offer_again};
use crate::lines::LinesLeft;
use crate::masters::{look, tell_taken};
use crate::quiet::{Quiet, wait_quietly};
use crate::shared::Shared;
use crate::waking::wake_for;
use history_book::Actor;
use master_beacon::BeaconPass;
use reply_pipeline::Gate;
use script_data::{Line, Verb};
use stage_queues::StagePass;
use std::sync::Wait;
use std::sync::ledger::Ledger;
use thread_steps::{ActorShare, ActorStep, ActorSteps, Steps};

/// Makes the events of the actor's lines until none is left, memory is refused, or it would wait and the queues are closed.
pub fn act<L: Ledger, R: Wait, B: Steps + ActorSteps<L> + Sync, G: Gate>(
    rt: &R,
    shared: &Shared<'_, B, G>,
    mine: ActorShare<L>,
    pass: StagePass,
    sight: BeaconPass,
) -> ActorShare<L>
    requires pass { IsSenderPass shared.now.queues.now pass }
    requires sight { IsSightOf shared.now.beacon.now sight }
    requires nodes { length shared.now.queues.now.nodes ≡ shared.now.setup.nodes }
    ensures { ComesBack mine result }
{
    let mut mine = mine;
    let mut pass = pass;
    let mut sight = sight;
    let mut left = LinesLeft::after(mine.actor(), shared.lines, mine.done());
    let mut unsent = None;
    let mut quiet = Quiet::none();
    for _ in rt.forever() {
        if !turn(
            rt,
            shared,
            &mut left,
            &mut mine,
            &mut pass,
            &mut sight,
            &mut unsent,
            &mut quiet,
        ) {
            break;
        }
    }
    shared.queues.leave();
    mine
}

// One event, and what follows from it for others, or a wait. False where the actor's thread ends.
fn turn<L: Ledger, R: Wait, B: Steps + ActorSteps<L> + Sync, G: Gate>(
    rt: &R,
    shared: &Shared<'_, B, G>,
    left: &mut LinesLeft<'_>,
    mine: &mut ActorShare<L>,
    pass: &mut StagePass,
    sight: &mut BeaconPass,
    unsent: &mut Option<Unsent>,
    quiet: &mut Quiet,
) -> bool
    requires pass { IsSenderPass shared.now.queues.now pass.old }
    requires nodes { length shared.now.queues.now.nodes ≡ shared.now.setup.nodes }
    requires sight { IsSightOf shared.now.beacon.now sight.old }
    requires left { AreLeft shared.now.lines.now mine.old left.old }
    ensures share { ComesBack mine.old mine.new }
    ensures pass { IsSenderPass shared.now.queues.now pass.new }
    ensures sight { IsSightOf shared.now.beacon.now sight.new }
    ensures left { AreLeft shared.now.lines.now mine.new left.new }
{
    let before = mine.done();
    let step = step(rt, shared, mine, sight);
    tell_others(rt, shared, left, mine.done() - before);
    follow(rt, shared, left, step, pass, unsent, quiet)
}

// One step, for which a session looks who is master.
fn step<L: Ledger, R: Wait, B: Steps + ActorSteps<L> + Sync, G: Gate>(
    rt: &R,
    shared: &Shared<'_, B, G>,
    mine: &mut ActorShare<L>,
    sight: &mut BeaconPass,
) -> ActorStep
    requires { IsSightOf shared.now.beacon.now sight.old }
    ensures share { ComesBack mine.old mine.new }
    ensures sight { IsSightOf shared.now.beacon.now sight.new }
{
    if let Actor::Session(_) = mine.actor() {
        look(rt, shared.beacon, mine, sight);
    }
    if shared.gate.stands_open() {
        return shared.board.actor_stretch(rt, mine);
    }
    shared.board.actor_step(rt, mine)
}

// Tells who is master now, and wakes those that wait for what the next lines of the actor do, which are done now.
fn tell_others<R: Wait, B: Steps + Sync, G: Gate>(
    rt: &R,
    shared: &Shared<'_, B, G>,
    left: &mut LinesLeft<'_>,
    more: u64,
)
    ensures actor { left.new.actor ≡ left.old.actor }
    ensures rest { own_left left.new ≡ drop more (own_left left.old) }
{
    for _line in 0..more {
        if let Some(verb) = left.next() {
            tell_taken(rt, shared, left.actor, &verb);
            wake_for(shared, left.actor, &verb);
        }
    }
}

// What follows from a step for the actor's own requests. A session goes on once its request is drawn or has ended, so that no stage
// waits for a ticket of it that is not sent.
fn follow<R: Wait, B: Steps + Sync, G: Gate>(
    rt: &R,
    shared: &Shared<'_, B, G>,
    left: &LinesLeft<'_>,
    step: ActorStep,
    pass: &mut StagePass,
    unsent: &mut Option<Unsent>,
    quiet: &mut Quiet,
) -> bool
    requires pass { IsSenderPass shared.now.queues.now pass.old }
    requires nodes { length shared.now.queues.now.nodes ≡ shared.now.setup.nodes }
    ensures pass { IsSenderPass shared.now.queues.now pass.new }
    ensures follows { Follows shared.now.setup.nodes left.now.actor step unsent.old unsent.new pass.old pass.new }
{
    match step {
        ActorStep::Did { asked } => {
            *unsent = asked_ticket(left.actor, asked);
            heed(shared, left, unsent, quiet);
            offer(rt, shared, pass, unsent);
            true
        }
        ActorStep::Waits => wait(rt, shared, left, pass, unsent, quiet),
        ActorStep::Ended => false,
        ActorStep::NoMemory => {
            shared.give_up();
            false
        }
    }
}

// What the stages are to know of an event before its ticket is sent: whether the line that asked waits for its stamp, and that an
// actor which works on for long is not to be waited for.
fn heed<B: Steps + Sync, G: Gate>(
    shared: &Shared<'_, B, G>,
    left: &LinesLeft<'_>,
    unsent: &Option<Unsent>,
    quiet: &mut Quiet,
) {
    if let Some(Unsent { ticket, .. }) = unsent {
        shared
            .queues
            .heed_stamp(ticket.session, awaits_stamp(left.present()));
    }
    if quiet.heed(node_asked(unsent)) {
        shared.queues.press();
    }
}

// Every other line that asks waits for the answer.
fn awaits_stamp(line: Option<Line>) -> bool
    ensures { result ≡ awaits_stamp line }
{
    match line {
        Some(line) => matches!(line.verb, Verb::Submit { .. }),
        None => false,
    }
}

// Waits until the actor is woken, also where there is room for a ticket that is not sent; the board is then asked whether its
// request is still there. A wake since the actor's last step ends the wait at once. An actor that has not told for which name it
// waits tells so, and asks the board once more. False where the queues are closed.
fn wait<R: Wait, B: Steps + Sync, G: Gate>(
    rt: &R,
    shared: &Shared<'_, B, G>,
    left: &LinesLeft<'_>,
    pass: &mut StagePass,
    unsent: &mut Option<Unsent>,
    quiet: &mut Quiet,
) -> bool
    requires pass { IsSenderPass shared.now.queues.now pass.old }
    requires nodes { length shared.now.queues.now.nodes ≡ shared.now.setup.nodes }
    ensures pass { IsSenderPass shared.now.queues.now pass.new }
    ensures offers { Offers shared.now.setup.nodes unsent.old unsent.new pass.old pass.new }
{
    if shared.queues.closed() {
        return false;
    }
    if tells_await(shared, left) {
        return true;
    }
    offer_again(rt, shared, pass, unsent);
    wait_quietly(rt, shared, left, quiet);
    true
}

// Whether the present line awaits a name, and the actor had not told so.
fn tells_await<B: Steps + Sync, G: Gate>(shared: &Shared<'_, B, G>, left: &LinesLeft<'_>) -> bool {
    match left.awaited() {
        Some(place) => !shared.awaiters.tell(left.actor, place),
        None => false,
    }
}
