// Waiting, and telling what a line waits for while nobody makes an event.
use crate::lines::LinesLeft;
use crate::shared::Shared;
use history_book::Actor;
use reply_pipeline::{Gate, GateWay, WaitsFor};
use script_data::Verb;
use stage_queues::Waiter;
use stamp_base::{NodeNo, Stage};
use std::sync::Wait;
use std::time::Duration;
use thread_steps::Steps;

/// Where a gate hears of lines that wait, so many milliseconds are waited at once.
const SLICE: u64 = 250;

/// After so many of these without an event, two seconds, the gate is told. A wake that was kept ends one of them at once.
const SLICES: u64 = 8;

/// With every so many events of an actor, request stages take the tickets that are there, as if it worked no longer.
const PATIENCE: u64 = 16;

/// How long an actor has waited while nobody made an event.
#[derive(Drop)]
pub struct Quiet {
    turns: usize,
    slices: u64,
    // The node that the actor asked last.
    asked: Option<NodeNo>,
    // Its events since stages were told to wait for it no longer.
    events: u64,
}

impl Quiet {
    /// It has not waited.
    pub fn none() -> Quiet {
        Quiet {
            turns: 0,
            slices: 0,
            asked: None,
            events: 0,
        }
    }

    /// The actor has made an event, which asked this node, if it asked. Whether request stages are to wait for it no longer.
    pub fn heed(&mut self, asked: Option<NodeNo>) -> bool {
        if let Some(node) = asked {
            self.asked = Some(node);
        }
        if self.events < PATIENCE {
            self.events += 1;
            return false;
        }
        self.events = 0;
        true
    }

    /// It has waited again, and so many turns were made by now. Whether that is to be told, which it is once.
    fn goes_on(&mut self, turns: usize) -> bool {
        if self.turns != turns {
            self.turns = turns;
            self.slices = 0;
        }
        if self.slices > SLICES {
            return false;
        }
        self.slices += 1;
        self.slices == SLICES
    }
}

/// Waits until the actor is woken. Where the gate hears of lines that wait, it is told of one that has waited for long.
pub fn wait_quietly<R: Wait, B: Steps + Sync, G: Gate>(
    rt: &R,
    shared: &Shared<'_, B, G>,
    left: &LinesLeft<'_>,
    quiet: &mut Quiet,
) {
    rest(rt, shared, left.actor);
    shared.board.let_yield(shared.gate.yields());
    if shared.gate.hears_waits() && quiet.goes_on(shared.board.turns_made(rt)) {
        tell(rt, shared, left, quiet.asked);
    }
}

fn rest<R: Wait, B: Steps + Sync, G: Gate>(rt: &R, shared: &Shared<'_, B, G>, actor: Actor) {
    let way = GateWay { gate: shared.gate };
    if !shared.gate.hears_waits() {
        shared
            .queues
            .wait_giving_way(rt, &way, Waiter::Actor(actor));
        return;
    }
    shared
        .queues
        .wait_a_while(rt, &way, actor, Duration::from_millis(SLICE));
}

fn tell<R: Wait, B: Steps + Sync, G: Gate>(
    rt: &R,
    shared: &Shared<'_, B, G>,
    left: &LinesLeft<'_>,
    asked: Option<NodeNo>,
) {
    if let Some(line) = left.present() {
        if let Some(on) = waits_for(rt, shared.board, &line.verb, asked) {
            shared.gate.waits(line.number, on);
        }
    }
}

fn waits_for<R: Wait, B: Steps>(
    rt: &R,
    board: &B,
    verb: &Verb,
    asked: Option<NodeNo>,
) -> Option<WaitsFor> {
    if let Verb::Await { name } = verb {
        return Some(WaitsFor::Name(*name));
    }
    let node = asked?;
    let held = first_held(rt, board, node);
    Some(WaitsFor::Reply { node, held })
}

// The first stage of the node that is held.
fn first_held<R: Wait, B: Steps>(rt: &R, board: &B, node: NodeNo) -> Option<Stage> {
    for stage in [Stage::Request, Stage::Persist, Stage::Reply] {
        if board.is_held(rt, node, stage) {
            return Some(stage);
        }
    }
    None
}
