// An event whose parts are locked.
ghost use Rattle.std.specs.Prelude.{◌≡◌, ◌↔◌, ◌<◌, ℕ, IfOk, IsTrue, OnErr};
ghost use Rattle.split_parts.specs.Agrees.{HasParts};
ghost use Rattle.split_stores.specs.Locks.{IsInPlace, IsNode, IsReady, IsSession};
ghost use Rattle.split_stores.specs.Logs.{Adds};
ghost use Rattle.split_stores.specs.Makes.{Inside, MadeOfParts, made_of, Performs};
ghost use Rattle.split_parts.specs.Parts.{node_asked, seen};

use crate::{ActorSeat, Made, PartGate, Split};
use script_data::Target;
use split_parts::{Acted, Event, Lent, act, agrees};
use stamp_base::{NoMemory, NodeNo, SessionNo};
use std::alloc::Global;
use std::sync::Wait;
use tick_word::TickWord;

/// An event that is to be made, with the gate that it passes.
#[derive(Drop)]
pub(crate) struct Turn<'a, R, G> {
    pub(crate) rt: &'a R,
    pub(crate) alloc: Global,
    pub(crate) event: Event,
    pub(crate) gate: &'a G,
}

impl<R: Wait, G: PartGate> Turn<'_, R, G> {
    /// The event passes the gate, is made of its parts, which are locked and lent, and is logged under one tick, in the room that
    /// was made. Where memory is refused no tick is drawn.
    pub(crate) fn inside(&self, split: &Split, seat: &mut ActorSeat, lent: &mut Lent<'_>) -> Made
        requires ready { IsReady split.now.id self.now.event seat.old }
        requires plan { (seen lent.old).plan ≡ split.now.plan }
        requires parts { IsInPlace (seen lent.old) self.now.event → HasParts (seen lent.old) self.now.event }
        ensures done { Inside self.now.event (seen lent.old) (seen lent.new) seat.old seat.new result }
        ensures parts { MadeOfParts split.now.plan self.now.event result seat.old seat.new }
    {
        self.gate.inside(self.rt, &self.event);
        match perform(self.alloc, lent, &self.event) {
            Ok(acted) => self.logged(&split.word, seat, acted),
            Err(_) => Made::NoMemory,
        }
    }

    /// The event is logged with its items, and answered as it stopped.
    fn logged(&self, word: &TickWord, seat: &mut ActorSeat, acted: Acted) -> Made
        requires { IsReady word.now.id self.now.event seat.old }
        ensures adds { Adds self.now.event acted.items.items seat.old seat.new }
        ensures answers { result ≡ made_of acted.stopped }
    {
        let Acted {
            items: mut kept,
            stopped,
        } = acted;
        // An entry stays to the end of the run, and most keep one item.
        kept.shrink_to_fit();
        seat.log(word, self.event, kept);
        match stopped {
            None => Made::Did,
            Some(why) => Made::Stopped(why),
        }
    }
}

/// Makes the event of the parts that are lent. Nothing is done where they do not agree, or are not the event's.
fn perform(alloc: Global, lent: &mut Lent<'_>, event: &Event) -> Result<Acted, NoMemory>
    requires { IsInPlace (seen lent.old) event.now → HasParts (seen lent.old) event.now }
    ensures performs { IfOk result (Performs event.now (seen lent.old) (seen lent.new)) }
    ensures refused { OnErr result (seen lent.new ≡ seen lent.old) }
{
    if !is_in_place(lent, event) || !agrees(lent, event) {
        return Ok(Acted {
            items: Vec::new(alloc),
            stopped: None,
        });
    }
    act(alloc, lent, event)
}

/// Whether the session and the node that are lent are the event's. A lock does not tell of which of them it is.
fn is_in_place(lent: &Lent<'_>, event: &Event) -> bool
    ensures { IsTrue result ↔ IsInPlace (seen lent.now) event.now }
{
    match *event {
        Event::Tick { .. } | Event::Note { .. } | Event::SweepStep => true,
        Event::Take { node } => is_node(lent, node),
        Event::Renew { node } => is_node(lent, node),
        Event::Extend { node } => is_node(lent, node),
        Event::Put { node, .. } => is_node(lent, node),
        Event::SweepOpen { node, .. } => is_node(lent, node),
        Event::Crash { node } => are_sessions(lent) && is_node(lent, node),
        Event::AskBegin { session, target } => is_at(lent, session, target),
        Event::AskCommit { session, target } => is_at(lent, session, target),
        Event::Accept { node, session } => is_session(lent, session) && is_node(lent, node),
        Event::Decide { node, session } => is_session(lent, session) && is_node(lent, node),
        Event::Answer { node, session } => is_session(lent, session) && is_node(lent, node),
        Event::Write { session, .. } => is_session(lent, session),
        Event::Fetch { session, .. } => is_session(lent, session),
        Event::Step { session } => is_session(lent, session),
        Event::Heal { session } => is_session(lent, session),
        Event::Abort { session } => is_session(lent, session),
        Event::Vanish { session } => is_session(lent, session),
    }
}

fn is_node(lent: &Lent<'_>, node: NodeNo) -> bool
    ensures { IsTrue result ↔ IsNode (seen lent.now) node }
{
    match &lent.node {
        Some(part) => part.node() == node,
        None => true,
    }
}

fn is_session(lent: &Lent<'_>, session: SessionNo) -> bool
    ensures { IsTrue result ↔ IsSession (seen lent.now) session }
{
    match lent.session(session) {
        Some(part) => part.number() == session,
        None => true,
    }
}

/// So it is with the session and the node of an ask.
fn is_at(lent: &Lent<'_>, session: SessionNo, target: Target) -> bool
    ensures { IsTrue result ↔ (IsSession (seen lent.now) session × IsNode (seen lent.now) (node_asked (seen lent.now) target)) }
{
    is_session(lent, session) && is_node(lent, lent.node_asked(target))
}

fn are_sessions(lent: &Lent<'_>) -> bool
    ensures { IsTrue result ↔ ((session : ℕ) → session < 16 → IsSession (seen lent.now) session) }
{
    for number in 0..SessionNo::COUNT as u64 {
        let Some(session) = SessionNo::new(number) else {
            unreachable!();
        };
        if !is_session(lent, session) {
            return false;
        }
    }
    true
}
