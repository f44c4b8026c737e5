// What is ahead of a line that is carried out on threads.
ghost use Rattle.std.specs.Prelude.{◌≡◌};
ghost use Rattle.command_semantics.specs.Clocks.{clocks, HaveRoom};
ghost use Rattle.turn_rules.specs.Waiting as waiting;

use crate::ahead::{NextAction, Why};
use command_semantics::{Point, View, idle_next, is_served, next_event, places, placing_next};
use history_book::Actor;
use machine::Event;
use script_data::{Line, Verb};
use stamp_base::{NodeNo, SessionNo};

/// What is ahead of the actor's present line from this point on: `posted` says whether the name that it awaits is posted, and
/// `unawaited` whether its session's last ask was made and no later line has waited for the answer.
pub fn own_event(
    base: u64,
    leads: &[u64],
    master: NodeNo,
    posted: bool,
    line: &Line,
    point: Point,
    view: &View,
    unawaited: bool,
) -> NextAction
    requires { HaveRoom base leads.now line.now.verb }
    ensures { result ≡ waiting.own_next (clocks base leads.now master) posted line.now.actor line.now.verb point view.now unawaited }
{
    match (point, line.actor) {
        (Point::Opens, _) => own_opens(base, leads, master, posted, line, view, unawaited),
        (Point::Drives, Actor::Session(session)) => drive_ahead(session, &line.verb, view),
        (Point::Extends, Actor::Session(_)) => NextAction::Passes,
        _ => made_next(next_event(base, leads, master, line, point, view)),
    }
}

fn own_opens(
    base: u64,
    leads: &[u64],
    master: NodeNo,
    posted: bool,
    line: &Line,
    view: &View,
    unawaited: bool,
) -> NextAction
    requires { HaveRoom base leads.now line.now.verb }
    ensures { result ≡ waiting.own_opens (clocks base leads.now master) posted line.now.actor line.now.verb view.now unawaited }
{
    match (&line.verb, line.actor) {
        (Verb::Await { .. }, _) if !posted => NextAction::Waits(Why::Name),
        (Verb::Collect, Actor::Session(session)) => collect_ahead(session, view, unawaited),
        _ => made_next(next_event(base, leads, master, line, Point::Opens, view)),
    }
}

/// The stages serve the request; once it has ended, a completion follows.
fn drive_ahead(session: SessionNo, verb: &Verb, view: &View) -> NextAction
    ensures { result ≡ waiting.drive_ahead session verb.now view.now view.now.request }
{
    match view.request {
        None => made_next(placing_next(session, view.doing, places(verb))),
        Some((_, place)) if is_served(verb, place) => NextAction::Waits(Why::Reply),
        Some(_) => NextAction::Passes,
    }
}

/// A session with no request in flight has come too late to collect it, or has nothing to collect.
fn collect_ahead(session: SessionNo, view: &View, unawaited: bool) -> NextAction
    ensures { result ≡ waiting.collect_ahead session view.now unawaited view.now.request }
{
    match view.request {
        Some(_) => NextAction::Waits(Why::Reply),
        None if unawaited => made_next(placing_next(session, view.doing, true)),
        None => made_next(idle_next(session, view.doing)),
    }
}

/// A line without a next event is passed.
fn made_next(next: Option<Event>) -> NextAction
    ensures { result ≡ waiting.made_next next }
{
    match next {
        Some(event) => NextAction::Makes(event),
        None => NextAction::Passes,
    }
}
