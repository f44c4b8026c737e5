// The next event of a line.
ghost use Rattle.std.specs.Prelude.{◌≡◌, ◌^◌, IfSome};
ghost use Rattle.command_semantics.specs.Clocks.{TicksWithin};
ghost use Rattle.log_refinement.specs.Follows.{IsLater};
ghost use Rattle.log_refinement.specs.Owed.{Standing};
ghost use Rattle.split_driver.specs.Runs.{MayGoOn, MayRun};
ghost use Rattle.split_driver.specs.Sights.{IsSightOf};

use crate::account::Account;
use crate::later::later_event;
use crate::looking::Sight;
use command_semantics::{Point, View, next_event};
use history_book::Actor;
use log_refinement::{Due, Owed};
use script_data::Line;
use split_stores::Event;
use stamp_base::{NodeNo, SessionNo};

/// How a line goes on.
#[derive(Clone, Copy, Debug, PartialEq, Eq)]
pub(crate) enum Choice {
    Event(Event),
    /// Nothing is left to do.
    Over,
    /// Something is owed, and no event can show its end.
    Stuck,
}

/// How the line goes on from this point: as in file order, by what was seen of its actor; and where that is over before what the
/// line owes, by an event that shows what has become of it.
pub(crate) fn choose(line: &Line, point: Point, sight: &Sight, account: &Account) -> Choice
    requires ticks { TicksWithin (2 ^ 62) line.now.verb }
    requires sight { IsSightOf line.now.actor sight.now }
    requires may { MayRun line.now.actor line.now.verb point }
    ensures { MayGoOn line.now.actor account.now result }
{
    match line_event(line, point, &sight.view()) {
        Some(event) => Choice::Event(event),
        None if account.is_paid() => Choice::Over,
        None => owed_event(&line.actor, &account.owed()),
    }
}

/// The event of the line in file order.
fn line_event(line: &Line, point: Point, view: &View) -> Option<Event>
    requires ticks { TicksWithin (2 ^ 62) line.now.verb }
    requires may { MayRun line.now.actor line.now.verb point }
    ensures { IfSome result (IsLater line.now.actor) }
{
    match &next_event(0, &[], NodeNo::FIRST, line, point, view) {
        Some(event) => later_event(event),
        None => None,
    }
}

/// The event that shows the end of what is owed. A session alone owes something.
fn owed_event(actor: &Actor, owed: &Owed) -> Choice
    ensures { (st : Standing) → MayGoOn actor.now st result }
{
    match actor {
        Actor::Session(session) => Choice::Event(paying_event(*session, owed)),
        _ => Choice::Stuck,
    }
}

/// The event of the node that is due, which is refused where the request is not there, and else a step.
fn paying_event(session: SessionNo, owed: &Owed) -> Event
    ensures { IsLater (Actor.Session session) result }
{
    match owed {
        Owed::Answer { node, due } => due_event(*node, session, *due),
        _ => Event::Step { session },
    }
}

fn due_event(node: NodeNo, session: SessionNo, due: Due) -> Event
    ensures { IsLater (Actor.Session session) result }
{
    match due {
        Due::Accept => Event::Accept { node, session },
        Due::Decide => Event::Decide { node, session },
        Due::Put => Event::Put { node, session },
        Due::Answer => Event::Answer { node, session },
    }
}
