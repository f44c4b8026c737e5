// The steps of a line that is carried out.
ghost use Rattle.std.specs.Prelude.{◌≡◌, IfOk};
ghost use Rattle.machine.specs.Machine.{IsSteadyAt, reading_of};
ghost use Rattle.script_data.specs.Data.{ScriptData};
ghost use Rattle.command_semantics.specs.Next.{Clocks, next};
ghost use Rattle.command_semantics.specs.Runs.{Played};
ghost use Rattle.command_semantics.specs.Views.{view_of};
ghost use Rattle.planned_cluster.specs.Standing.{StandsAt};
ghost use Rattle.replay_driver.specs.Playing.{Advances, IsSaidOf, looks};

use command_semantics::{Interruption, Point, View, refused};
use machine::{Doing, Event};
use planned_cluster::{PlannedCluster, Stopped};
use port_io::{PlannedWeather, Weather};
use script_data::{Line, Verb};
use stamp_base::NoMemory;

/// What the choice of the line's next event hangs on, from this point on. Most lines open without a look at their actor.
pub(crate) fn seen(planned: &PlannedCluster, line: &Line, point: Point) -> View
    ensures { (clocks : Clocks) → next clocks line.now.actor line.now.verb point result ≡ next clocks line.now.actor line.now.verb point
        (view_of planned.now.cluster.state line.now.actor) }
{
    if looks(&line.verb, point) {
        planned.view(line.actor)
    } else {
        NOTHING_SEEN
    }
}

/// In place of a look where none is needed.
const NOTHING_SEEN: View = View {
    doing: Doing::Gone,
    request: None,
    commit: false,
    sweeping: false,
};

/// Whether the next event hangs on what the actor has under way.
fn looks(verb: &Verb, point: Point) -> bool
    ensures { result ≡ looks verb.now point }
{
    match point {
        Point::Opens => matches!(verb, Verb::Collect),
        Point::Over => false,
        _ => true,
    }
}

/// Makes the event, and says how it stopped, if it did.
pub(crate) fn make(
    planned: &mut PlannedCluster,
    event: &Event,
) -> Result<Option<Interruption>, NoMemory>
    requires { IsSteadyAt planned.old.cluster.state.setup.skew planned.old.cluster.state.seen (reading_of event.now) }
    ensures { IfOk result (λ halt. (script : ScriptData) (p : Played) →
        StandsAt script p planned.old.cluster planned.old.clock (⟦<PlannedWeather as Weather>⟧.ahead planned.old.weather) →
        Advances script p event.now halt planned.new.cluster planned.new.clock (⟦<PlannedWeather as Weather>⟧.ahead planned.new.weather)) }
{
    answered(planned.make(event))
}

/// How an event stopped, by what its call answered. A refusal and a fault are answers too: they stand in the history.
fn answered(answer: Result<(), Stopped>) -> Result<Option<Interruption>, NoMemory>
    ensures { IsSaidOf answer result }
{
    match answer {
        Ok(()) => Ok(None),
        Err(Stopped::Refused(cause)) => Ok(Some(refused(&cause))),
        Err(Stopped::StoreFault(_)) => Ok(Some(Interruption::Faulted)),
        Err(Stopped::NoMemory) => Err(NoMemory),
    }
}
