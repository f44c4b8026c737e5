// Where the run of a line stands after an event.
ghost use Rattle.std.specs.Prelude.{◌≡◌};
ghost use Rattle.command_semantics.specs.Interruptions as halts;

use crate::point::{Interruption, Point};
use script_data::Verb;

/// Where the run stands after an event that was made at this point, by how the event stopped, if it did.
pub fn follows(verb: &Verb, point: Point, halt: Option<Interruption>) -> Point
    ensures { result ≡ halts.follows verb.now point halt }
{
    match point {
        Point::Opens => after_opening(verb, halt),
        Point::Drives => after_serving(halt),
        Point::Extends => after_extending(halt),
        Point::Steps => after_stepping(halt),
        Point::Finishes | Point::Reads => unless_halted(point, halt),
        Point::Over => Point::Over,
    }
}

fn after_opening(verb: &Verb, halt: Option<Interruption>) -> Point
    ensures { result ≡ halts.after_opening verb.now halt }
{
    match verb {
        Verb::Begin { .. } | Verb::Commit { .. } | Verb::Submit { .. } => {
            unless_halted(Point::Drives, halt)
        }
        Verb::Collect => after_serving(halt),
        Verb::Write { .. } => after_write(halt),
        Verb::Read { .. } => unless_halted(Point::Reads, halt),
        Verb::Abort => unless_halted(Point::Finishes, halt),
        Verb::Finish => after_stepping(halt),
        Verb::Sweep { .. } => unless_halted(Point::Steps, halt),
        _ => Point::Over,
    }
}

fn unless_halted(point: Point, halt: Option<Interruption>) -> Point
    ensures { result ≡ halts.unless_halted point halt }
{
    match halt {
        None => point,
        Some(_) => Point::Over,
    }
}

fn after_write(halt: Option<Interruption>) -> Point
    ensures { result ≡ halts.after_write halt }
{
    match halt {
        Some(Interruption::Faulted) => Point::Finishes,
        _ => Point::Over,
    }
}

fn after_serving(halt: Option<Interruption>) -> Point
    ensures { result ≡ halts.after_serving halt }
{
    match halt {
        None | Some(Interruption::Faulted) => Point::Drives,
        Some(Interruption::NoStamp) => Point::Extends,
        Some(Interruption::NotYet) => Point::Over,
        Some(Interruption::Refused) => Point::Finishes,
    }
}

fn after_stepping(halt: Option<Interruption>) -> Point
    ensures { result ≡ halts.after_stepping halt }
{
    match halt {
        None => Point::Steps,
        Some(Interruption::Refused) => Point::Finishes,
        Some(_) => Point::Over,
    }
}

fn after_extending(halt: Option<Interruption>) -> Point
    ensures { result ≡ halts.after_extending halt }
{
    match halt {
        Some(Interruption::Faulted) => Point::Over,
        _ => Point::Drives,
    }
}
