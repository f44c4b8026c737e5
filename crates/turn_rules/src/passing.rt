// Passing lines with nothing left to do.
ghost use Rattle.std.specs.Prelude.{◌≡◌, ◌<◌, ◌≤◌, ◌^◌, true, All, drop, length};
ghost use Rattle.command_semantics.specs.Clocks.{clocks, HaveRoom};
ghost use Rattle.turn_rules.specs.Seats as seats;

use crate::ahead::NextAction;
use crate::choosing::own_event;
use crate::seat::Seat;
use command_semantics::{Point, View};
use script_data::{Line, Verb};
use stamp_base::NodeNo;

/// Passes each of the actor's lines with nothing left to do, from the seat's place on.
pub fn pass(base: u64, leads: &[u64], master: NodeNo, view: &View, lines: &[Line], seat: &mut Seat)
    requires room { All (λ line. HaveRoom base leads.now line.verb) lines.now }
    requires place { seat.old.place ≤ length lines.now }
    ensures { seat.new ≡ seats.passed (clocks base leads.now master) view.now (drop seat.old.place lines.now) seat.old }
{
    while seat.place < lines.len()
        && is_passed(base, leads, master, view, &lines[seat.place], seat)
    {
        *seat = with_next_line(&lines[seat.place], seat);
    }
}

/// A line that awaits a name has something to do, whether or not the name is posted.
fn is_passed(
    base: u64,
    leads: &[u64],
    master: NodeNo,
    view: &View,
    line: &Line,
    seat: &Seat,
) -> bool
    requires { HaveRoom base leads.now line.now.verb }
    ensures { result ≡ seats.is_passed (seats.ahead_of (clocks base leads.now master) true view.now line.now seat.now) }
{
    let ahead = own_event(
        base,
        leads,
        master,
        true,
        line,
        seat.point,
        view,
        seat.unawaited,
    );
    matches!(ahead, NextAction::Passes)
}

/// The seat with this line passed. Once a collect is passed, no ask is left unawaited.
fn with_next_line(line: &Line, seat: &Seat) -> Seat
    requires { seat.now.place < 2 ^ 63 }
    ensures { result ≡ seats.with_next_line line.now seat.now }
{
    Seat {
        actor: seat.actor,
        place: seat.place + 1,
        point: Point::Opens,
        unawaited: seat.unawaited && !matches!(line.verb, Verb::Collect),
    }
}
