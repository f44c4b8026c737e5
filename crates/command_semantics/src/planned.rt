// Why the history of a script has the faults, the ticks and the readings that the script plans.
ghost use Rattle.command_semantics.specs.PlannedLaws.{PlannedAtFirst, EventsStayPlanned, PlannedInTheEnd, LinesReadClocks, ScriptsArePlanned};
ghost use Rattle.command_semantics.specs.Orders.{EventsStayTold, OrdersArePlanned};

use crate::laws::events_lower_what_is_left;

/// Before the first event everything is as planned.
pub fn planned_at_first()
    ensures { PlannedAtFirst }
{}

/// Every event keeps to the plan that has the reading of its node's clock, in every state that is reached, under the fate that
/// is planned for its store call: its faults are planned, its time is that of the clock, and its readings are those of the
/// clocks. It does not matter which events came before, and where this one comes from.
pub fn events_stay_planned()
    ensures { EventsStayPlanned }
{}

/// What kept to the plan is as the script plans it, once the clock has ticked as the lines say.
pub fn planned_in_the_end()
    ensures { PlannedInTheEnd }
{}

/// The events that the run of a line makes read the clocks, and the clock's line alone ticks, once.
pub fn lines_read_clocks()
    ensures { LinesReadClocks }
{}

/// The history of a script that is carried out in file order is as planned: no store has more faults than are planned for it,
/// the clock shows the sums of the ticks of the lines, and each reading is that of its node's clock. All that is asked for is
/// that the numbers of the setup are in range, no clock is ahead by more than the skew, and the ticks are few.
pub fn scripts_are_planned()
    ensures { ScriptsArePlanned }
{
    events_lower_what_is_left();
}

/// What was played stays reached, and shown by its history, with every event that reads the clocks, where none of them is ahead
/// by more than the skew and the ticks are few.
pub fn events_stay_told()
    ensures { EventsStayTold }
{}

/// The history of events in any order is as planned, where each reads the clocks as they stand when it is made and the clock
/// ticks as the script's lines say.
pub fn orders_are_planned()
    ensures { OrdersArePlanned }
{}
