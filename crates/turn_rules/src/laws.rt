// Each line ends, all facts hold, and lines are answered, whichever turns are made.
ghost use Rattle.turn_rules.specs.Laws.{OwnEventsLowerWhatIsLeft, TurnsKeepFacts, TurnsAnswerSoFar, TurnsAnswer, TurnsArePlannedSoFar, TurnsArePlanned};
ghost use Rattle.turn_rules.specs.Told.{OwnTurnsAreTold, StageTurnsAreTold, QuietTurnsChangeNothing};

use cause_laws::told_at_first;
use command_semantics::{
    events_lower_what_is_left, events_stay_planned, events_stay_told, lines_read_clocks,
    planned_at_first, planned_in_the_end,
};

/// Each event of an own turn leaves fewer to make of its line, in every state that is reached, whatever becomes of its store
/// call. So each line ends, once it no longer waits.
pub fn own_events_lower_what_is_left()
    ensures { OwnEventsLowerWhatIsLeft }
{
    events_lower_what_is_left();
}

/// Whichever turns are made of a script whose setup is in range, whose clocks are ahead by at most the skew and whose ticks are
/// few, all facts hold after them, and the history is isolated with them.
pub fn turns_keep_facts()
    ensures { TurnsKeepFacts }
{}

/// Whichever turns are made, the lines that an actor has passed are answered in the history, and so is its present line once it
/// has opened; a read under way is owed.
pub fn turns_answer_so_far()
    ensures { TurnsAnswerSoFar }
{}

/// Where no actor has a line left, the history answers every line of the script.
pub fn turns_answer()
    ensures { TurnsAnswer }
{}

/// Whichever turns are made, the history keeps to the script's plan: no store has more faults than are planned for it, the clock
/// has ticked as its lines say up to its seat, and each reading is that of its node's clock.
pub fn turns_are_planned_so_far()
    ensures { TurnsArePlannedSoFar }
{
    planned_at_first();
    events_stay_planned();
    events_stay_told();
    lines_read_clocks();
    told_at_first();
}

/// Where no actor has a line left, the history is as the script plans it.
pub fn turns_are_planned()
    ensures { TurnsArePlanned }
{
    turns_are_planned_so_far();
    planned_in_the_end();
}

/// Each event of an own turn appends an item to the history, or opens a sweep, where the script's lines are of the forms for
/// threads.
pub fn own_turns_are_told()
    ensures { OwnTurnsAreTold }
{}

/// An acceptance, a put and an extension append an item wherever their stage can make them.
pub fn stage_turns_are_told()
    ensures { StageTurnsAreTold }
{}

/// A decision and an answer that append nothing change nothing: so they can be left out.
pub fn quiet_turns_change_nothing()
    ensures { QuietTurnsChangeNothing }
{}
