// Every run of a line ends, and what is carried out keeps all facts.
ghost use Rattle.command_semantics.specs.Laws.{EventsLowerWhatIsLeft, RunsEnd, LinesKeepFacts, ScriptsAreReached, LinesAreAnswered};

use system_parts::{recalled_reads_end, settles_end};

/// Each event that the run of a line makes leaves fewer to make, in every state that is reached, whatever becomes of its store
/// call. So every run ends.
pub fn events_lower_what_is_left()
    ensures { EventsLowerWhatIsLeft }
{
    recalled_reads_end();
    settles_end();
}

/// The run of a line goes to its end: after as many events as can be left at most, none is next.
pub fn runs_end()
    ensures { RunsEnd }
{
    events_lower_what_is_left();
}

/// The lines of a script, each to its end, lead from a state that is reached to one that is reached.
pub fn lines_keep_facts()
    ensures { LinesKeepFacts }
{
    events_lower_what_is_left();
}

/// So does a whole script, whose setup is in range, whose clocks are ahead by at most the skew, and whose ticks are few: all
/// facts hold in the end, and the history is isolated with them.
pub fn scripts_are_reached()
    ensures { ScriptsAreReached }
{
    events_lower_what_is_left();
}

/// The history of a script answers its lines: each line of an actor with an opening item is answered once, in order, a read that
/// it has begun ends before the next, and nothing opens a line that is not there. All that is asked beside is that the script's
/// lines name actors and nodes of the system.
pub fn lines_are_answered()
    ensures { LinesAreAnswered }
{
    events_lower_what_is_left();
}
