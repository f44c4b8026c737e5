// What holds of every history that logs settle into, which follow the lines of a script.
ghost use Rattle.log_refinement.specs.Laws.{ScriptsWithoutStageLinesAreServed, ServedHistoriesAnswer, SettledLogsAnswer, SettledLogsArePlanned, SettledLogsKeepService, SettledLogsServe};

use command_semantics::events_stay_told;
use request_completion::{
    asks_are_turns, begins_are_asked, closed_asks_are_over, ends_at_first, events_keep_ends,
    lost_asks_are_over, over_stays_over, session_turns, silent_answers_repeat,
};
use script_service::orders_keep_service;
use split_stores::{settled_by_plans, settled_is_ordered, settled_is_planned};

/// The history answers the script: each line of each actor once, in the order of the actor's lines.
pub fn settled_logs_answer()
    ensures { SettledLogsAnswer }
{
    events_stay_told();
    settled_by_plans();
}

/// It has the faults, ticks and readings that the script plans.
pub fn settled_logs_are_planned()
    ensures { SettledLogsArePlanned }
{
    settled_is_planned();
}

/// What its sessions are told may be relied on: outcomes are true, and stamps keep to real time.
pub fn settled_logs_keep_service()
    ensures { SettledLogsKeepService }
{
    settled_is_ordered();
    orders_keep_service();
}

/// It serves the script: what each begin and each commit has asked is over before its session's next line, unless its node could
/// not reach its record, or has no request of it, which others served or a crash took.
pub fn settled_logs_serve()
    ensures { SettledLogsServe }
{
    events_stay_told();
    settled_by_plans();
    ends_at_first();
    events_keep_ends();
    session_turns();
    begins_are_asked();
    asks_are_turns();
    lost_asks_are_over();
    silent_answers_repeat();
    over_stays_over();
    closed_asks_are_over();
}

/// A history that serves a script answers it, at the same places.
pub fn served_histories_answer()
    ensures { ServedHistoriesAnswer }
{}

/// Where no line of the script makes a stage's event for a session, and its node does not crash in between, what the session asks
/// ends by its outcome, and never since the node has no request of it.
pub fn scripts_without_stage_lines_are_served()
    ensures { ScriptsWithoutStageLinesAreServed }
{}
