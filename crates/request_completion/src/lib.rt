//! What the machine tells of a session's ask beyond what the session's own events show: what an event makes of a session, how an
//! ask and a completion come to their end, and how the history shows it.
#![tactic(auto)]

mod asks;
mod completions;
mod ends;
mod turns;

pub use asks::{
    begins_are_asked, closed_asks_are_over, commits_are_asked, lost_asks_are_over, over_stays_over,
    owing_needs_an_ask, silent_answers_repeat,
};
pub use completions::{
    completion_steps_tell, idle_steps_complete_nothing, others_leave_completions,
    steps_move_completions,
};
pub use ends::{
    commits_are_removed, ends_at_first, events_keep_ends, open_outcomes_were_told,
    refusals_are_erased, told_waits_stand,
};
pub use turns::{asks_are_turns, session_turns};
