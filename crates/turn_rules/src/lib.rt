//! What a list of turns makes of a script that is carried out on threads: at each turn an actor makes the next event of its
//! present line, or a stage of a node serves a request.
#![tactic(auto)]

mod ahead;
mod choosing;
mod laws;
mod passing;
mod seat;
mod turn;
mod worked;

pub use ahead::{NextAction, Why};
pub use choosing::own_event;
pub use laws::{
    own_events_lower_what_is_left, own_turns_are_told, quiet_turns_change_nothing,
    stage_turns_are_told, turns_answer, turns_answer_so_far, turns_are_planned,
    turns_are_planned_so_far, turns_keep_facts,
};
pub use passing::pass;
pub use seat::{Holds, Seat, was_asked};
pub use turn::{Turn, stage_turn};
pub use worked::a_crash_ends_the_wait;
