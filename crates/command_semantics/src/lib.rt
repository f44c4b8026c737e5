//! What a line of a script does, event by event, and why the history of a script has the faults, the ticks and the readings that
//! the script plans, whatever the order that events are made in.
#![tactic(auto)]

mod choosing;
mod following;
mod laws;
mod planned;
mod point;

pub use choosing::{idle_next, is_served, next_event, places, placing_next};
pub use following::follows;
pub use laws::{
    events_lower_what_is_left, lines_are_answered, lines_keep_facts, runs_end, scripts_are_reached,
};
pub use planned::{
    events_stay_planned, events_stay_told, lines_read_clocks, orders_are_planned, planned_at_first,
    planned_in_the_end, scripts_are_planned,
};
pub use point::{Interruption, Point, View, refused};
