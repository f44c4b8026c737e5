//! Which lines the log of an actor over split stores is of: what its entries open, what a line still owes, and that logs which
//! follow the lines of a script answer it.
#![tactic(auto)]

mod laws;
mod owed;
mod worked;

pub use laws::{
    scripts_without_stage_lines_are_served, served_histories_answer, settled_logs_answer,
    settled_logs_are_planned, settled_logs_keep_service, settled_logs_serve,
};
pub use owed::{Due, Owed};
pub use worked::{denials_count_where_they_are_due, denials_have_a_reason};
