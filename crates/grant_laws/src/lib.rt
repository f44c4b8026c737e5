//! Why what is asked for is granted: where no cause of a refusal stands, the line appends what it asks for.
#![tactic(auto)]

mod between;
mod carried;
mod granted;
mod runs;
mod waiting;
mod worked;
mod worked_runs;

pub use between::{asks_are_carried, early_answers_wait, placings_stay, reads_stay};
pub use carried::{
    extensions_are_carried, placings_are_carried, reads_are_carried, requests_stay,
    served_turns_are_granted, takes_are_carried, writes_are_carried,
};
pub use granted::{
    begins_are_granted, commits_are_granted, direct_begins_never_wait, reads_are_granted,
    takes_are_granted, writes_are_granted,
};
pub use runs::{
    commit_lines_place, runs_grant_begins, runs_grant_commits, runs_grant_reads, runs_grant_takes,
    runs_grant_writes,
};
pub use waiting::stuck_runs_wait;
pub use worked::{
    a_begin, a_commit, a_direct_commit, a_left_cell, a_master_begin, a_master_commit, a_read,
    a_take, a_write,
};
pub use worked_runs::{
    a_begin_on_threads, a_commit_on_threads, a_direct_commit_on_threads, a_hold_on_threads,
    a_master_begin_on_threads, a_name_on_threads, a_read_on_threads, a_take_on_threads,
    a_write_on_threads, an_early_answer_on_threads,
};
