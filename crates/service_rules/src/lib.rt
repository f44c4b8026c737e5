//! What users rely on beside isolation, as definitions over a finished history, with small histories for and against each: what
//! sessions are told is true, stamps keep to real time, own writes stand, and with strict reads there is one copy.
#![tactic(auto)]

mod worked;
mod worked_own;

pub use worked::{
    commits_are_placed_before_they_are_told, ended_transactions_stay_out, reads_are_of_one_copy,
    refused_commits_stay_out, stamps_are_above_what_was_told,
};
pub use worked_own::{
    erased_writes_may_be_missed, last_writes_are_read, nothing_else_hides_a_write,
};
