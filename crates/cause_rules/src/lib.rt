//! What shows each refusal in a history: one definition for each cause, over the items before it.
#![tactic(auto)]

mod commits;
mod nodes;
mod requests;
mod terms;

pub use commits::{
    conflicts_are_above_the_start, forgotten_keys_are_hidden, lost_commits_are_open,
    marked_commits_are_invalid,
};
pub use nodes::{
    causes_are_told_to_whom_they_meet, early_takes_meet_a_lease, holders_have_an_instance,
    nodes_without_instance_are_no_oracles,
};
pub use requests::{
    begins_wait_for_commits_below, full_nodes_have_open_asks, gone_sessions_vanished,
    lost_begins_crashed,
};
pub use terms::{
    ends_of_leases_are_the_nodes_own, epochs_are_those_of_the_last_take,
    ranges_are_drawn_to_their_end, replaced_terms_have_a_later_one, spent_stamps_leave_no_range,
};
