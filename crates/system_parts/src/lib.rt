//! What the parts of the system stand for: rows, entries of the commit table and the master record, and how calls stand to their
//! weather; the states of a session and the step machines that ask the stores; the memory of conflicts, an instance with its
//! requests, and the posts. Plain data and definitions, with laws.
#![tactic(auto)]

mod asks;
mod buckets;
mod completion;
mod instance;
mod instance_laws;
mod key_read;
mod known;
mod pairs;
mod record;
mod resolve;
mod rows;
mod session;
mod store_errors;
mod sweep;

pub use asks::{Ask, Told};
pub use buckets::{
    Recorded, Verdict, buckets_stay_in_order, kept_commits_are_the_last,
    last_commits_are_remembered, last_commits_are_the_greatest, recordings_go_on,
    verdicts_are_shown, waters_were_recorded,
};
pub use completion::{
    completions_ask_for_their_keys, completions_end, completions_go_key_by_key, removal_comes_last,
};
pub use instance::{Decided, Held, Place, Progress, Reply, Request, Settled};
pub use instance_laws::{
    begins_wait_for_commits, calls_leave_other_requests, decisions_alone_draw,
    drawn_commits_are_free, drawn_stamps_are_next, instances_go_up, last_stamps_stay_in_range,
    least_unsettled_is_the_least, recorded_commits_rise, requests_fit_the_slots,
    requests_stand_apart, stamps_of_requests_stay_between,
};
pub use key_read::{
    Answer, Next, answers_own_or_below, answers_resolved, cut_reads_are_whole, passed_are_late,
    passes_dead_or_late, reads_end, reads_mark_old_alone,
};
pub use known::{
    Known, cut_recalls_are_whole, memories_keep, nothing_kept_is_plain, recalled_reads_end,
    recalls_go_cell_by_cell,
};
pub use pairs::Put;
pub use record::{ExtendRefused, Grant, RenewRefused, TakeRefused};
pub use resolve::{
    Outcome, SettlePoint, committed_is_told, dead_by_last_look, mark_never_decides,
    marks_where_allowed, settles_end,
};
pub use rows::{
    Cell, fetches_give_what_is_looked_up, fronts_fall, keys_of_a_version_are_looked_up,
    puts_change_one_cell, removals_take_bare_cells, shadows_change_one_cell,
};
pub use session::{State, sessions_keep_sense, write_lists_are_first_writes};
pub use store_errors::{StoreError, StoreFault, answered_under};
pub use sweep::{sweep_erases_marked, sweep_marks_old_alone, sweeps_end, undecided_only_above};
