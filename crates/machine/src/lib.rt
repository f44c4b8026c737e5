//! The machine: what the whole system does at each event, as plain data and definitions, without a word of the code that
//! does it.
#![tactic(auto)]

mod event;
mod laws;
mod worked;

pub use event::{Doing, Event};
pub use laws::{
    events_come_to_outcomes, events_leave_parts, gone_stays_gone, instances_keep_stops,
    reads_count_if_strict, refusals_leave_all, requests_are_told_once, seen_goes_up,
    stores_are_asked_once,
};
pub use worked::{
    boundaries_of_the_lease, conflict, crash, end_of_the_stamps, faulted_put,
    faulted_take_and_write, hidden, late_begin, late_draw, late_put, not_yet, own_writes,
    plain_path, put_before_the_read, ranges, reads_of_the_vanished, recalled_commit, recalled_mark,
    refusals_of_order, stray_mark, too_many_keys_read, vanished_session, write_skew,
};
