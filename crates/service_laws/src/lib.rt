//! Why users may rely on what they are told, in every history of the machine: outcomes that are told are true, stamps keep to
//! real time, own writes stand, and with strict reads there is one copy.
#![tactic(auto)]

mod one_copy;
mod own_writes;
mod service;
mod stamps;
mod told;

pub use one_copy::{one_copy_if_strict, reads_give_one_copy};
pub use own_writes::{events_keep_own_writes, own_writes_at_first, own_writes_stand};
pub use service::{events_keep_service, service_at_first, service_is_kept, service_stands};
pub use stamps::{events_keep_stamps, snapshots_rise, stamps_are_fresh, stamps_at_first};
pub use told::{
    events_keep_told, one_outcome_is_told, told_at_first, told_is_true, told_stays_true,
};
