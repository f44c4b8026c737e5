//! The worked examples of the whole program, as texts: scripts, the histories that replays of them must write, byte for byte, by
//! topic, and what they share: pieces of histories, and a place at which two threads meet.
#![tactic(auto)]

pub mod answers;
pub mod commits;
pub mod conflicts;
pub mod direct;
pub mod direct_faults;
pub mod examples;
pub mod hostile;
pub mod json;
pub mod leases;
pub mod many_keys;
pub mod masters;
mod meeting;
pub mod outcomes;
pub mod refusals;
pub mod remembered;
mod replay;
pub mod strict;
pub mod takeovers;
pub mod threads;

pub use meeting::Meeting;
pub use replay::{READ_BEHIND, Replay};
