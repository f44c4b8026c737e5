//! The order of a key's versions that a trace tells.
#![tactic(auto)]

mod rank;

pub use rank::{Rank, join_runs};
