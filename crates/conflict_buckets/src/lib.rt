//! The bounded memory of conflicts of an oracle's instance: the latest commits of keys, and for each bucket the latest
//! commit that it forgot.
#![tactic(auto)]

mod bucket;
mod buckets;
mod pairs;
mod runs;

pub use buckets::Buckets;
pub use system_parts::{Recorded, Verdict};
