//! The order of versions that a trace tells: its edges, and whether numbers keep it.
#![tactic(auto)]

mod edges;
mod rise;

pub use edges::lay_ranks;
pub use rise::keep_ranks;
