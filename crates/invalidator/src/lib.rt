//! The resolve of one cell, and the sweep of a transaction whose session has vanished: two machines that ask for one
//! store step at a time and are told its answer.
#![tactic(auto)]

mod settle;
mod sweep;

pub use settle::Settle;
pub use sweep::Sweep;
pub use system_parts::Outcome;
