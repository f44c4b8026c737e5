//! A script carried out in file order, on one thread: each line event by event to its end, under the weather that the script
//! plans, at the readings of its clocks. And the storm, a script that is made.
#![tactic(auto)]

mod choosing;
mod draft;
mod driver;
mod play;
mod progress;
mod storm;

pub use cluster_core::Cluster;
pub use driver::{replay, replay_told};
pub use progress::Progress;
pub use storm::{STORM_LIMIT, storm_script};
