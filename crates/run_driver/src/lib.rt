//! A script carried out on threads: one for each actor with lines, and at each node one for each stage of its pipeline; or, over
//! split stores, one for each actor with lines alone.
#![tactic(auto)]

mod driver;
mod rest;
mod round;

pub use cluster_core::Cluster;
pub use driver::run;
pub use reply_pipeline::{Gate, GatePlace, OpenGate, WaitsFor};
pub use split_driver::{SplitStop, run_split, split_scripts_may_split};
pub use turn_rules::Turn;
