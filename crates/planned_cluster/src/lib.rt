//! A cluster under the weather that a script plans, with the base clock of its readings: what carries out a script makes its
//! events here, one by one, in whatever order.
#![tactic(auto)]

mod planned;
mod watched;

pub use cluster_core::{Cluster, Stopped};
pub use planned::{PlannedCluster, see_session};
pub use watched::WatchedCluster;
