//! The cluster: all parts of the system, each call one step of the machine, and a type that keeps its history isolated and
//! explained, and serial where reads are strict.
#![tactic(auto)]

mod asking;
mod calls;
mod clock_events;
mod cluster;
mod engine;
mod lending;
mod readers;
mod record_events;
mod request_events;
mod stores;
mod sweep_events;
mod transaction_events;

pub use cluster::Cluster;
pub use engine::ClusterState;
pub use event_parts::Stopped;
pub use stores::Stores;
