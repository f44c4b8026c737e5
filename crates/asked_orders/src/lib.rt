//! The orders that may be asked for besides, of sessions and of time: their edges, and whether numbers keep them.
#![tactic(auto)]

mod edges;
mod keeps;
mod plan;
mod points;

pub use edges::{Nodes, lay_asked};
pub use keeps::keep_asked;
pub use plan::{Plan, Turn, plan_of};
