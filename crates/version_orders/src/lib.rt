//! The order of a key's versions that edges which are sure force, and what follows of it for readers.
#![tactic(auto)]

mod candidates;
mod laws;
mod orders;
mod paths;

pub use laws::orders_are_forced;
pub use orders::{Laid, add_orders};
