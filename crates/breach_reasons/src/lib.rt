//! What an audit finds, in words: what is broken first, the items that show it, and what would have been right.
#![tactic(auto)]

mod concerned;
mod explain;
mod finding;
mod kind;
mod laws;
mod shared;

pub use concerned::{breach_items, ringed};
pub use explain::print_finding;
pub use finding::{Finding, find, print_line};
pub use kind::{ReadKind, read_kind};
pub use laws::breaches_are_told;
pub use shared::shared_write;
