//! The events by which a session asks, writes, begins a read or ends, and those that make one step of what is under way, a
//! session's or the janitor's: each over the parts that it touches, exact to the machine's definition of it.
#![tactic(auto)]

mod aborting;
mod asks;
mod begin_asking;
mod commit_asking;
mod fetching;
mod healing;
mod placing;
mod step_stores;
mod stepping;
mod stores_asked;
mod sweeping;
mod vanishing;
mod writing;

pub use aborting::abort;
pub use begin_asking::ask_begin;
pub use commit_asking::ask_commit;
pub use fetching::fetch;
pub use healing::heal;
pub use step_stores::{heal_store, next_store, sweep_store};
pub use stepping::step;
pub use stores_asked::{fetch_store, write_store};
pub use sweeping::{sweep_open, sweep_step};
pub use vanishing::vanish;
pub use writing::write;
