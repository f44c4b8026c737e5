//! Client sessions: what a session is about, what it has written, and what it remembers of other transactions.
#![tactic(auto)]

mod memory;
mod session;

pub use session::{Session, check_key};
pub use system_parts::{Known, State};
