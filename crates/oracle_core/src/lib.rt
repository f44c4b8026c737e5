//! An oracle's instance: the requests that it holds, taken step by step from the ask to the answer.
#![tactic(auto)]

mod instance;
mod requests;

pub use instance::Instance;
pub use system_parts::{Decided, Held, Place, Reply, Request, Settled};
