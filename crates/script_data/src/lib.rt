//! What an actor's line says, and what scripts are as plain data.
#![tactic(auto)]

mod limits;
mod line;

pub use limits::FAULT_LIMIT;
pub use line::{Line, Target, Verb};
