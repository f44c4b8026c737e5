//! The read of a key: a machine that goes over the fetched cells from the greatest version down, and asks for one store
//! step at a time where a cell is not decided by itself.
#![tactic(auto)]

mod run;
mod turn;

pub use run::ReadRun;
pub use system_parts::{Answer, Cell, Next};
