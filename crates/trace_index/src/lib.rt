//! From what was recorded to the trace that is judged: its transactions, who wrote what was read, which order of versions is told, and
//! which open outcomes count, and why just those.
#![tactic(auto)]

mod attempts;
mod fault;
mod flags;
mod indexing;
mod latest;
mod listings;
mod numbers;
mod outcomes;
mod said;
mod uses;
mod versions;
mod writers;

pub use attempts::{Attempt, Fate, attempts_of};
pub use fault::{Fault, Unclear};
pub use indexing::{Indexed, index};
pub use outcomes::open_outcomes_are_the_least;
