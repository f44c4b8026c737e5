//! The top call of `omid_check`: words and a trace in, a verdict out, and a status.
#![tactic(auto)]

#[cfg(test)]
mod anomaly_tests;
mod check;
mod committed;
mod finding;
mod judged;
mod levels;
mod limit;
#[cfg(test)]
mod list_tests;
mod made;
#[cfg(test)]
mod order_tests;
#[cfg(test)]
mod stamp_tests;
mod stamps;
mod status;
mod steps;
#[cfg(test)]
mod tests;
#[cfg(test)]
mod told_tests;
#[cfg(test)]
mod traces;
#[cfg(test)]
mod word_tests;
mod words;

pub use check::{last_status, omid_check};
pub use limit::TRACE_LIMIT;
pub use status::NO_MEMORY;
pub use words::{Command, Question, command_of, words_behind};
