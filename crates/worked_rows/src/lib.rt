//! Calls of the program over bytes in memory, for tests of the whole program, and the worked examples as tables: words, input,
//! output and status, but for those on threads.
#![tactic(auto)]

#[cfg(test)]
mod audits;
#[cfg(test)]
mod bad_scripts;
mod calls;
#[cfg(test)]
mod compactions;
#[cfg(test)]
mod drips;
mod failing;
#[cfg(test)]
mod faults;
#[cfg(test)]
mod hostile;
#[cfg(test)]
mod json;
mod ports;
#[cfg(test)]
mod progress;
#[cfg(test)]
mod rows;
#[cfg(test)]
mod storms;
mod told;
#[cfg(test)]
mod words;

pub use calls::{answer_of, answers, is_carried_out, is_isolated, joined, written_for};
pub use failing::{first_lines, keeps_lines, reads_nothing};
// Tests name these by way of this crate, and so stand on the program once.
pub use omid_top::{Gate, GatePlace, OpenGate, words_behind};
pub use ports::{call, open_sink, open_source};
pub use told::{Told, first_unlike, first_untold};
