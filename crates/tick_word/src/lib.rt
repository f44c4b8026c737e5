//! Ticks: numbers from 1 on that any number of threads draw from one word, each number once. A thread draws through a handle of
//! its own, which keeps what it has drawn; once all handles are joined, they hold the ticks from 1 to the last.
#![tactic(auto)]

mod rule;
mod word;

pub use rule::TickView;
pub use word::{PART_LIMIT, SEAT_LIMIT, TickHandle, TickWord};
