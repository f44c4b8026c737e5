//! Scripts for threads: what their reader's mode keeps out, which actors have lines, how far cursors have come with those lines,
//! and a script once more.
#![tactic(auto)]

mod actors;
mod copying;
mod ends;
mod laws;

pub use actors::{actors_with_lines, parts_of};
pub use copying::{copied, is_same};
pub use ends::are_at_their_ends;
pub use laws::run_scripts_are_for_threads;
