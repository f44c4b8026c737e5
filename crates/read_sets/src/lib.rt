//! What transactions read: the keys of a session's reads, the check of a commit on what it wrote and read, and the judge
//! of serial histories.
#![tactic(auto)]

mod check;
mod cleared;
mod index;
mod judge;
mod plain;
mod read_set;
mod search;

pub use check::check_both;
pub use judge::{SerialVerdict, judge_serial};
pub use read_set::ReadSet;
