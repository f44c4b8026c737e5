//! The rules of isolation as pairs of items that break them, and a plain walk that finds the least pair; and small histories beside
//! the definitions of isolation and of serial order.
#![tactic(auto)]

mod apart;
mod fresh;
mod read;
mod stamped;
mod verdict;
mod version;
mod views;
mod visible;
mod walk;
mod worked;

pub use apart::wrote;
pub use read::second_by_views;
pub use verdict::{Rule, Verdict};
pub use version::Version;
pub use views::Views;
pub use walk::{Pair, plain_pair, second_of};
pub use worked::{
    own_writes_are_read_first, reads_after_own_writes_stand, reads_count_late_commits,
    stamps_tell_times_apart, two_writers_are_not_apart, write_skew_is_not_serial,
};
