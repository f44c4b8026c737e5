//! The stores at rest, and their compaction to a water stamp: versions that no reader at the water or above it can see are dropped.
#![tactic(auto)]

mod archive;
mod keeping;
mod latest;
mod laws;
mod worked;

pub use archive::{Archive, TooOld};
pub use laws::{
    archives_are_visible, compaction_keeps_snapshots, nothing_else_is_visible,
    snapshots_are_visible,
};
pub use worked::{commits_have_their_rows, readers_find_the_latest_row, rows_below_the_water_go};
