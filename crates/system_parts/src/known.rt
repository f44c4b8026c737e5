ghost use Rattle.system_parts.specs.RecalledReads.{MemoriesKeep, NothingKeptIsPlain, RecallsGoCellByCell, RecalledReadsEnd, CutRecallsAreWhole};

use stamp_base::Stamp;

/// What a session remembers of another transaction: with which commit it committed, or that it never will.
#[derive(Clone, Copy, Debug, PartialEq, Eq)]
pub enum Known {
    /// It committed, with this commit.
    Committed(Stamp),
    /// It never commits.
    Dead,
}

/// A recall leaves what a session remembers, in another order; what was fresh is kept next, and no more than that.
pub fn memories_keep()
    ensures { MemoriesKeep }
{}

/// Without room nothing is kept, and where nothing is kept a read that recalls is the plain one.
pub fn nothing_kept_is_plain()
    ensures { NothingKeptIsPlain }
{}

/// A read that recalls is the plain one up to the cell that it comes to; there what is kept decides, or it asks.
pub fn recalls_go_cell_by_cell()
    ensures { RecallsGoCellByCell }
{}

/// A read that recalls ends within three steps for each cell.
pub fn recalled_reads_end()
    ensures { RecalledReadsEnd }
{}

/// A read that recalls over the cells down to the first with a shadow below the start alone is that over all of them.
pub fn cut_recalls_are_whole()
    ensures { CutRecallsAreWhole }
{}
