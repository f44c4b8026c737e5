// What stores at rest show their readers, before a compaction and after it.
ghost use Rattle.cell_compaction.specs.Laws.{SnapshotsAreVisible, NothingElseIsVisible, CompactionKeepsSnapshots, ArchivesAreVisible};

/// Stores at rest give every reader, whatever its start, what it sees in the history.
pub fn snapshots_are_visible()
    ensures { SnapshotsAreVisible }
{}

/// And it sees nothing else there, where starts and commits are all different: what it finds is what is visible.
pub fn nothing_else_is_visible()
    ensures { NothingElseIsVisible }
{}

/// A reader at the water or above it finds in the rows that stay what it finds in all rows.
#[tactic(auto, using(crate::proofs::KeptRows::compaction_keeps))]
pub fn compaction_keeps_snapshots()
    ensures { CompactionKeepsSnapshots }
{}

/// So such a reader finds in the rows that stay what it sees in the history.
pub fn archives_are_visible()
    ensures { ArchivesAreVisible }
{}
