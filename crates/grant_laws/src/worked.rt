// Short scripts whose last line asks for one thing: once all premises hold and it is granted, and once one of them is lacking
// and it is refused.
ghost use Rattle.std.specs.Prelude.{◌≡◌, []};
ghost use Rattle.stamp_base.specs.declared.stores.Store.TheVariants.{Cells, Table};
ghost use Rattle.history_book.specs.declared.item.Item.TheVariants.{Begin, Committed};
ghost use Rattle.script_data.specs.declared.line.Target.TheVariants.{Master};
ghost use Rattle.command_semantics.specs.Runs.{replayed};
ghost use Rattle.grant_laws.specs.Granted.{node_asked, Grants};
ghost use Rattle.grant_laws.specs.Premises.{CanTake, CanBegin, CanWrite, CanRead, CanCommit, cells_to_read};
ghost use Rattle.grant_laws.specs.Worked as worked;

use crate::granted::{begins_are_granted, commits_are_granted};

/// A free record is taken. By another node at the same time it is not: two ticks after the end of the lease it could be.
pub fn a_take()
    ensures can { CanTake worked.taking (worked.after worked.taking []) 0 }
    ensures granted { replayed worked.taking ≡ worked.taking_items }
    ensures lacks_time { CanTake worked.taking_again (worked.at_time 12 worked.before_taking_again) 1 }
    ensures refused { replayed worked.taking_again ≡ worked.taking_again_items }
{}

/// A begin has its start. At the end of the lease it is refused: at an earlier time it could be granted.
pub fn a_begin()
    ensures can { CanBegin worked.beginning worked.before_beginning 0 0 }
    ensures granted { replayed worked.beginning ≡ worked.beginning_items }
    ensures lacks_lease { CanBegin worked.beginning_late (worked.at_time 0 worked.before_beginning_late) 0 0 }
    ensures refused { replayed worked.beginning_late ≡ worked.beginning_late_items }
{}

/// A write is made. Where the cells fail, all else being the same, its transaction ends.
pub fn a_write()
    ensures can { CanWrite worked.writing worked.before_writing 0 0 }
    ensures granted { replayed worked.writing ≡ worked.writing_items }
    ensures refused { replayed (worked.failing Cells worked.writing) ≡ worked.failed_write_items }
{}

/// A read has its answer. Where the cells fail, all else being the same, it has none.
pub fn a_read()
    ensures can { CanRead worked.reading worked.before_reading 0 0 }
    ensures granted { replayed worked.reading ≡ worked.reading_items }
    ensures refused { replayed (worked.failing Cells worked.reading) ≡ worked.failed_read_items }
{}

/// A read has one cell to resolve where another session has written the key, and two where that session has let a transaction go,
/// whose undo a fault has ended: all else is the same.
pub fn a_left_cell()
    ensures one { cells_to_read (worked.before_left worked.undoing) 3 0 ≡ 1 }
    ensures two { cells_to_read (worked.before_left worked.letting_go) 3 0 ≡ 2 }
{}

/// A commit is granted, by the law. Where its put fails, all else being the same, its outcome is open.
pub fn a_commit()
    ensures can { CanCommit worked.committing worked.before_committing 0 0 }
    ensures granted { Grants worked.committing worked.commit worked.before_committing (Committed 0 1 2) }
    ensures refused { replayed (worked.failing Table worked.committing) ≡ worked.failed_commit_items }
{
    commits_are_granted();
}

/// A commit is granted, by the law, whose transaction read what another one writes, whose commit is drawn meanwhile. With strict
/// reads, all else being the same, it is refused for that key.
pub fn a_strict_commit()
    ensures can { CanCommit worked.crossing worked.before_crossing 0 0 }
    ensures granted { Grants worked.crossing worked.commit worked.before_crossing (Committed 0 1 4) }
    ensures refused { replayed (worked.strictly worked.crossing) ≡ worked.refused_crossing_items }
{
    commits_are_granted();
}

/// A commit that its session places is granted, by the law. Where the placing fails, all else being the same, its outcome is open;
/// and a begin that comes before the placing is answered.
pub fn a_direct_commit()
    ensures can { CanCommit (worked.directly worked.committing) worked.before_direct 0 0 }
    ensures granted { Grants (worked.directly worked.committing) worked.commit worked.before_direct (Committed 0 1 2) }
    ensures refused { replayed (worked.failing Table (worked.directly worked.committing)) ≡ worked.failed_direct_items }
    ensures begins { replayed worked.direct_begin ≡ worked.direct_begin_items }
{
    commits_are_granted();
}

/// A begin that names the master is granted, by the law, by the node that took the record last. Where that node has not taken it
/// the begin asks the first, whose lease has ended, and is refused.
pub fn a_master_begin()
    ensures asks { node_asked worked.asking_master worked.before_master_begin Master ≡ 1 }
    ensures can { CanBegin worked.asking_master worked.before_master_begin 0 (node_asked worked.asking_master worked.before_master_begin Master) }
    ensures granted { Grants worked.asking_master worked.master_begin worked.before_master_begin (Begin 0 101) }
    ensures refused { replayed worked.asking_first ≡ worked.asking_first_items }
{
    begins_are_granted();
}

/// So is a commit that names the master.
pub fn a_master_commit()
    ensures asks { node_asked worked.asking_master worked.before_master_commit Master ≡ 1 }
    ensures can { CanCommit worked.asking_master worked.before_master_commit 0 (node_asked worked.asking_master worked.before_master_commit Master) }
    ensures granted { Grants worked.asking_master worked.master_commit worked.before_master_commit (Committed 0 101 102) }
{
    commits_are_granted();
}
