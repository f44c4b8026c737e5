// Short histories of the definitions, item by item.
ghost use Rattle.std.specs.Prelude.{◌≡◌, [], ◌∷◌};
ghost use Rattle.stamp_base.specs.SetupNumbers.{default_numbers};
ghost use Rattle.machine.specs.Machine.{history_after};
ghost use Rattle.machine.specs.declared.event.Event.TheVariants as event;
ghost use Rattle.machine.specs.WorkedMoves as worked;
ghost use Rattle.machine.specs.WorkedRefusals as alone;
ghost use Rattle.machine.specs.WorkedReads as reads;
ghost use Rattle.machine.specs.WorkedRecalls as recalls;

/// A lease stands up to the reading before its end, and no other node takes the record before its end by all clocks.
pub fn boundaries_of_the_lease()
    ensures { history_after default_numbers worked.boundary_moves ≡ worked.boundary_items }
{}

/// A transaction reads what it wrote last. Once it is aborted, its cell is erased.
pub fn own_writes()
    ensures { history_after default_numbers alone.own_moves ≡ alone.own_items }
{}

/// Events that come before what they need are refused, and the history goes on as if they had not come.
pub fn refusals_of_order()
    ensures { history_after default_numbers alone.order_moves ≡ alone.order_items }
{}

/// Where one range has all the stamps, neither an extension nor a later term gets more.
pub fn end_of_the_stamps()
    ensures { history_after alone.one_range alone.end_moves ≡ alone.end_items }
{}

/// A take that failed and took effect leaves the node without an instance until the lease has ended. A write that failed ends
/// its transaction, and its cell is erased.
pub fn faulted_take_and_write()
    ensures { history_after default_numbers alone.fault_moves ≡ alone.fault_items }
{}

/// A range of two stamps: a third begin is told once that there is no stamp, and gets one after an extension. After a takeover
/// a commit ends with the refusal that the extension met.
pub fn ranges()
    ensures { history_after alone.two_stamps alone.range_moves ≡ alone.range_items }
{}

/// A begin that was accepted in time is answered after a takeover. Its commit is refused by the old node, whose lease is over,
/// and by the new one, whose epoch is above its start.
pub fn late_begin()
    ensures old_node { history_after default_numbers (alone.late_moves 0) ≡ alone.late_items 0 alone.expired_late }
    ensures new_node { history_after default_numbers (alone.late_moves 1) ≡ alone.late_items 1 alone.old_late }
{}

/// A transaction writes a key and commits: its cell gets the commit as its shadow, and its entry goes. Another one reads the
/// key, and ends without asking a node.
pub fn plain_path()
    ensures { history_after default_numbers worked.plain_moves ≡ worked.plain_items }
{}

/// Two transactions write one key: the second to be decided is refused, and its cell is erased.
pub fn conflict()
    ensures { history_after default_numbers worked.conflict_moves ≡ worked.conflict_items }
{}

/// A reader of a later term marks a transaction whose commit was drawn and not placed: the put finds the mark, the commit is
/// invalid, and its cell is erased.
pub fn late_put()
    ensures { history_after default_numbers worked.late_put_moves ≡ worked.late_put_items }
{}

/// The put of the old node comes before the read of the new term: the reader finds the commit in the table.
pub fn put_before_the_read()
    ensures { history_after default_numbers worked.early_put_moves ≡ worked.early_put_items }
{}

/// A commit that was accepted in time is drawn and placed after a takeover, with a stamp of the old term.
pub fn late_draw()
    ensures { history_after default_numbers worked.late_draw_moves ≡ worked.late_draw_items }
{}

/// A reader asks the table before a commit is placed, and marks its place after it was completed and removed: the last look
/// shows the shadow, so the mark does no harm.
pub fn stray_mark()
    ensures { history_after default_numbers worked.stray_moves ≡ worked.stray_items }
{}

/// A begin waits for the commit that was drawn below its start until it is settled, and is told so once.
pub fn not_yet()
    ensures { history_after default_numbers worked.wait_moves ≡ worked.wait_items }
{}

/// A crash leaves a commit that was drawn with an open outcome: its session marks the transaction and undoes it. A later reader
/// finds no cell, and a sweep the mark.
pub fn crash()
    ensures { history_after default_numbers worked.crash_moves ≡ worked.crash_items }
{}

/// A vanished session leaves a bare cell. A sweep by the epoch of its own term is undecided, and one by a later term marks the
/// transaction and erases the cell.
pub fn vanished_session()
    ensures { history_after default_numbers worked.vanish_moves ≡ worked.vanish_items }
{}

/// A put that failed without effect: the session marks its own transaction, which is dead, and erases its cell. One that failed
/// and took effect: the session finds its commit, and completes it.
pub fn faulted_put()
    ensures unchanged { history_after default_numbers worked.unplaced_moves ≡ worked.unplaced_items }
    ensures applied { history_after default_numbers worked.unheard_moves ≡ worked.unheard_items }
{}

/// A bucket that keeps two keys forgets the first of three. A commit of an older start is refused by the water on the key that
/// was forgotten and on one that was never written, and as a conflict on one that is kept.
pub fn hidden()
    ensures forgotten { history_after alone.small_buckets (alone.hidden_moves 0) ≡ alone.hidden_items 0 alone.forgotten }
    ensures unwritten { history_after alone.small_buckets (alone.hidden_moves 12) ≡ alone.hidden_items 12 alone.unwritten }
    ensures kept { history_after alone.small_buckets (alone.hidden_moves 4) ≡ alone.hidden_items 4 alone.kept }
{}

/// Two transactions each read the key that the other one writes, and both get a commit; with strict reads the second to be
/// decided is refused.
pub fn write_skew()
    ensures strict { history_after reads.strict_reads reads.skew_moves ≡ reads.skew_items reads.read_conflict }
    ensures plain { history_after default_numbers reads.skew_moves ≡ reads.skew_items reads.both_drawn }
{}

/// A session has vanished with its commit accepted: what it has read counts all the same.
pub fn reads_of_the_vanished()
    ensures { history_after reads.strict_reads reads.left_moves ≡ reads.left_items }
{}

/// A transaction that has read 64 keys reads no other but what it wrote, and each of these again.
pub fn too_many_keys_read()
    ensures { history_after reads.strict_reads reads.full_moves ≡ reads.full_items }
{}

/// A session that remembers asks the commit table once, for two keys of one transaction; one that does not asks it twice.
pub fn recalled_commit()
    ensures recalled { history_after recalls.two_decisions (recalls.two_reads []) ≡ recalls.two_items [] }
    ensures forgotten { history_after default_numbers (recalls.two_reads (event.Step 1 ∷ [])) ≡ recalls.two_items (recalls.asks_table ∷ []) }
{}

/// A session that marked a transaction passes over its cells without another ask.
pub fn recalled_mark()
    ensures { history_after recalls.two_decisions recalls.marked_moves ≡ recalls.marked_items }
{}
