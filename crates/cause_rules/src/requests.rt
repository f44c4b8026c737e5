// Short histories for and against what a session is told of its request: lost, waiting, or not taken on.
ghost use Rattle.std.specs.Prelude.{[], ◌++◌};
ghost use Rattle.stamp_base.specs.SetupNumbers.{default_numbers};
ghost use Rattle.cause_rules.specs.Explained.{Explained};
ghost use Rattle.cause_rules.specs.WorkedHistories.{crash_of};
ghost use Rattle.cause_rules.specs.WorkedCommits.{directly};
ghost use Rattle.cause_rules.specs.WorkedRequests.{crashed_told, waiting, not_yet_told, not_yet_told_unasked, two_slots, full_told, begun, begin_refused, committed, handed, asked, gone_told, vanishes_later};

/// A begin is lost where the node that it was asked of crashed after the ask, in the term that is told.
pub fn lost_begins_crashed()
    ensures crashed { Explained default_numbers (crashed_told [] (crash_of 0) 0 1) }
    ensures not_crashed { Explained default_numbers (crashed_told [] [] 0 1) → ⊥ }
    ensures before_the_ask { Explained default_numbers (crashed_told (crash_of 0) [] 0 1) → ⊥ }
    ensures crash_of_another { Explained default_numbers (crashed_told [] (crash_of 1) 0 1) → ⊥ }
    ensures another_told { Explained default_numbers (crashed_told [] (crash_of 1) 1 1) → ⊥ }
    ensures other_term { Explained default_numbers (crashed_told [] (crash_of 0) 0 2) → ⊥ }
{}

/// A begin waits for a commit below its start that was drawn in its term and is not placed; where sessions place their own
/// commits, it waits for none.
pub fn begins_wait_for_commits_below()
    ensures unplaced { Explained default_numbers (not_yet_told waiting) }
    ensures placed { Explained default_numbers (not_yet_told (record waiting { placed = 2 })) → ⊥ }
    ensures above_the_start { Explained default_numbers (not_yet_told (record waiting { start = 1 })) → ⊥ }
    ensures at_the_start { Explained default_numbers (not_yet_told (record waiting { start = 2 })) → ⊥ }
    ensures other_term { Explained default_numbers (not_yet_told (record waiting { drawn_in = 2 })) → ⊥ }
    ensures not_drawn { Explained default_numbers (not_yet_told (record waiting { commit = 3 })) → ⊥ }
    ensures not_asked { Explained default_numbers not_yet_told_unasked → ⊥ }
    ensures placed_by_sessions { Explained (directly default_numbers) (not_yet_told waiting) → ⊥ }
{}

/// A node is full where as many asks are open at one node as it has slots: no ask counts that was answered, handed over,
/// refused for good, or lost by a crash.
pub fn full_nodes_have_open_asks()
    ensures all_taken { Explained two_slots (full_told 0 [] 2) }
    ensures taken_again { Explained two_slots (full_told 0 (begun ++ asked) 2) }
    ensures another_crashed { Explained two_slots (full_told 0 (crash_of 1) 2) }
    ensures begin_answered { Explained two_slots (full_told 0 begun 2) → ⊥ }
    ensures begin_refused { Explained two_slots (full_told 0 begin_refused 2) → ⊥ }
    ensures commit_answered { Explained two_slots (full_told 0 committed 2) → ⊥ }
    ensures commit_handed { Explained two_slots (full_told 0 handed 2) → ⊥ }
    ensures crashed { Explained two_slots (full_told 0 (crash_of 0) 2) → ⊥ }
    ensures at_two_nodes { Explained two_slots (full_told 1 [] 2) → ⊥ }
    ensures fewer_than_slots { Explained two_slots (full_told 0 begun 1) → ⊥ }
    ensures more_slots { Explained default_numbers (full_told 0 [] 2) → ⊥ }
{}

/// A session is gone once it has vanished.
pub fn gone_sessions_vanished()
    ensures vanished { Explained default_numbers (gone_told 0) }
    ensures another_vanished { Explained default_numbers (gone_told 1) → ⊥ }
    ensures vanished_later { Explained default_numbers vanishes_later → ⊥ }
{}
