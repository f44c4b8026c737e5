// Short histories for and against what a commit is told of its keys, of a mark and of its loss.
ghost use Rattle.std.specs.Prelude.{[]};
ghost use Rattle.stamp_base.specs.SetupNumbers.{default_numbers};
ghost use Rattle.cause_rules.specs.Explained.{Explained};
ghost use Rattle.cause_rules.specs.WorkedHistories.{crash_of, table_fault, master_fault, session_fault};
ghost use Rattle.cause_rules.specs.WorkedCommits.{strictly, directly, conflicting, read_conflicting, conflict_told, conflict_told_first, conflict_told_unasked, buckets_of, hiding, read_hiding, hidden_told, hidden_told_unasked, invalid_told, invalid_told_first, invalid_told_unasked, open_told};

/// A conflict is a commit above the start, drawn in the term of the request, of a transaction that wrote the key that was
/// written here too. With strict reads it may have been fetched instead, since the transaction began.
pub fn conflicts_are_above_the_start()
    ensures above { Explained default_numbers (conflict_told conflicting) }
    ensures at_the_start { Explained default_numbers (conflict_told (record conflicting { start = 3 })) → ⊥ }
    ensures below_the_start { Explained default_numbers (conflict_told (record conflicting { start = 4 })) → ⊥ }
    ensures other_term { Explained default_numbers (conflict_told (record conflicting { drawn_in = 2 })) → ⊥ }
    ensures not_drawn { Explained default_numbers (conflict_told (record conflicting { by = 4 })) → ⊥ }
    ensures drawn_later { Explained default_numbers conflict_told_first → ⊥ }
    ensures not_of_the_writer { Explained default_numbers (conflict_told (record conflicting { written = 5 })) → ⊥ }
    ensures not_its_own { Explained default_numbers (conflict_told (record conflicting { own = 5 })) → ⊥ }
    ensures read { Explained (strictly default_numbers) (conflict_told read_conflicting) }
    ensures read_later { Explained (strictly default_numbers) (conflict_told (record read_conflicting { begun = 4; start = 4 })) → ⊥ }
    ensures read_not_strictly { Explained default_numbers (conflict_told read_conflicting) → ⊥ }
    ensures not_read { Explained (strictly default_numbers) (conflict_told (record read_conflicting { read = 7 })) → ⊥ }
    ensures read_before { Explained (strictly default_numbers) (conflict_told (record read_conflicting { read_before = 0; read = 7 })) → ⊥ }
    ensures read_by_another { Explained (strictly default_numbers) (conflict_told (record read_conflicting { reader = 0 })) → ⊥ }
    ensures read_for_another { Explained (strictly default_numbers) (conflict_told (record read_conflicting { begun = 1 })) → ⊥ }
    ensures not_asked { Explained default_numbers conflict_told_unasked → ⊥ }
{}

/// A key is hidden where its bucket, full of others, keeps it no more, by the latest commit that the bucket forgot: one above
/// the start that was drawn in the term for a key of that bucket. With strict reads it need not have been written here, but then
/// it was fetched since the transaction began.
pub fn forgotten_keys_are_hidden()
    ensures forgotten { Explained (buckets_of 1) (hidden_told hiding) }
    ensures kept_by_width { Explained (buckets_of 2) (hidden_told hiding) → ⊥ }
    ensures kept { Explained (buckets_of 1) (hidden_told (record hiding { own = 4; key = 4 })) → ⊥ }
    ensures at_the_start { Explained (buckets_of 1) (hidden_told (record hiding { start = 4 })) → ⊥ }
    ensures below_the_start { Explained (buckets_of 1) (hidden_told (record hiding { start = 6 })) → ⊥ }
    ensures other_term { Explained (buckets_of 1) (hidden_told (record hiding { drawn_in = 2 })) → ⊥ }
    ensures other_bucket { Explained (buckets_of 1) (hidden_told (record hiding { written = 1 })) → ⊥ }
    ensures not_drawn { Explained (buckets_of 1) (hidden_told (record hiding { water = 7 })) → ⊥ }
    ensures not_forgotten { Explained (buckets_of 1) (hidden_told (record hiding { water = 5 })) → ⊥ }
    ensures not_its_own { Explained (buckets_of 1) (hidden_told (record hiding { own = 8 })) → ⊥ }
    ensures read { Explained (strictly (buckets_of 1)) (hidden_told read_hiding) }
    ensures read_kept { Explained (strictly (buckets_of 2)) (hidden_told read_hiding) → ⊥ }
    ensures read_not_strictly { Explained (buckets_of 1) (hidden_told read_hiding) → ⊥ }
    ensures not_read { Explained (strictly (buckets_of 1)) (hidden_told (record read_hiding { read = 7 })) → ⊥ }
    ensures read_before { Explained (strictly (buckets_of 1)) (hidden_told (record read_hiding { read_before = 0; read = 7 })) → ⊥ }
    ensures not_asked { Explained (buckets_of 1) hidden_told_unasked → ⊥ }
{}

/// A commit is invalid where its own transaction was marked.
pub fn marked_commits_are_invalid()
    ensures marked { Explained default_numbers (invalid_told 1 1 1) }
    ensures other_marked { Explained default_numbers (invalid_told 1 2 1) → ⊥ }
    ensures other_told { Explained default_numbers (invalid_told 1 2 2) → ⊥ }
    ensures marked_later { Explained default_numbers invalid_told_first → ⊥ }
    ensures not_asked { Explained default_numbers invalid_told_unasked → ⊥ }
{}

/// An outcome is open where a call of the node on the table failed after the draw, or the node crashed after the ask.
pub fn lost_commits_are_open()
    ensures faulted { Explained default_numbers (open_told [] [] (table_fault 0) 1) }
    ensures crashed_after_the_draw { Explained default_numbers (open_told [] [] (crash_of 0) 1) }
    ensures crashed_before_the_draw { Explained default_numbers (open_told [] (crash_of 0) [] 1) }
    ensures neither { Explained default_numbers (open_told [] [] [] 1) → ⊥ }
    ensures faulted_before_the_draw { Explained default_numbers (open_told [] (table_fault 0) [] 1) → ⊥ }
    ensures fault_of_another { Explained default_numbers (open_told [] [] (table_fault 1) 1) → ⊥ }
    ensures fault_of_the_record { Explained default_numbers (open_told [] [] (master_fault 0) 1) → ⊥ }
    ensures crashed_before_the_ask { Explained default_numbers (open_told (crash_of 0) [] [] 1) → ⊥ }
    ensures crash_of_another { Explained default_numbers (open_told [] [] (crash_of 1) 1) → ⊥ }
    ensures fault_of_the_session { Explained default_numbers (open_told [] [] (session_fault 0) 1) → ⊥ }
    ensures other_told { Explained default_numbers (open_told [] [] (table_fault 0) 2) → ⊥ }
{}

/// Where commits are direct, the call that failed is one of the session, which places its own record.
pub fn lost_placings_are_open()
    ensures faulted { Explained (directly default_numbers) (open_told [] [] (session_fault 0) 1) }
    ensures crashed_before_the_draw { Explained (directly default_numbers) (open_told [] (crash_of 0) [] 1) }
    ensures fault_of_the_node { Explained (directly default_numbers) (open_told [] [] (table_fault 0) 1) → ⊥ }
    ensures fault_of_another { Explained (directly default_numbers) (open_told [] [] (session_fault 1) 1) → ⊥ }
    ensures faulted_before_the_draw { Explained (directly default_numbers) (open_told [] (session_fault 0) [] 1) → ⊥ }
{}
