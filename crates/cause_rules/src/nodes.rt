// Short histories for and against what is told of a node's instance and of a lease, and to whom a cause is told.
ghost use Rattle.std.specs.Prelude.{[]};
ghost use Rattle.stamp_base.specs.SetupNumbers.{default_numbers};
ghost use Rattle.history_book.specs.declared.cause.Cause.TheVariants as cause;
ghost use Rattle.history_book.specs.declared.item.Actor.TheVariants as actor;
ghost use Rattle.cause_rules.specs.Explained.{Explained};
ghost use Rattle.cause_rules.specs.WorkedHistories.{told, crash_of, master_fault};
ghost use Rattle.cause_rules.specs.WorkedCommits.{conflicting, before_conflict};
ghost use Rattle.cause_rules.specs.WorkedTerms.{before_expired};
ghost use Rattle.cause_rules.specs.WorkedRequests.{two_slots, before_full, vanished};
ghost use Rattle.cause_rules.specs.WorkedNodes.{taken_then, taken_again, later_fault, no_oracle_told, holding_told, before_early, early_told};

/// A node has no instance where it has not taken a term since its crash, or where its last take failed at once.
pub fn nodes_without_instance_are_no_oracles()
    ensures never_taken { Explained default_numbers (no_oracle_told []) }
    ensures crashed { Explained default_numbers (no_oracle_told (taken_then (crash_of 0))) }
    ensures take_failed { Explained default_numbers (no_oracle_told (taken_then (master_fault 0))) }
    ensures taken { Explained default_numbers (no_oracle_told (taken_then [])) → ⊥ }
    ensures taken_after_a_crash { Explained default_numbers (no_oracle_told (taken_then taken_again)) → ⊥ }
    ensures call_failed_later { Explained default_numbers (no_oracle_told (taken_then later_fault)) → ⊥ }
    ensures crash_of_another { Explained default_numbers (no_oracle_told (taken_then (crash_of 1))) → ⊥ }
    ensures fault_of_another { Explained default_numbers (no_oracle_told (taken_then (master_fault 1))) → ⊥ }
{}

/// A node holds the term of its last take, until it crashes.
pub fn holders_have_an_instance()
    ensures holds { Explained default_numbers (holding_told [] 0 1) }
    ensures crash_of_another { Explained default_numbers (holding_told (crash_of 1) 0 1) }
    ensures later_term { Explained default_numbers (holding_told taken_again 0 2) }
    ensures crashed { Explained default_numbers (holding_told (crash_of 0) 0 1) → ⊥ }
    ensures earlier_term { Explained default_numbers (holding_told taken_again 0 1) → ⊥ }
    ensures other_term { Explained default_numbers (holding_told [] 0 2) → ⊥ }
    ensures another_node { Explained default_numbers (holding_told [] 1 1) → ⊥ }
{}

/// A take is early up to the skew behind the end of a lease that a take or a renewal gave.
pub fn early_takes_meet_a_lease()
    ensures before_the_skew { Explained default_numbers (early_told 11 10) }
    ensures renewed_before_the_skew { Explained default_numbers (early_told 16 15) }
    ensures at_the_skew { Explained default_numbers (early_told 12 10) → ⊥ }
    ensures renewed_at_the_skew { Explained default_numbers (early_told 17 15) → ⊥ }
    ensures end_never_given { Explained default_numbers (early_told 11 11) → ⊥ }
{}

/// A cause is told to those alone whom it can meet, and never to the clock, however well the history would show it to another.
pub fn causes_are_told_to_whom_they_meet()
    ensures early_to_a_session { Explained default_numbers (told before_early (actor.Session 1) (cause.Early 11 10)) → ⊥ }
    ensures holding_to_a_session { Explained default_numbers (told (taken_then []) (actor.Session 0) (cause.Holding 1)) → ⊥ }
    ensures conflict_to_a_node { Explained default_numbers (told (before_conflict conflicting) (actor.Node 0) (cause.Conflict 0 3)) → ⊥ }
    ensures conflict_to_the_writer { Explained default_numbers (told (before_conflict conflicting) (actor.Session 0) (cause.Conflict 0 3)) → ⊥ }
    ensures expired_to_a_node { Explained default_numbers (told before_expired (actor.Node 0) (cause.Expired 35 35)) → ⊥ }
    ensures full_to_the_node { Explained two_slots (told (before_full 0 []) (actor.Node 0) (cause.Full 2)) → ⊥ }
    ensures gone_to_the_janitor { Explained default_numbers (told (vanished 0) actor.Janitor cause.Gone) → ⊥ }
    ensures no_oracle_to_a_node { Explained default_numbers (told [] (actor.Node 0) (cause.NoOracle 0)) }
    ensures no_oracle_to_another_node { Explained default_numbers (told [] (actor.Node 1) (cause.NoOracle 0)) → ⊥ }
    ensures no_oracle_to_the_janitor { Explained default_numbers (told [] actor.Janitor (cause.NoOracle 0)) }
    ensures no_oracle_to_the_clock { Explained default_numbers (told [] actor.Clock (cause.NoOracle 0)) → ⊥ }
    ensures busy_to_a_session { Explained default_numbers (told [] (actor.Session 0) cause.Busy) }
    ensures busy_to_a_node { Explained default_numbers (told [] (actor.Node 0) cause.Busy) → ⊥ }
    ensures no_request_to_a_session { Explained default_numbers (told [] (actor.Session 0) (cause.NoRequest 0)) → ⊥ }
    ensures undecided_to_a_session { Explained default_numbers (told [] (actor.Session 0) (cause.Undecided 1 0)) → ⊥ }
{}
