// Short histories for and against what is told of a term: its epoch, its lease, its range, and the term after it.
ghost use Rattle.std.specs.Prelude.{◌+◌};
ghost use Rattle.stamp_base.specs.SetupNumbers.{default_numbers};
ghost use Rattle.cause_rules.specs.Explained.{Explained};
ghost use Rattle.cause_rules.specs.WorkedTerms.{old_told, expired_told, replaced_told, replaced_told_unasked, overtaken_told, drawn_out, no_stamp_told, no_stamp_told_unasked, last_room, spent_told, spent_told_after_extension, spent_told_unasked};

/// A start is old by the epoch of the last take of its node, which it does not pass.
pub fn epochs_are_those_of_the_last_take()
    ensures below { Explained default_numbers (old_told 1 1 100) }
    ensures at { Explained default_numbers (old_told 100 100 100) }
    ensures above { Explained default_numbers (old_told 101 101 100) → ⊥ }
    ensures of_an_earlier_take { Explained default_numbers (old_told 1 1 50) → ⊥ }
    ensures of_another_node { Explained default_numbers (old_told 1 1 200) → ⊥ }
    ensures of_another_start { Explained default_numbers (old_told 1 2 100) → ⊥ }
{}

/// A lease is over from its end on, and its end is that of the last take of the node, or of a renewal by the node after it.
pub fn ends_of_leases_are_the_nodes_own()
    ensures by_the_take { Explained default_numbers (expired_told 30 30) }
    ensures by_the_renewal { Explained default_numbers (expired_told 35 35) }
    ensures before_the_end { Explained default_numbers (expired_told 34 35) → ⊥ }
    ensures take_of_another { Explained default_numbers (expired_told 60 50) → ⊥ }
    ensures renewal_of_another { Explained default_numbers (expired_told 60 55) → ⊥ }
    ensures earlier_take { Explained default_numbers (expired_told 60 10) → ⊥ }
    ensures renewal_before_the_take { Explained default_numbers (expired_told 60 15) → ⊥ }
{}

/// A term is replaced where a later one was taken: later than the request's, or than that of the node's last take.
pub fn replaced_terms_have_a_later_one()
    ensures later { Explained default_numbers (replaced_told 1 2) }
    ensures its_own { Explained default_numbers (replaced_told 1 1) → ⊥ }
    ensures never_taken { Explained default_numbers (replaced_told 1 3) → ⊥ }
    ensures accepted_in_the_last { Explained default_numbers (replaced_told 2 2) → ⊥ }
    ensures not_asked { Explained default_numbers replaced_told_unasked → ⊥ }
    ensures node_overtaken { Explained default_numbers (overtaken_told 0 2) }
    ensures node_of_the_last { Explained default_numbers (overtaken_told 1 2) → ⊥ }
    ensures node_by_its_own { Explained default_numbers (overtaken_told 0 1) → ⊥ }
    ensures node_by_one_never_taken { Explained default_numbers (overtaken_told 0 3) → ⊥ }
{}

/// There is no stamp where a range of the term ends at one that was drawn in the term.
pub fn ranges_are_drawn_to_their_end()
    ensures to_the_end { Explained default_numbers (no_stamp_told drawn_out) }
    ensures ended_by_a_start { Explained default_numbers (no_stamp_told (record drawn_out { ceiling = 1; last = 1 })) }
    ensures stamp_left { Explained default_numbers (no_stamp_told (record drawn_out { ceiling = 3; last = 3 })) → ⊥ }
    ensures below_the_ceiling { Explained default_numbers (no_stamp_told (record drawn_out { ceiling = 3 })) → ⊥ }
    ensures range_of_another_term { Explained default_numbers (no_stamp_told (record drawn_out { taken = 2 })) → ⊥ }
    ensures drawn_in_another_term { Explained default_numbers (no_stamp_told (record drawn_out { drawn_in = 2 })) → ⊥ }
    ensures not_asked { Explained default_numbers no_stamp_told_unasked → ⊥ }
{}

/// The stamps are spent where a ceiling that was given leaves no room for a whole range.
pub fn spent_stamps_leave_no_range()
    ensures no_room { Explained default_numbers (spent_told (last_room + 1) (last_room + 1)) }
    ensures after_an_extension { Explained default_numbers (spent_told_after_extension (last_room + 1)) }
    ensures room_left { Explained default_numbers (spent_told last_room last_room) → ⊥ }
    ensures not_given { Explained default_numbers (spent_told (last_room + 2) (last_room + 1)) → ⊥ }
    ensures not_asked { Explained default_numbers spent_told_unasked → ⊥ }
{}
