// Small histories beside the definition: what it allows, and what it refuses.
ghost use Rattle.stamp_base.specs.declared.stores.Store.TheVariants.{Cells, Table};
ghost use Rattle.std.specs.Prelude.{None};
ghost use Rattle.service_rules.specs.OwnWrites.{OwnWritesStand};
ghost use Rattle.service_rules.specs.WorkedOwn.{p, q, written_twice, found_of_own, missed_behind, erases, lists, sweep_fails, session_fails, written_elsewhere, written_anew};

/// Of two own writes the last is read, neither the first nor nothing.
pub fn last_writes_are_read()
    ensures last { OwnWritesStand (written_twice (found_of_own q)) }
    ensures first { OwnWritesStand (written_twice (found_of_own p)) → ⊥ }
    ensures nothing { OwnWritesStand (written_twice None) → ⊥ }
{}

/// A write is missed where a sweep has erased its cell, or failed at it.
pub fn erased_writes_may_be_missed()
    ensures erased { OwnWritesStand (missed_behind (erases 0)) }
    ensures failed { OwnWritesStand (missed_behind (sweep_fails Cells)) }
    ensures elsewhere { OwnWritesStand written_elsewhere }
{}

/// No other cell's erase, listing of keys or fault hides it, nor an erase before it.
pub fn nothing_else_hides_a_write()
    ensures other_key { OwnWritesStand (missed_behind (erases 1)) → ⊥ }
    ensures listed { OwnWritesStand (missed_behind lists) → ⊥ }
    ensures table { OwnWritesStand (missed_behind (sweep_fails Table)) → ⊥ }
    ensures session { OwnWritesStand (missed_behind (session_fails Cells)) → ⊥ }
    ensures anew { OwnWritesStand written_anew → ⊥ }
{}
