ghost use Rattle.std.specs.Prelude.{None, Some, []};
ghost use Rattle.master_beacon.specs.Seen.{Seen};
ghost use Rattle.master_beacon.specs.WorkedLooks.{by_a, by_a_and_b};

/// A look goes on from what was seen before, and answers the last pair of it; never does it go back, or answer an older pair.
pub fn looks_go_on()
    ensures empty { Seen [] [] None }
    ensures later { Seen by_a by_a_and_b (Some (2, 1)) }
    ensures back { Seen by_a_and_b by_a (Some (1, 0)) → ⊥ }
    ensures older { Seen by_a by_a_and_b (Some (1, 0)) → ⊥ }
{}
