// Small traces beside the definitions: what each level allows, and what it refuses.
ghost use Rattle.trace_rules.specs.declared.wanted.Level.TheVariants.{Snapshot, Serializable};
ghost use Rattle.trace_rules.specs.Stamping.{Stampable};
ghost use Rattle.trace_rules.specs.Wants.{no_wants, sessions};
ghost use Rattle.trace_rules.specs.WorkedTraces.{skew};

/// Where each of two reads what the other writes there are stamps of snapshots, and no serial ones. Where both are of one
/// process, in whose order the second would have read what the first wrote, there are none of sessions either.
pub fn write_skew_tells_levels_apart()
    ensures snapshot { Stampable Snapshot no_wants (skew 5 6) }
    ensures serial { Stampable Serializable no_wants (skew 5 6) → ⊥ }
    ensures session { Stampable Snapshot (sessions (skew 5 5)) (skew 5 5) → ⊥ }
{}
