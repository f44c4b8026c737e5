// Small stores beside the definitions: what they allow, and what they refuse.
ghost use Rattle.std.specs.Prelude.{◌≡◌, [], ◌∷◌, None, Some};
ghost use Rattle.cell_compaction.specs.Rest.{StandsAtRest, compacted, snapshot};
ghost use Rattle.cell_compaction.specs.Worked.{p, q, row_of, no_pairs, one_commit, record_of_first, four_rows};

/// What is committed has its row, which tells its commit by its shadow, or by the table where it is bare. Nothing tells of a commit
/// that is not there.
pub fn commits_have_their_rows()
    ensures shadowed { StandsAtRest one_commit (row_of 0 1 p (Some 2) ∷ []) no_pairs }
    ensures recorded { StandsAtRest one_commit (row_of 0 1 p None ∷ []) record_of_first }
    ensures untold { StandsAtRest one_commit (row_of 0 1 p None ∷ []) no_pairs → ⊥ }
    ensures gone { StandsAtRest one_commit [] no_pairs → ⊥ }
    ensures other_value { StandsAtRest one_commit (row_of 0 1 q (Some 2) ∷ []) no_pairs → ⊥ }
    ensures no_commit { StandsAtRest [] (row_of 0 1 p (Some 2) ∷ []) no_pairs → ⊥ }
{}

/// A reader finds the row of the greatest commit below its start, and no row without a commit.
pub fn readers_find_the_latest_row()
    ensures latest { snapshot four_rows no_pairs 5 0 ≡ Some (record { from = 3; value = q }) }
    ensures at_its_commit { snapshot four_rows no_pairs 4 0 ≡ Some (record { from = 1; value = p }) }
    ensures none { snapshot four_rows no_pairs 2 0 ≡ None }
    ensures uncommitted { snapshot four_rows no_pairs 9 1 ≡ None }
{}

/// Of each key the row that a reader at the water finds stays, and all rows above the water.
pub fn rows_below_the_water_go()
    ensures low { compacted four_rows no_pairs 1 ≡ four_rows }
    ensures between { compacted four_rows no_pairs 5 ≡ row_of 0 3 q (Some 4) ∷ row_of 0 5 p (Some 6) ∷ row_of 1 7 q None ∷ [] }
    ensures high { compacted four_rows no_pairs 8 ≡ row_of 0 5 p (Some 6) ∷ [] }
    ensures recorded { compacted (row_of 0 1 p None ∷ []) record_of_first 3 ≡ row_of 0 1 p (Some 2) ∷ [] }
{}
