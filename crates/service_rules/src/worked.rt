// Small histories beside the definitions: what each allows, and what it refuses.
ghost use Rattle.history_book.specs.declared.cause.Cause.TheVariants as cause;
ghost use Rattle.service_rules.specs.Told.{ToldIsTrue};
ghost use Rattle.service_rules.specs.OneCopy.{OneCopy};
ghost use Rattle.service_rules.specs.Stamps.{FreshStamps};
ghost use Rattle.service_rules.specs.Worked.{placed_then_told, told_then_placed, refused_then_placed, placed_then_refused, refused_begin, ended_then_placed, told_then_drawn, asked_then_told, told_then_begun, commit_behind_start, reader_commits, reader_ends};

/// A commit is told once it is placed, and not before.
pub fn commits_are_placed_before_they_are_told()
    ensures told { ToldIsTrue placed_then_told }
    ensures early { ToldIsTrue told_then_placed → ⊥ }
{}

/// A commit that was refused for good is not placed, before or behind. One whose outcome is open may be, and the refusal of a
/// begin says nothing of an earlier transaction.
pub fn refused_commits_stay_out()
    ensures behind { ToldIsTrue (refused_then_placed (cause.Expired 5 5)) → ⊥ }
    ensures before { ToldIsTrue (placed_then_refused (cause.Expired 5 5)) → ⊥ }
    ensures invalid { ToldIsTrue (refused_then_placed (cause.Invalid 1)) → ⊥ }
    ensures left_open { ToldIsTrue (refused_then_placed (cause.Open 1)) }
    ensures begin { ToldIsTrue refused_begin }
{}

/// What ended without a commit is not placed.
pub fn ended_transactions_stay_out()
    ensures { ToldIsTrue ended_then_placed → ⊥ }
{}

/// A stamp is above those that were told before it was asked for, and need not be above others.
pub fn stamps_are_above_what_was_told()
    ensures above { FreshStamps (told_then_drawn 4) }
    ensures below { FreshStamps (told_then_drawn 2) → ⊥ }
    ensures asked_before { FreshStamps (asked_then_told 2) }
    ensures begun { FreshStamps (told_then_begun 2) → ⊥ }
    ensures commit { FreshStamps (commit_behind_start 2) → ⊥ }
{}

/// What a transaction read stands at its place: at its commit, where it has one, and otherwise at its start.
pub fn reads_are_of_one_copy()
    ensures commits { OneCopy reader_commits → ⊥ }
    ensures ends { OneCopy reader_ends }
{}
