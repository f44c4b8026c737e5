// Small histories beside the definitions of isolation and of serial order: what each allows, and what it refuses.
ghost use Rattle.std.specs.Prelude.{None, Some};
ghost use Rattle.history_book.specs.Members.{AtEach};
ghost use Rattle.history_book.specs.Isolation.{RightRead, Apart, Stamped, Fresh, Isolated};
ghost use Rattle.history_book.specs.Serial.{Serial};
ghost use Rattle.isolation_rules.specs.WorkedHistories.{both_committed, read_of, from_first, unlisted_read, listed_read, own_write, stale_begin, asked_before, one_commit_of_two, one_start_of_two, start_as_commit, commit_of_three, both_of_skew, one_of_skew, write_then_read, read_then_write};

/// Where both of two transactions that wrote one key are committed, neither below the other's start, they are not apart.
pub fn two_writers_are_not_apart()
    ensures { Apart both_committed → ⊥ }
{}

/// A read answers with a commit below its start, though it is placed after the read.
pub fn reads_count_late_commits()
    ensures late { AtEach (RightRead (read_of (Some from_first))) (read_of (Some from_first)) }
    ensures missed { AtEach (RightRead (read_of None)) (read_of None) → ⊥ }
{}

/// A read answers with its transaction's own write before any other. Where a sweep listed the transaction's keys, what
/// is visible is right too.
pub fn own_writes_are_read_first()
    ensures own { AtEach (RightRead (unlisted_read own_write)) (unlisted_read own_write) }
    ensures missed { AtEach (RightRead (unlisted_read from_first)) (unlisted_read from_first) → ⊥ }
    ensures listed { AtEach (RightRead (listed_read own_write)) (listed_read own_write) }
    ensures swept { AtEach (RightRead (listed_read from_first)) (listed_read from_first) }
{}

/// A begin is above the commits that were placed before its ask, and of no others; no stamp stands twice; and a commit is
/// above its start.
pub fn stamps_tell_times_apart()
    ensures stale { Fresh stale_begin → ⊥ }
    ensures asked_before { Fresh asked_before }
    ensures commits { Stamped one_commit_of_two → ⊥ }
    ensures starts { Stamped one_start_of_two → ⊥ }
    ensures start_and_commit { Stamped start_as_commit → ⊥ }
    ensures above { Stamped (commit_of_three 4) }
    ensures at { Isolated (commit_of_three 3) → ⊥ }
    ensures below { Isolated (commit_of_three 2) → ⊥ }
{}

/// Where each of two transactions reads what the other writes and both commit, the history is isolated and not serial.
/// Where one of them does not commit it is serial.
pub fn write_skew_is_not_serial()
    ensures isolated { Isolated both_of_skew }
    ensures both { Serial both_of_skew → ⊥ }
    ensures one { Serial one_of_skew }
{}

/// A read of a key that its transaction wrote before is of that write, whatever another commits. One before that write
/// counts.
pub fn reads_after_own_writes_stand()
    ensures after { Serial write_then_read }
    ensures before { Serial read_then_write → ⊥ }
{}
