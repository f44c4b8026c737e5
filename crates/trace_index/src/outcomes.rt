// Why a trace counts just the open outcomes as committed that it has to.
ghost use Rattle.std.specs.Prelude.{◌≡◌, ℕ, Bool, List, true};
ghost use Rattle.trace_rules.specs.declared.trace.Operation.{Operation};
ghost use Rattle.trace_index.specs.declared.attempts.Attempt.{Attempt};
ghost use Rattle.trace_index.specs.Open.{counts_at, flags_of};
ghost use Rattle.trace_index.specs.Choices.{IsChoice};

/// The transactions that count as committed are a choice that is closed: with a transaction an open one counts that it read from.
/// And they are the least such choice: each of them counts in any other.
pub fn open_outcomes_are_the_least()
    ensures closed { (attempts : List Attempt) (operations : List Operation) → IsChoice attempts operations (counts_at (flags_of attempts operations)) }
    ensures least { (attempts : List Attempt) (operations : List Operation) (chosen : ℕ → Bool) (t : ℕ) → IsChoice attempts operations chosen → counts_at (flags_of attempts operations) t ≡ true → chosen t ≡ true }
{}
