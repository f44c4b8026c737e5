// What follows for batches that go through both queues of a node, and of the places at which actors wait.
ghost use Rattle.std.specs.Prelude.{◌≡◌, ◌≤◌, ℕ};
ghost use Rattle.queue_passes.specs.Holds.{whole};
ghost use Rattle.batch_rule.specs.declared.account.BatchAccount.{BatchAccount};
ghost use Rattle.batch_rule.specs.Accounts.{joined as joined_batches};
ghost use Rattle.batch_rule.specs.Rule.{Tells};
ghost use Rattle.settled_rule.specs.declared.account.SettledAccount.{SettledAccount};
ghost use Rattle.settled_rule.specs.Accounts.{joined as joined_settled};
ghost use Rattle.settled_rule.specs.Rule.{IsFair};
ghost use Rattle.history_book.specs.declared.item.Actor.{Actor};
ghost use Rattle.stage_queues.specs.Laws.{PutsWhatItTook, times_settled};
ghost use Rattle.stage_queues.specs.Places.{place_of, NodeIsThere};

/// Where each worker sends on only what it took, each batch at most as often, so do all together; and then no number is taken
/// twice from the settled queue.
pub fn settled_once()
    ensures together { (b c : BatchAccount) (s t : SettledAccount) → PutsWhatItTook b s → PutsWhatItTook c t → PutsWhatItTook (joined_batches b c) (joined_settled s t) }
    ensures once { (b : BatchAccount) (s : SettledAccount) → Tells b → IsFair s → s.parts ≡ whole → PutsWhatItTook b s → (number : ℕ) → times_settled number s ≤ 1 }
{}

/// No two actors wait at one place.
pub fn actors_wait_apart()
    ensures { (a b : Actor) → NodeIsThere a → NodeIsThere b → place_of a ≡ place_of b → a ≡ b }
{}
