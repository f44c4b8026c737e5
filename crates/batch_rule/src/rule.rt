// The rule of a batch ring, and what each step does to an account.
use crate::account::BatchAccount;
use crossbeam_queue::protocol::{Join, Lesson, Outcome, Protocol, Split};
use crossbeam_queue::{Pass, RuledArrayQueue};
use persist_batches::Numbered;

/// A ring of numbered batches under the rule InOrder.
pub type Ruled = RuledArrayQueue<Numbered, BatchAccount, InOrder>;

/// A pass of a ring of batches, with its account.
pub type RuledPass = Pass<Numbered, BatchAccount>;

/// The batches that were taken are the first that were sent.
pub struct InOrder;

impl Protocol<Numbered, BatchAccount> for InOrder {
    ghost use Rattle.batch_rule.specs.Accounts.{first_account};
    ghost use Rattle.batch_rule.specs.Rule.{AreInOrder};

    ghost holds = { AreInOrder };

    ghost first = { first_account };
}

/// A pass is split: the new one gets one part.
pub struct PartOff;

impl Split<BatchAccount> for PartOff {
    ghost use Rattle.batch_rule.specs.Accounts.{parted, worker_account};

    ghost left = { parted };

    ghost right = { λ account. worker_account };
}

/// Two passes become one.
pub struct Together;

impl Join<BatchAccount> for Together {
    ghost use Rattle.batch_rule.specs.Accounts.{joined, spent_account};

    ghost both = { joined };

    ghost spent = { spent_account };
}

/// A batch is put.
pub struct Put;

impl Outcome<Numbered, BatchAccount> for Put {
    ghost use Rattle.std.specs.Prelude.{◌≡◌};
    ghost use Rattle.batch_rule.specs.Accounts.{with_put};

    ghost then = { λ old batch new. new ≡ with_put old batch };
}

impl Lesson<Numbered, BatchAccount> for Put {
    ghost use Rattle.std.specs.Prelude.{length};
    ghost use Rattle.batch_rule.specs.Rule.{HasLeft};

    ghost fact = { λ account items. HasLeft (length items) account };
}

/// A batch is taken.
pub struct Taken;

impl Outcome<Numbered, BatchAccount> for Taken {
    ghost use Rattle.std.specs.Prelude.{◌≡◌};
    ghost use Rattle.batch_rule.specs.Accounts.{with_taken};

    ghost then = { λ old batch new. new ≡ with_taken old batch };
}

impl Lesson<Numbered, BatchAccount> for Taken {
    ghost use Rattle.std.specs.Prelude.{length};
    ghost use Rattle.batch_rule.specs.Rule.{HasLeft};

    ghost fact = { λ account items. HasLeft (length items) account };
}

/// What an account tells of the ring.
pub struct Told;

impl Lesson<Numbered, BatchAccount> for Told {
    ghost use Rattle.batch_rule.specs.Rule.{Tells};

    ghost fact = { λ account items. Tells account };
}
