// The rule of a settled ring, and what each step does to an account.
use crate::account::SettledAccount;
use crossbeam_queue::protocol::{Join, Lesson, Outcome, Protocol, Split};
use crossbeam_queue::{Pass, RuledArrayQueue};
use persist_batches::Numbered;

/// A ring of settled batches under the rule Balanced.
pub type Ruled = RuledArrayQueue<Numbered, SettledAccount, Balanced>;

/// A pass of a ring of settled batches, with its account.
pub type RuledPass = Pass<Numbered, SettledAccount>;

/// What was put is what was taken and what the ring holds.
pub struct Balanced;

impl Protocol<Numbered, SettledAccount> for Balanced {
    ghost use Rattle.settled_rule.specs.Accounts.{first_account};
    ghost use Rattle.settled_rule.specs.Rule.{IsBalanced};

    ghost holds = { IsBalanced };

    ghost first = { first_account };
}

/// A pass is split: the new one gets one part.
pub struct PartOff;

impl Split<SettledAccount> for PartOff {
    ghost use Rattle.settled_rule.specs.Accounts.{parted, new_account};

    ghost left = { parted };

    ghost right = { λ account. new_account };
}

/// Two passes become one.
pub struct Together;

impl Join<SettledAccount> for Together {
    ghost use Rattle.settled_rule.specs.Accounts.{joined, spent_account};

    ghost both = { joined };

    ghost spent = { spent_account };
}

/// A batch is put.
pub struct Put;

impl Outcome<Numbered, SettledAccount> for Put {
    ghost use Rattle.std.specs.Prelude.{◌≡◌};
    ghost use Rattle.settled_rule.specs.Accounts.{with_put};

    ghost then = { λ old batch new. new ≡ with_put old batch };
}

impl Lesson<Numbered, SettledAccount> for Put {
    ghost use Rattle.std.specs.Prelude.{length};
    ghost use Rattle.settled_rule.specs.Rule.{HasLeft};

    ghost fact = { λ account items. HasLeft (length items) account };
}

/// A batch is taken.
pub struct Taken;

impl Outcome<Numbered, SettledAccount> for Taken {
    ghost use Rattle.std.specs.Prelude.{◌≡◌};
    ghost use Rattle.settled_rule.specs.Accounts.{with_taken};

    ghost then = { λ old batch new. new ≡ with_taken old batch };
}

impl Lesson<Numbered, SettledAccount> for Taken {
    ghost use Rattle.std.specs.Prelude.{length};
    ghost use Rattle.settled_rule.specs.Rule.{HasLeft};

    ghost fact = { λ account items. HasLeft (length items) account };
}

/// What an account tells of the ring.
pub struct Told;

impl Lesson<Numbered, SettledAccount> for Told {
    ghost use Rattle.settled_rule.specs.Rule.{IsFair};

    ghost fact = { λ account items. IsFair account };
}
