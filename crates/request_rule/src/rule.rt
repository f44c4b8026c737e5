// The rule of a request ring, and what each step does to an account.
use crate::account::{RequestAccount, Ticket};
use crossbeam_queue::protocol::{Join, Lesson, Outcome, Protocol, Split};
use crossbeam_queue::{Pass, RuledArrayQueue};

/// A ring of tickets under the rule InTurn.
pub type Ruled = RuledArrayQueue<Ticket, RequestAccount, InTurn>;

/// A pass of a ring of tickets, with its account.
pub type RuledPass = Pass<Ticket, RequestAccount>;

/// What was taken of each sender is what that sender put first.
pub struct InTurn;

impl Protocol<Ticket, RequestAccount> for InTurn {
    ghost use Rattle.request_rule.specs.Accounts.{first_account};
    ghost use Rattle.request_rule.specs.Rule.{AreInTurn};

    ghost holds = { AreInTurn };

    ghost first = { first_account };
}

/// The receiver's pass makes a sender's.
pub struct Sender;

impl Split<RequestAccount> for Sender {
    ghost use Rattle.request_rule.specs.Accounts.{with_sender, sender_account};

    ghost left = { with_sender };

    ghost right = { λ account. sender_account account.senders };
}

/// Two passes become one.
pub struct Together;

impl Join<RequestAccount> for Together {
    ghost use Rattle.request_rule.specs.Accounts.{joined, spent_account};

    ghost both = { joined };

    ghost spent = { spent_account };
}

/// A ticket is put.
pub struct Put;

impl Outcome<Ticket, RequestAccount> for Put {
    ghost use Rattle.std.specs.Prelude.{◌≡◌};
    ghost use Rattle.request_rule.specs.Accounts.{with_put};

    ghost then = { λ old ticket new. new ≡ with_put old ticket };
}

impl Lesson<Ticket, RequestAccount> for Put {
    ghost use Rattle.std.specs.Prelude.{length};
    ghost use Rattle.request_rule.specs.Rule.{HasLeft};

    ghost fact = { λ account items. HasLeft (length items) account };
}

/// A ticket is taken.
pub struct Taken;

impl Outcome<Ticket, RequestAccount> for Taken {
    ghost use Rattle.request_rule.specs.Accounts.{TakesOne};

    ghost then = { TakesOne };
}

impl Lesson<Ticket, RequestAccount> for Taken {
    ghost use Rattle.std.specs.Prelude.{◌≡◌, length};
    ghost use Rattle.request_rule.specs.Rule.{TookAll};

    ghost fact = { λ account items. length items ≡ 0 → TookAll account };
}

/// What an account tells of the ring.
pub struct Told;

impl Lesson<Ticket, RequestAccount> for Told {
    ghost use Rattle.request_rule.specs.Rule.{Tells};

    ghost fact = { λ account items. Tells account };
}
