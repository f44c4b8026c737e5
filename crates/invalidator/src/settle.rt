ghost use Rattle.std.specs.Prelude.{◌≡◌, true, false};
ghost use Rattle.system_parts.specs.Asks.{Fits};
ghost use Rattle.system_parts.specs.Resolve.{Decides, settle_open, settle_ask, settle_turn, settle_by, outcome_of};
ghost use Rattle.system_parts.specs.Cache.{learnt_of};
ghost use Rattle.system_parts.specs.Sweep.{IsKeys};

use stamp_base::{KeyNo, Stamp, TxnId};
use std::marker::Model;
use system_parts::{Ask, Known, Outcome, SettlePoint, Told};

/// The resolve of one cell: did its writer commit, and when?
#[derive(Clone, Copy, Debug, PartialEq, Eq)]
pub struct Settle {
    key: KeyNo,
    txn: TxnId,
    may_mark: bool,
    point: SettlePoint,
}

impl Model for Settle {
    ghost use Rattle.system_parts.specs.Resolve.{Settling};

    ghost Value = { Settling };

    ghost view = { λ s. record { key = s.key; txn = s.txn; may_mark = s.may_mark; point = s.point } };

    ghost inverse = { λ s. record { key = s.key; txn = s.txn; may_mark = s.may_mark; point = s.point } };
}

impl Settle {
    /// The resolve of the transaction's cell at the key. It asks the commit table first, or the cell's shadow where
    /// `look_first`. A mark is asked only where `may_mark`.
    pub fn open(key: KeyNo, txn: TxnId, may_mark: bool, look_first: bool) -> Settle
        ensures { result ≡ settle_open key txn may_mark look_first }
    {
        let point = if look_first {
            SettlePoint::FirstLook
        } else {
            SettlePoint::Table
        };
        Settle {
            key,
            txn,
            may_mark,
            point,
        }
    }

    /// The next step. It never lists keys.
    pub fn next(&self) -> Ask
        ensures next { result ≡ settle_ask self.now }
        ensures no_listing { IsKeys result → ⊥ }
    {
        match self.point {
            SettlePoint::FirstLook | SettlePoint::LastLook { .. } => Ask::Look(self.key, self.txn),
            SettlePoint::Table => Ask::Get(self.txn),
            SettlePoint::Marking => Ask::Mark(self.txn),
        }
    }

    /// Takes the answer to the next step. Some where it decides; the resolve then stays where it is.
    pub fn told(&mut self, answer: Told) -> Option<Outcome>
        requires { Fits (settle_ask self.old) answer }
        ensures state { self.new ≡ settle_by self.old (settle_turn self.old answer) }
        ensures outcome { result ≡ outcome_of (settle_turn self.old answer) }
    {
        match self.point {
            SettlePoint::FirstLook => match answer {
                Told::Shadowed(commit) => by_shadow(commit),
                _ => self.go_to(SettlePoint::Table),
            },
            SettlePoint::Table => match answer {
                Told::Committed(commit) => by_table(commit),
                Told::Absent if self.may_mark => self.go_to(SettlePoint::Marking),
                Told::Absent => self.go_to(SettlePoint::LastLook { met: false }),
                _ => self.go_to(SettlePoint::LastLook { met: true }),
            },
            // A mark alone does not decide: the shadow may have been set before it was placed.
            SettlePoint::Marking => match answer {
                Told::Committed(commit) => by_table(commit),
                _ => self.go_to(SettlePoint::LastLook { met: true }),
            },
            SettlePoint::LastLook { .. } => match answer {
                Told::Shadowed(commit) => by_shadow(commit),
                _ => Some(Outcome::Dead),
            },
        }
    }

    /// What a decision at this point tells for good: a commit, and that the transaction is dead where its mark was placed or
    /// found. Without a mark it may still commit.
    pub fn learns(&self, outcome: &Outcome) -> Option<(TxnId, Known)>
        ensures { result ≡ learnt_of self.now.txn self.now.point (Decides outcome.now) }
    {
        match outcome {
            Outcome::Committed { commit, .. } => Some((self.txn, Known::Committed(*commit))),
            Outcome::Dead => match self.point {
                SettlePoint::LastLook { met: true } => Some((self.txn, Known::Dead)),
                _ => None,
            },
        }
    }

    fn go_to(&mut self, point: SettlePoint) -> Option<Outcome>
        ensures state { self.new ≡ record self.old { point = point } }
        ensures outcome { result ≡ None }
    {
        self.point = point;
        None
    }
}

fn by_table(commit: Stamp) -> Option<Outcome>
    ensures { result ≡ Some (Outcome.Committed commit true) }
{
    Some(Outcome::Committed {
        commit,
        by_table: true,
    })
}

fn by_shadow(commit: Stamp) -> Option<Outcome>
    ensures { result ≡ Some (Outcome.Committed commit false) }
{
    Some(Outcome::Committed {
        commit,
        by_table: false,
    })
}
