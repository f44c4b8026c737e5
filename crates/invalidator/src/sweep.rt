ghost use Rattle.std.specs.Prelude.{◌≡◌};
ghost use Rattle.std.specs.List.Sorted.{IsStrictlyIncreasing};
ghost use Rattle.system_parts.specs.Sweep.{sweep_open, sweep_ask, sweep_told, sweep_listed, IsListing, is_undecided};
ghost use Rattle.system_parts.specs.Asks.{FitsNext};

use shadow_cells::{finish_ask, undo_ask};
use stamp_base::{KeyNo, Mark, TxnId};
use std::marker::Model;
use system_parts::{Ask, Told};

/// Where a sweep stands.
#[derive(Debug, Drop)]
enum Stage {
    /// The commit table is asked.
    Table,
    /// A mark is to be placed.
    Marking,
    /// The keys are asked, for what the commit table was found to have.
    Listing {
        found: Mark,
    },
    /// The cells of these keys are completed or erased; so many steps were done.
    Listed {
        found: Mark,
        keys: Vec<KeyNo>,
        done: usize,
    },
    /// The sweep has ended, since it may not mark the transaction.
    Undecided,
}

/// The sweep of a transaction whose session has vanished. It completes what has committed. It marks and erases what
/// can never commit, and leaves alone what may belong to a newer epoch.
#[derive(Debug, Drop)]
pub struct Sweep {
    txn: TxnId,
    epoch: u64,
    stage: Stage,
}

impl Model for Sweep {
    ghost use Rattle.system_parts.specs.Sweep.{Sweeping};

    ghost Value = { Sweeping };

    ghost use Rattle.invalidator.specs.Stages.{point_of, IsStage};

    ghost view = { λ s. record { txn = s.txn; epoch = s.epoch; point = point_of s.txn s.stage } };

    ghost invariant = { λ s. IsStage s.stage };
}

impl Sweep {
    /// The sweep of the transaction, by an oracle of this epoch.
    pub fn open(txn: TxnId, epoch: u64) -> Sweep
        ensures { result ≡ sweep_open txn epoch }
    {
        Sweep {
            txn,
            epoch,
            stage: Stage::Table,
        }
    }

    /// The transaction that is swept.
    pub fn txn(&self) -> TxnId
        ensures { result ≡ self.now.txn }
    {
        self.txn
    }

    /// The epoch of the oracle that sweeps: a transaction above it is not marked.
    pub fn epoch(&self) -> u64
        ensures { result ≡ self.now.epoch }
    {
        self.epoch
    }

    /// The next step; None exactly where the sweep has ended.
    pub fn next(&self) -> Option<Ask>
        ensures { result ≡ sweep_ask self.now }
    {
        match &self.stage {
            Stage::Table => Some(Ask::Get(self.txn)),
            Stage::Marking => Some(Ask::Mark(self.txn)),
            Stage::Listing { .. } => Some(Ask::Keys(self.txn)),
            Stage::Listed { found, keys, done } => ask_at(self.txn, *found, keys.as_slice(), *done),
            Stage::Undecided => None,
        }
    }

    /// Takes the answer to the next step, which is not the list of keys.
    pub fn told(&mut self, answer: Told)
        requires { FitsNext (sweep_ask self.old) answer }
        ensures { self.new ≡ sweep_told self.old answer }
    {
        match &mut self.stage {
            Stage::Table => self.stage = after_table(self.txn, self.epoch, answer),
            Stage::Marking => self.stage = after_marking(answer),
            Stage::Listed { done, .. } => *done += 1,
            Stage::Listing { .. } | Stage::Undecided => {}
        }
    }

    /// Takes the keys that the transaction has cells of.
    pub fn listed(&mut self, keys: Vec<KeyNo>)
        requires listing { IsListing self.old }
        requires ascending { IsStrictlyIncreasing keys.items }
        ensures { self.new ≡ sweep_listed self.old keys.items }
    {
        if let Stage::Listing { found } = self.stage {
            self.stage = Stage::Listed {
                found,
                keys,
                done: 0,
            };
        }
    }

    /// Whether the sweep ended since it may not mark the transaction.
    pub fn undecided(&self) -> bool
        ensures { result ≡ is_undecided self.now }
    {
        matches!(self.stage, Stage::Undecided)
    }
}

ghost use Rattle.std.specs.Prelude.{ℕ, drop};
ghost use Rattle.system_parts.specs.Completion.{first_ask};
ghost use Rattle.system_parts.specs.Sweep.{sweep_asks, sweep_after_table, sweep_after_marking};
ghost use Rattle.invalidator.specs.Stages.{point_of, IsStage};

fn ask_at(txn: TxnId, found: Mark, keys: &[KeyNo], done: usize) -> Option<Ask>
    ensures { result ≡ first_ask (drop done (sweep_asks txn found keys.now)) }
{
    match found {
        Mark::Committed(commit) => finish_ask(txn, commit, keys, done),
        Mark::Invalid => undo_ask(txn, keys, done),
    }
}

fn after_table(txn: TxnId, epoch: u64, answer: Told) -> Stage
    ensures point { point_of txn result ≡ sweep_after_table txn epoch answer }
    ensures stage { IsStage result }
{
    match answer {
        Told::Committed(commit) => Stage::Listing {
            found: Mark::Committed(commit),
        },
        Told::Absent if epoch < txn.value() => Stage::Undecided,
        Told::Absent => Stage::Marking,
        _ => Stage::Listing {
            found: Mark::Invalid,
        },
    }
}

/// A commit that the mark found counts as the commit table's own.
fn after_marking(answer: Told) -> Stage
    ensures point { (txn : ℕ) → point_of txn result ≡ sweep_after_marking answer }
    ensures stage { IsStage result }
{
    match answer {
        Told::Committed(commit) => Stage::Listing {
            found: Mark::Committed(commit),
        },
        _ => Stage::Listing {
            found: Mark::Invalid,
        },
    }
}
