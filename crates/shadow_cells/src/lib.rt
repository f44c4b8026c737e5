//! Completions: the store steps that finish or undo a transaction which has ended.
#![tactic(auto)]

ghost use Rattle.std.specs.Prelude.{◌≡◌, drop, IsSome, IfSome};
ghost use Rattle.system_parts.specs.Completion.{finish_asks, undo_asks, first_ask};
ghost use Rattle.system_parts.specs.Sweep.{IsKeys};

mod asks;

pub use asks::{finish_ask, undo_ask};
use stamp_base::{KeyList, Stamp, TxnId};
use std::marker::Model;
use system_parts::Ask;

/// How a completion treats the transaction's cells.
#[derive(Clone, Copy, Debug, PartialEq, Eq)]
enum Way {
    /// Each gets the commit as its shadow, and then the commit leaves the commit table.
    Finish { commit: Stamp },
    /// Each is erased.
    Undo,
}

/// The store steps that are left to do for a transaction which has ended, seen as a list of asks.
#[derive(Debug, Drop)]
pub struct Completion {
    txn: TxnId,
    keys: KeyList,
    way: Way,
    /// How many steps were done.
    done: usize,
}

impl Model for Completion {
    ghost use Rattle.std.specs.Prelude.{List, ◌≤◌, length, drop};
    ghost use Rattle.system_parts.specs.declared.asks.Ask.{Ask};

    ghost Value = { List Ask };

    ghost use Rattle.shadow_cells.specs.Ways.{all_asks};

    ghost view = { λ c. drop c.done (all_asks c.txn c.way c.keys) };

    ghost invariant = { λ c. c.done ≤ length (all_asks c.txn c.way c.keys) };
}

impl Completion {
    /// Sets the commit as the shadow of each cell, in the order of the keys, and then removes it from the commit table.
    pub fn finish(txn: TxnId, commit: Stamp, keys: KeyList) -> Completion
        ensures { result ≡ finish_asks txn commit keys }
    {
        Completion {
            txn,
            keys,
            way: Way::Finish { commit },
            done: 0,
        }
    }

    /// Erases each cell, in the order of the keys.
    pub fn undo(txn: TxnId, keys: KeyList) -> Completion
        ensures { result ≡ undo_asks txn keys }
    {
        Completion {
            txn,
            keys,
            way: Way::Undo,
            done: 0,
        }
    }

    /// The next step; None exactly where all were done. It never lists keys.
    pub fn next(&self) -> Option<Ask>
        ensures next { result ≡ first_ask self.now }
        ensures no_listing { IfSome result (λ ask. IsKeys ask → ⊥) }
    {
        let keys = self.keys.as_slice();
        match self.way {
            Way::Finish { commit } => finish_ask(self.txn, commit, keys, self.done),
            Way::Undo => undo_ask(self.txn, keys, self.done),
        }
    }

    /// The next step was done.
    #[tactic(auto, using(crate::proofs::Steps::drop_more))]
    pub fn done(&mut self)
        requires { IsSome (first_ask self.old) }
        ensures { self.new ≡ drop 1 self.old }
    {
        self.done += 1;
    }
}
