// The transactions whose keys were listed, as a walk passes the items.
ghost use Rattle.std.specs.Prelude.{◌≡◌, ◌==◌, ◌∷◌, ◌++◌, [], ℕ, List, false, Decides, OnOk, MatchOption};
ghost use Rattle.history_book.specs.declared.item.Item.{Item};
ghost use Rattle.history_book.specs.Isolation as isolation;
ghost use Rattle.isolation_rules.specs.Best.{lists, lists_keys};
ghost use Rattle.si_judge.specs.Indexed.{HasListed};

use history_book::{Item, StoreStep};
use stamp_base::{NoMemory, TxnId};
use std::alloc::Global;
use std::collections::HashSet;

/// The transactions whose keys were listed, of the items passed so far.
#[derive(Drop)]
pub struct Listed {
    txns: HashSet<u64>,
}

impl Listed {
    /// The transactions of no items.
    pub fn new(alloc: Global) -> Listed
        ensures { HasListed [] result.txns }
    {
        Listed {
            txns: HashSet::new(alloc),
        }
    }

    /// Passes the item. NoMemory where memory is refused.
    pub fn pass(&mut self, item: &Item) -> Result<(), NoMemory>
        ensures { OnOk result ((part : List Item) → HasListed part self.old.txns →
            HasListed (part ++ item.now ∷ []) self.new.txns) }
    {
        if let Some(txn) = listed_by(item) {
            self.txns.insert(txn.value())?;
        }
        Ok(())
    }

    /// Whether the transaction's keys were listed.
    pub fn has(&self, txn: TxnId) -> bool
        ensures { (part : List Item) → HasListed part self.now.txns → Decides result (isolation.WasListed part txn) }
    {
        self.txns.contains(&txn.value())
    }
}

/// The transaction whose keys the item lists.
fn listed_by(item: &Item) -> Option<TxnId>
    ensures { MatchOption result ((t : ℕ) → lists t item.now ≡ false) (λ txn. (t : ℕ) → lists t item.now ≡ (t == txn)) }
{
    match item {
        Item::Step { what, .. } => listed_in(what),
        _ => None,
    }
}

fn listed_in(what: &StoreStep) -> Option<TxnId>
    ensures { MatchOption result ((t : ℕ) → lists_keys t what.now ≡ false) (λ txn. (t : ℕ) → lists_keys t what.now ≡ (t == txn)) }
{
    match what {
        StoreStep::Keys { txn, .. } => Some(*txn),
        _ => None,
    }
}
