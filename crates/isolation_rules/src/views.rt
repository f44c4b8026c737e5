// What a read is judged by.
ghost use Rattle.std.specs.Prelude.{◌≡◌, ℕ, List, take, Decides};
ghost use Rattle.history_book.specs.declared.item.Item.{Item};
ghost use Rattle.history_book.specs.Isolation as isolation;
ghost use Rattle.isolation_rules.specs.Best.{IsOwn, Sees};

use crate::version::Version;
use crate::visible::{last_write, visible, was_listed};
use history_book::Item;
use stamp_base::{KeyNo, Stamp, TxnId};

/// Tells what stands before a read, and what its transaction sees of the others.
pub trait Views {
    // of which history, and before which of its places
    ghost tells: { Self → List Item → ℕ → Type 0 };

    /// The transaction's last write at the key before the read.
    fn own(&self, start: Stamp, key: KeyNo) -> Option<Version>
        ensures { (h : List Item) (i : ℕ) → tells self.now h i → IsOwn (take i h) start key result };

    /// Whether the transaction's keys were listed before the read.
    fn listed(&self, txn: TxnId) -> bool
        ensures { (h : List Item) (i : ℕ) → tells self.now h i → Decides result (isolation.WasListed (take i h) txn) };

    /// The newest version that a reader with this start sees at the key, in the whole history.
    fn seen(&self, start: Stamp, key: KeyNo) -> Option<Version>
        ensures { (h : List Item) (i : ℕ) → tells self.now h i → Sees h start key result };
}

/// The items themselves: each answer is a walk over them.
#[derive(Clone, Copy)]
pub struct Plain<'a> {
    /// All items.
    pub items: &'a [Item],
    /// Those before the read.
    pub before: &'a [Item],
}

impl Views for Plain<'_> {
    ghost tells = { λ plain h i. (plain.items.now ≡ h) × (plain.before.now ≡ take i h) };

    fn own(&self, start: Stamp, key: KeyNo) -> Option<Version> {
        last_write(self.before, start, key)
    }

    fn listed(&self, txn: TxnId) -> bool {
        was_listed(self.before, txn)
    }

    fn seen(&self, start: Stamp, key: KeyNo) -> Option<Version> {
        visible(self.items, start, key)
    }
}
