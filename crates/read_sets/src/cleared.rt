// Reads that need no second look.
ghost use Rattle.std.specs.Prelude.{◌≡◌, ◌∷◌, ◌++◌, [], List, true};
ghost use Rattle.history_book.specs.Serial.{StoodAtCommit};
ghost use Rattle.history_book.specs.declared.item.Item.{Item};
ghost use Rattle.read_sets.specs.Index.{AreCleared, HasPair, MayGain};

use history_book::Item;
use stamp_base::{KeyNo, Stamp};
use std::alloc::Global;
use std::collections::BTreeSet;

/// Transactions and keys of which a read, from here on, stands: the transaction wrote the key, or a read of it stood.
#[derive(Drop)]
pub struct Cleared {
    pairs: BTreeSet<(u64, u64)>,
}

impl Cleared {
    /// What no items have cleared.
    pub fn new(alloc: Global) -> Cleared
        ensures { (h : List Item) → AreCleared h [] result }
    {
        Cleared {
            pairs: BTreeSet::new(alloc),
        }
    }

    /// Notes an item that stands. Where memory is refused, a later read is looked at again.
    pub fn note(&mut self, item: &Item)
        ensures { (h part : List Item) → StoodAtCommit h part item.now → AreCleared h part self.old →
            AreCleared h (part ++ item.now ∷ []) self.new }
    {
        match item {
            Item::Read { start, key, .. } => self.add(*start, *key),
            Item::Write { start, key, .. } => self.add(*start, *key),
            _ => {}
        }
    }

    /// Whether a read of the key by the transaction with this start is known to stand.
    pub fn has(&self, start: Stamp, key: KeyNo) -> bool
        ensures { result ≡ true → HasPair self.now.pairs start key }
    {
        self.pairs.contains(&(start.value(), key.value()))
    }

    fn add(&mut self, start: Stamp, key: KeyNo)
        ensures { MayGain self.old.pairs self.new.pairs start key }
    {
        let _ = self.pairs.insert((start.value(), key.value()));
    }
}
