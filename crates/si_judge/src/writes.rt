// The last write of each transaction at each key, as a walk passes the items.
ghost use Rattle.std.specs.Prelude.{◌≡◌, ◌∷◌, ◌++◌, [], List, length, OnOk};
ghost use Rattle.history_book.specs.declared.item.Item.{Item};
ghost use Rattle.isolation_rules.specs.Best.{IsOwn};
ghost use Rattle.si_judge.specs.Indexed.{HasLastWrites};

use history_book::{Found, Item};
use isolation_rules::Version;
use stamp_base::{KeyNo, NoMemory, Stamp};
use std::alloc::Global;
use std::collections::HashMap;

/// The last write of each transaction at each key, of the items passed so far.
#[derive(Drop)]
pub struct LastWrites {
    versions: HashMap<(u64, u64), Version>,
}

impl LastWrites {
    /// The last writes of no items.
    pub fn new(alloc: Global) -> LastWrites
        ensures { HasLastWrites [] result.versions }
    {
        LastWrites {
            versions: HashMap::new(alloc),
        }
    }

    /// Passes the item, which stands at the place. NoMemory where memory is refused.
    pub fn pass(&mut self, place: usize, item: &Item) -> Result<(), NoMemory>
        ensures { OnOk result ((part : List Item) → length part ≡ place →
            HasLastWrites part self.old.versions → HasLastWrites (part ++ item.now ∷ []) self.new.versions) }
    {
        let Item::Write {
            start,
            key,
            value,
            ..
        } = item
        else {
            return Ok(());
        };
        let found = Found {
            from: *start,
            value: *value,
        };
        self.versions
            .insert((start.value(), key.value()), Version { place, found })?;
        Ok(())
    }

    /// The transaction's last write at the key.
    pub fn last(&self, start: Stamp, key: KeyNo) -> Option<Version>
        ensures { (part : List Item) → HasLastWrites part self.now.versions → IsOwn part start key result }
    {
        self.versions.get(&(start.value(), key.value())).copied()
    }
}
