// What a session remembers, in a map that lets the decision go which was longest not used.
ghost use Rattle.std.specs.Prelude.{◌≡◌, ◌<◌, Some, None, IfOk, OnOk, OnErr};
ghost use Rattle.system_parts.specs.Cache.{cache_new, known_of, used, put_fresh, cache_learnt};
ghost use Rattle.client_txn.specs.Remembering.{cache_of};

use lru::LruCache;
use stamp_base::{NoMemory, TxnId};
use std::alloc::Global;
use std::marker::Model;
use std::num::NonZeroUsize;
use system_parts::Known;

/// The decisions that are kept, by their transactions, and one that was just made.
#[derive(Drop)]
pub(crate) struct Memory {
    kept: LruCache<u64, Known>,
    fresh: Option<(TxnId, Known)>,
}

impl Model for Memory {
    ghost use Rattle.std.specs.Prelude.{◌<◌};
    ghost use Rattle.system_parts.specs.Cache.{Cache};

    ghost Value = { Cache };

    ghost view = { λ m. record { room = m.kept.cap; kept = m.kept.entries; fresh = m.fresh } };

    ghost invariant = { λ m. 0 < m.kept.cap };
}

impl Memory {
    /// Room for so many decisions; None where there is none.
    pub(crate) fn open(alloc: Global, room: u64) -> Result<Option<Memory>, NoMemory>
        ensures { IfOk result (λ memory. cache_of memory ≡ cache_new room) }
    {
        match NonZeroUsize::new(room as usize) {
            None => Ok(None),
            Some(cap) => Ok(Some(Memory {
                kept: LruCache::sparse(alloc, cap)?,
                fresh: None,
            })),
        }
    }

    /// What is kept of the transaction, which comes first then.
    pub(crate) fn known(&mut self, txn: TxnId) -> Option<Known>
        ensures known { result ≡ known_of self.old txn }
        ensures left { self.new ≡ used self.old txn }
    {
        let number = txn.value();
        let known = self.kept.peek(&number).copied();
        self.kept.promote(&number);
        known
    }

    /// The decision is fresh from now on.
    pub(crate) fn learnt(&mut self, txn: TxnId, known: Known)
        ensures { self.new ≡ cache_learnt self.old (Some (txn, known)) }
    {
        self.fresh = Some((txn, known));
    }

    /// A fresh decision comes first. Where memory is refused, it is still fresh.
    pub(crate) fn keep_fresh(&mut self) -> Result<(), NoMemory>
        ensures kept { OnOk result (self.new ≡ put_fresh self.old) }
        ensures refused { OnErr result (self.new ≡ self.old) }
    {
        if let Some((txn, known)) = self.fresh {
            self.kept.put(txn.value(), known)?;
            self.fresh = None;
        }
        Ok(())
    }

    /// Nothing is remembered any longer.
    pub(crate) fn forget(&mut self)
        ensures { self.new ≡ cache_new self.old.room }
    {
        self.kept.clear();
        self.fresh = None;
    }
}
