//! The commit table: the marks of transactions, and places for the marks that must not want memory.
#![tactic(auto)]

ghost use Rattle.std.specs.Prelude.{◌≡◌, true, IfOk, IsTrue, OnErr, OnOk};
ghost use Rattle.std.specs.FinMap as map;
ghost use Rattle.std.specs.FinSet as set;
ghost use Rattle.commit_table.specs.Calls.{mark_of, put_answer, put_pair, without_committed, IsOneCall, UnlessNoMemory, OnNoMemory, fated};

mod entries;

use entries::{place_under, remove_under, use_place};
use indexmap::{IndexMap, IndexSet};
use port_io::{Store, Weather};
use stamp_base::{Mark, NoMemory, TxnId};
use std::alloc::Global;
use std::marker::Model;
use system_parts::answered_under;
pub use system_parts::{Put, StoreError, StoreFault};

/// The marks of transactions. A call finds, adds and removes in constant time, so the order of the
/// entries means nothing, and contracts see them as a map.
#[derive(Drop)]
pub struct Table {
    // By the transactions' numbers.
    pairs: IndexMap<u64, Mark>,
    places: IndexSet<u64>,
    /// Whether the map has room for one mark more.
    has_room: bool,
}

impl Model for Table {
    ghost use Rattle.commit_table.specs.Seen.{SeenTable, seen_code};

    ghost Value = { SeenTable };

    ghost coded = { seen_code };

    ghost use Rattle.commit_table.specs.Kept.{pairs_of, places_of, HasRoom};

    ghost view = { λ t. record { pairs = pairs_of t; places = places_of t; has_room = t.has_room } };

    ghost invariant = { HasRoom };
}

impl Table {
    /// No entries and no places.
    pub fn new(alloc: Global) -> Table
        ensures pairs { result.pairs ≡ map.empty }
        ensures places { result.places ≡ set.empty }
    {
        Table {
            pairs: IndexMap::new(alloc),
            places: IndexSet::new(alloc),
            has_room: false,
        }
    }

    /// The transaction's mark, without a store call.
    pub fn mark_of(&self, txn: TxnId) -> Option<Mark>
        ensures { result ≡ mark_of self.now.pairs txn }
    {
        self.pairs.get(&txn.value()).copied()
    }

    /// The transaction's mark, in one store call. StoreFault where the store fails.
    pub fn get<W: Weather>(&self, weather: &mut W, txn: TxnId) -> Result<Option<Mark>, StoreFault>
        ensures value { IfOk result (λ found. found ≡ mark_of self.now.pairs txn) }
        ensures call { IsOneCall Store.Table (W.ahead weather.old) (W.ahead weather.new)
            (W.faults weather.old) (W.faults weather.new) result }
    {
        answered_under(weather.next(Store::Table), self.mark_of(txn))
    }

    /// Places the mark where the transaction has none. An entry that is there stays, and is the answer. NoMemory or StoreFault, as
    /// a StoreError: after NoMemory the table is as before and the weather was not asked; after a StoreFault the mark was placed
    /// exactly where the fate is FailsApplied.
    pub fn put_if_absent<W: Weather>(
        &mut self,
        weather: &mut W,
        txn: TxnId,
        mark: Mark,
    ) -> Result<Put, StoreError>
        ensures value { IfOk result (λ put. put ≡ put_answer (mark_of self.old.pairs txn)) }
        ensures pairs { UnlessNoMemory result (self.new.pairs ≡ fated (W.ahead weather.old Store.Table 0)
            self.old.pairs (put_pair self.old.pairs txn mark)) }
        ensures places { self.new.places ≡ self.old.places }
        ensures call { UnlessNoMemory result (IsOneCall Store.Table (W.ahead weather.old) (W.ahead weather.new)
            (W.faults weather.old) (W.faults weather.new) result) }
        ensures memory { OnNoMemory result ((self.new ≡ self.old) × (weather.new ≡ weather.old)) }
    {
        match self.mark_of(txn) {
            Some(there) => Ok(answered_under(weather.next(Store::Table), Put::Found(there))?),
            None => self.put_new(weather, txn, mark),
        }
    }

    /// Gives the transaction a place, so that a later `put_reserved` of it takes no memory. The pairs stay. A transaction that has
    /// a place keeps it. NoMemory where memory is refused, and then the table is as before.
    pub fn reserve(&mut self, txn: TxnId) -> Result<(), NoMemory>
        ensures pairs { self.new.pairs ≡ self.old.pairs }
        ensures places { OnOk result (self.new.places ≡ set.insert self.old.places txn) }
        ensures reserved { OnOk result (IsTrue (set.contains self.new.places txn)) }
        ensures memory { OnErr result (self.new ≡ self.old) }
    {
        let number = txn.value();
        if self.places.contains(&number) {
            return Ok(());
        }
        self.pairs.reserve(self.places.len() + 2)?;
        self.places.insert(number)?;
        Ok(())
    }

    /// Places the mark where the transaction has none, in the place that was reserved for it. The place is used up whatever the
    /// fate. After a StoreFault the mark was placed exactly where the fate is FailsApplied.
    pub fn put_reserved<W: Weather>(
        &mut self,
        weather: &mut W,
        txn: TxnId,
        mark: Mark,
    ) -> Result<Put, StoreFault>
        requires { IsTrue (set.contains self.old.places txn) }
        ensures value { IfOk result (λ put. put ≡ put_answer (mark_of self.old.pairs txn)) }
        ensures pairs { self.new.pairs ≡ fated (W.ahead weather.old Store.Table 0)
            self.old.pairs (put_pair self.old.pairs txn mark) }
        ensures places { self.new.places ≡ set.remove self.old.places txn }
        ensures call { IsOneCall Store.Table (W.ahead weather.old) (W.ahead weather.new)
            (W.faults weather.old) (W.faults weather.new) result }
    {
        let put = answer(self.mark_of(txn));
        use_place(&mut self.places, txn);
        let fate = weather.next(Store::Table);
        place_under(&mut self.pairs, fate, txn, mark);
        answered_under(fate, put)
    }

    /// Removes a Committed entry. An Invalid one stays, and so does everything where there is none. After a StoreFault the entry
    /// was removed exactly where the fate is FailsApplied.
    pub fn remove_committed<W: Weather>(
        &mut self,
        weather: &mut W,
        txn: TxnId,
    ) -> Result<(), StoreFault>
        ensures pairs { self.new.pairs ≡ fated (W.ahead weather.old Store.Table 0)
            self.old.pairs (without_committed self.old.pairs txn) }
        ensures places { self.new.places ≡ self.old.places }
        ensures call { IsOneCall Store.Table (W.ahead weather.old) (W.ahead weather.new)
            (W.faults weather.old) (W.faults weather.new) result }
    {
        let fate = weather.next(Store::Table);
        remove_under(&mut self.pairs, fate, txn);
        answered_under(fate, ())
    }

    /// Makes room for one mark more, so that the next `put_in_room` takes no memory. The pairs and the places stay. NoMemory where
    /// memory is refused.
    pub fn make_room(&mut self) -> Result<(), NoMemory>
        ensures pairs { self.new.pairs ≡ self.old.pairs }
        ensures places { self.new.places ≡ self.old.places }
        ensures room { OnOk result (self.new.has_room ≡ true) }
    {
        self.pairs.reserve(self.places.len() + 1)?;
        self.has_room = true;
        Ok(())
    }

    /// Places the mark where the transaction has none, in the room that was made. The room is used up whatever the fate. An entry
    /// that is there stays, and is the answer. After a StoreFault the mark was placed exactly where the fate is FailsApplied.
    pub fn put_in_room<W: Weather>(
        &mut self,
        weather: &mut W,
        txn: TxnId,
        mark: Mark,
    ) -> Result<Put, StoreFault>
        requires { self.old.has_room ≡ true }
        ensures value { IfOk result (λ put. put ≡ put_answer (mark_of self.old.pairs txn)) }
        ensures pairs { self.new.pairs ≡ fated (W.ahead weather.old Store.Table 0)
            self.old.pairs (put_pair self.old.pairs txn mark) }
        ensures places { self.new.places ≡ self.old.places }
        ensures call { IsOneCall Store.Table (W.ahead weather.old) (W.ahead weather.new)
            (W.faults weather.old) (W.faults weather.new) result }
    {
        let put = answer(self.mark_of(txn));
        self.has_room = false;
        let fate = weather.next(Store::Table);
        place_under(&mut self.pairs, fate, txn, mark);
        answered_under(fate, put)
    }

    /// Places the mark of a transaction that has none, beside the room for all transactions with a place.
    fn put_new<W: Weather>(
        &mut self,
        weather: &mut W,
        txn: TxnId,
        mark: Mark,
    ) -> Result<Put, StoreError>
        requires { mark_of self.old.pairs txn ≡ None }
        ensures value { IfOk result (λ put. put ≡ Put.Placed) }
        ensures pairs { UnlessNoMemory result (self.new.pairs ≡ fated (W.ahead weather.old Store.Table 0)
            self.old.pairs (put_pair self.old.pairs txn mark)) }
        ensures places { self.new.places ≡ self.old.places }
        ensures call { UnlessNoMemory result (IsOneCall Store.Table (W.ahead weather.old) (W.ahead weather.new)
            (W.faults weather.old) (W.faults weather.new) result) }
        ensures memory { OnNoMemory result ((self.new ≡ self.old) × (weather.new ≡ weather.old)) }
    {
        self.pairs.reserve(self.places.len() + 1)?;
        self.has_room = false;
        let fate = weather.next(Store::Table);
        place_under(&mut self.pairs, fate, txn, mark);
        Ok(answered_under(fate, Put::Placed)?)
    }
}

/// What a put answers where it works.
fn answer(found: Option<Mark>) -> Put
    ensures { result ≡ put_answer found }
{
    match found {
        Some(there) => Put::Found(there),
        None => Put::Placed,
    }
}
