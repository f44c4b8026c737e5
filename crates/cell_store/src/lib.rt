//! The cells: rows of key, version, value and shadow. Each key's cells stand in a list by version, and an index leads from a
//! version to its keys.
#![tactic(auto)]

ghost use Rattle.std.specs.Prelude.{◌≡◌, [], length, None, IfOk, IsSome, OnErr, OnOk};
ghost use Rattle.std.specs.List.Sorted.{IsStrictlyIncreasing};
ghost use Rattle.cell_store.specs.Calls.{put_row, fetched, front_of, looked, with_shadow, without_bare, keys_of_version, AreFalling, AreOrdered, AreUpto, HasOnly, IsBare, IsOneCall, UnlessNoMemory, OnNoMemory, fated};
ghost use Rattle.cell_store.specs.Shadow.{shadow_at};

mod at_rest;
mod key_list;
mod rows;
mod version_index;

pub use at_rest::Row;
use port_io::{Fate, Store, Weather};
use rows::Rows;
use stamp_base::{KeyNo, NoMemory, Stamp, Value};
use std::alloc::Global;
use std::cmp::Reverse;
use std::collections::BTreeSet;
use std::marker::Model;
use system_parts::answered_under;
pub use system_parts::{Cell, StoreError, StoreFault};

/// The cells of a store, seen as their rows in ascending order of key and version.
#[derive(Drop)]
pub struct Cells {
    rows: Rows,
    // The version and the key of each row, the greatest version first: a new row mostly has the greatest, and so is found at once.
    index: BTreeSet<(Reverse<Stamp>, KeyNo)>,
    alloc: Global,
}

impl Model for Cells {
    ghost use Rattle.cell_store.specs.Seen.{SeenCells};

    ghost Value = { SeenCells };

    ghost use Rattle.cell_store.specs.Index.{IsIndexed};

    ghost view = { λ c. record { rows = c.rows } };

    ghost invariant = { IsIndexed };
}

/// What a reader needs of a key: how many versions there are up to its start, and their cells, the greatest version first,
/// down to the first whose shadow is below the start, or else all. No read goes further down than that one.
#[derive(Drop)]
pub struct Front {
    /// How many versions of the key there are up to the start.
    pub versions: u64,
    /// The cells that the reader needs.
    pub cells: Vec<Cell>,
}

impl Cells {
    /// No rows.
    pub fn new(alloc: Global) -> Cells
        ensures rows { result.rows ≡ [] }
    {
        Cells {
            rows: Rows::new(alloc),
            index: BTreeSet::new(alloc),
            alloc,
        }
    }

    /// Writes a value into the row that is there, or as a new bare one. NoMemory or StoreFault, as a StoreError: after NoMemory the
    /// store is as before and the weather was not asked; after a StoreFault the row was put exactly where the fate is FailsApplied.
    #[tactic(auto, using(crate::proofs::Entries::kept_entry))]
    pub fn put<W: Weather>(
        &mut self,
        weather: &mut W,
        key: KeyNo,
        version: Stamp,
        value: Value,
    ) -> Result<(), StoreError>
        requires { IsBare self.old.rows key version }
        ensures rows { UnlessNoMemory result (self.new.rows ≡ fated (W.ahead weather.old Store.Cells 0)
            self.old.rows (put_row self.old.rows key version value)) }
        ensures call { UnlessNoMemory result (IsOneCall Store.Cells (W.ahead weather.old) (W.ahead weather.new)
            (W.faults weather.old) (W.faults weather.new) result) }
        ensures memory { OnNoMemory result ((self.new ≡ self.old) × (weather.new ≡ weather.old)) }
    {
        if self.rows.cell(key, version).is_some() {
            let fate = weather.next(Store::Cells);
            self.replace_under(fate, key, version, value);
            return Ok(answered_under(fate, ())?);
        }
        self.enter(key, version, value)?;
        let fate = weather.next(Store::Cells);
        self.keep_under(fate, key, version);
        Ok(answered_under(fate, ())?)
    }

    /// The key's cells of version at most `upto`, in one step, the greatest version first. NoMemory or StoreFault, as a StoreError:
    /// after NoMemory the weather was not asked.
    pub fn fetch<W: Weather>(
        &self,
        weather: &mut W,
        key: KeyNo,
        upto: Stamp,
    ) -> Result<Vec<Cell>, StoreError>
        ensures value { IfOk result (λ cells. cells.items ≡ fetched self.now.rows key upto) }
        ensures falling { IfOk result (λ cells. AreFalling cells.items) }
        ensures upto { IfOk result (λ cells. AreUpto upto cells.items) }
        ensures call { UnlessNoMemory result (IsOneCall Store.Cells (W.ahead weather.old) (W.ahead weather.new)
            (W.faults weather.old) (W.faults weather.new) result) }
        ensures memory { OnNoMemory result (weather.new ≡ weather.old) }
        ensures ordered { AreOrdered self.now.rows }
    {
        let all = self.rows.front(key, upto, None)?;
        Ok(answered_under(weather.next(Store::Cells), all.cells)?)
    }

    /// What a reader with this start needs of the key, without a store call: a fetch gathers it before its call. It costs a search
    /// by halves and the cells that it gives, however many versions the key has. NoMemory where memory is refused.
    pub fn front(&self, key: KeyNo, start: Stamp) -> Result<Front, NoMemory>
        ensures versions { IfOk result (λ front. front.versions ≡ length (fetched self.now.rows key start)) }
        ensures cells { IfOk result (λ front. front.cells.items ≡ front_of start (fetched self.now.rows key start)) }
        ensures falling { IfOk result (λ front. AreFalling front.cells.items) }
        ensures upto { IfOk result (λ front. AreUpto start front.cells.items) }
        ensures ordered { AreOrdered self.now.rows }
    {
        let front = self.rows.front(key, start, Some(start))?;
        Ok(front)
    }

    /// The cell of the key and the version, in one step. None exactly where there is no such row. StoreFault where the store fails.
    pub fn look<W: Weather>(
        &self,
        weather: &mut W,
        key: KeyNo,
        version: Stamp,
    ) -> Result<Option<Cell>, StoreFault>
        ensures value { IfOk result (λ found. found ≡ looked self.now.rows key version) }
        ensures call { IsOneCall Store.Cells (W.ahead weather.old) (W.ahead weather.new)
            (W.faults weather.old) (W.faults weather.new) result }
        ensures ordered { AreOrdered self.now.rows }
    {
        let found = self.rows.cell(key, version);
        answered_under(weather.next(Store::Cells), found)
    }

    /// The shadow of the row of the key and the version, without a store call. None exactly of a bare row, and where there is none.
    pub fn shadow_of(&self, key: KeyNo, version: Stamp) -> Option<Stamp>
        ensures { result ≡ shadow_at self.now.rows key version }
    {
        self.rows.cell(key, version)?.shadow
    }

    /// Sets the shadow of the row that is there. Where no such row is there, nothing changes. After a StoreFault it was set exactly
    /// where the fate is FailsApplied.
    pub fn set_shadow<W: Weather>(
        &mut self,
        weather: &mut W,
        key: KeyNo,
        version: Stamp,
        commit: Stamp,
    ) -> Result<(), StoreFault>
        requires { HasOnly self.old.rows key version commit }
        ensures rows { self.new.rows ≡ fated (W.ahead weather.old Store.Cells 0)
            self.old.rows (with_shadow self.old.rows key version commit) }
        ensures call { IsOneCall Store.Cells (W.ahead weather.old) (W.ahead weather.new)
            (W.faults weather.old) (W.faults weather.new) result }
    {
        let fate = weather.next(Store::Cells);
        self.fill_under(fate, key, version, commit);
        answered_under(fate, ())
    }

    /// Removes a bare row. One with a shadow stays. After a StoreFault it was removed exactly where the fate is FailsApplied.
    pub fn remove_bare<W: Weather>(
        &mut self,
        weather: &mut W,
        key: KeyNo,
        version: Stamp,
    ) -> Result<(), StoreFault>
        ensures rows { self.new.rows ≡ fated (W.ahead weather.old Store.Cells 0)
            self.old.rows (without_bare self.old.rows key version) }
        ensures call { IsOneCall Store.Cells (W.ahead weather.old) (W.ahead weather.new)
            (W.faults weather.old) (W.faults weather.new) result }
    {
        let fate = weather.next(Store::Cells);
        self.leave_under(fate, key, version);
        answered_under(fate, ())
    }

    /// The keys of the version's rows, ascending. NoMemory or StoreFault, as a StoreError: after NoMemory the weather was not
    /// asked.
    pub fn keys_of<W: Weather>(
        &self,
        weather: &mut W,
        version: Stamp,
    ) -> Result<Vec<KeyNo>, StoreError>
        ensures value { IfOk result (λ keys. keys.items ≡ keys_of_version self.now.rows version) }
        ensures ascending { IfOk result (λ keys. IsStrictlyIncreasing keys.items) }
        ensures call { UnlessNoMemory result (IsOneCall Store.Cells (W.ahead weather.old) (W.ahead weather.new)
            (W.faults weather.old) (W.faults weather.new) result) }
        ensures memory { OnNoMemory result (weather.new ≡ weather.old) }
        ensures ordered { AreOrdered self.now.rows }
    {
        let keys = self.keys_with(version)?;
        Ok(answered_under(weather.next(Store::Cells), keys)?)
    }

    /// The keys of the version's rows, ascending.
    fn keys_with(&self, version: Stamp) -> Result<Vec<KeyNo>, NoMemory>
        ensures value { IfOk result (λ keys. keys.items ≡ keys_of_version self.now.rows version) }
        ensures ordered { AreOrdered self.now.rows }
    {
        self.rows.are_ordered();
        let (first, last) = version_index::places_of(version);
        Ok(version_index::keys_from_to(self.alloc, &self.index, first, last)?)
    }

    /// Adds a bare row where there is none, and its entry in the index. It is the only change that takes memory.
    fn enter(&mut self, key: KeyNo, version: Stamp, value: Value) -> Result<(), NoMemory>
        requires { looked self.old.rows key version ≡ None }
        ensures ok { OnOk result (self.new.rows ≡ put_row self.old.rows key version value) }
        ensures err { OnErr result (self.new ≡ self.old) }
    {
        // The look-ups by range in the index rest on what keys can be, which `value` tells.
        let _ = key.value();
        self.rows.enter(key, version, value)?;
        match self.index.insert((Reverse(version), key)) {
            Ok(_) => Ok(()),
            Err(_) => {
                self.rows.remove_bare(key, version);
                Err(NoMemory)
            }
        }
    }

    /// The bare row stays where the fate applies, and is taken away again where it does not.
    fn keep_under(&mut self, fate: Fate, key: KeyNo, version: Stamp)
        ensures { self.new.rows ≡ fated fate (without_bare self.old.rows key version) self.old.rows }
    {
        if !fate.applies() {
            self.leave_bare(key, version);
        }
    }

    /// Replaces the value of the row that is there, where the fate applies.
    fn replace_under(&mut self, fate: Fate, key: KeyNo, version: Stamp, value: Value)
        requires there { IsSome (looked self.old.rows key version) }
        requires bare { IsBare self.old.rows key version }
        ensures { self.new.rows ≡ fated fate self.old.rows (put_row self.old.rows key version value) }
    {
        if fate.applies() {
            self.rows.replace_value(key, version, value);
        }
    }

    /// Sets the shadow of the row that is there, where the fate applies.
    fn fill_under(&mut self, fate: Fate, key: KeyNo, version: Stamp, commit: Stamp)
        ensures { self.new.rows ≡ fated fate self.old.rows (with_shadow self.old.rows key version commit) }
    {
        if fate.applies() {
            self.rows.fill_shadow(key, version, commit);
        }
    }

    /// Removes the row where it has no shadow, and the fate applies.
    fn leave_under(&mut self, fate: Fate, key: KeyNo, version: Stamp)
        ensures { self.new.rows ≡ fated fate self.old.rows (without_bare self.old.rows key version) }
    {
        if fate.applies() {
            self.leave_bare(key, version);
        }
    }

    /// Removes the row where it has no shadow, and its entry in the index with it.
    fn leave_bare(&mut self, key: KeyNo, version: Stamp)
        ensures { self.new.rows ≡ without_bare self.old.rows key version }
    {
        let Some(cell) = self.rows.cell(key, version) else {
            return;
        };
        if cell.shadow.is_none() {
            self.rows.remove_bare(key, version);
            self.index.remove(&(Reverse(version), key));
        }
    }
}
