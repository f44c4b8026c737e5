// The rows, in lists of cells by key.
ghost use Rattle.std.specs.Prelude.{◌≡◌, ℕ, [], length, map, reverse, slice_get, IfOk, IsSome, None, OnErr, OnOk};
ghost use Rattle.cell_store.specs.KeyLists.{needed_by, rows_at, AreRising};
ghost use Rattle.cell_store.specs.AtRest.{row_of};
ghost use Rattle.cell_store.specs.Calls.{put_row, fetched, looked, with_shadow, without_bare, AreOrdered};

use crate::at_rest::{Row, rows_in};
use crate::{Cell, Front, key_list};
use stamp_base::{KeyNo, NoMemory, Stamp, Value};
use std::alloc::Global;
use std::collections::BTreeMap;
use std::marker::Model;

/// Rows in ascending order of key and version.
#[derive(Drop)]
pub struct Rows {
    // Each key's cells, in ascending order of version.
    lists: BTreeMap<KeyNo, Vec<Cell>>,
    alloc: Global,
}

impl Model for Rows {
    ghost use Rattle.std.specs.Prelude.{List};
    ghost use Rattle.system_parts.specs.Rows.{Row};

    ghost Value = { List Row };

    ghost use Rattle.cell_store.specs.KeyLists.{rows_of, IsSound};

    ghost view = { λ r. rows_of r.lists.entries };

    ghost invariant = { IsSound };
}

impl Rows {
    /// No rows.
    pub fn new(alloc: Global) -> Rows
        ensures { result ≡ [] }
    {
        Rows {
            lists: BTreeMap::new(alloc),
            alloc,
        }
    }

    /// The rows ascend by key and version.
    pub fn are_ordered(&self)
        ensures { AreOrdered self.now }
    {
        let _ = &self.lists;
    }

    /// The key's cells, in ascending order of version.
    fn cells_of(&self, key: KeyNo) -> &[Cell]
        ensures rising { AreRising result.now }
        ensures looked { (t : ℕ) → looked (rows_at key result.now) key t ≡ looked self.now key t }
        ensures fetched { (upto : ℕ) → fetched (rows_at key result.now) key upto ≡ fetched self.now key upto }
        ensures ordered { AreOrdered self.now }
    {
        match self.lists.get(&key) {
            Some(cells) => cells,
            None => &[],
        }
    }

    /// The key's cells of version at most `upto`, in ascending order of version.
    fn cells_upto(&self, key: KeyNo, upto: Stamp) -> &[Cell]
        ensures value { fetched self.now key upto ≡ reverse result.now }
        ensures ordered { AreOrdered self.now }
    {
        key_list::upto(self.cells_of(key), upto)
    }

    /// The cell of the row that is there.
    pub fn cell(&self, key: KeyNo, version: Stamp) -> Option<Cell>
        ensures value { result ≡ looked self.now key version }
        ensures ordered { AreOrdered self.now }
    {
        key_list::cell_of(self.cells_of(key), version)
    }

    /// Of the key's cells of version at most `upto`, how many there are, and those that the reader needs, the greatest version
    /// first. NoMemory where memory is refused.
    pub fn front(&self, key: KeyNo, upto: Stamp, reader: Option<Stamp>) -> Result<Front, NoMemory>
        ensures versions { IfOk result (λ front. front.versions ≡ length (fetched self.now key upto)) }
        ensures cells { IfOk result (λ front. front.cells.items ≡ needed_by reader (fetched self.now key upto)) }
        ensures ordered { AreOrdered self.now }
    {
        let cells = self.cells_upto(key, upto);
        let needed = key_list::needed_by(reader, cells);
        Ok(Front {
            versions: cells.len() as u64,
            cells: key_list::turned(self.alloc, needed)?,
        })
    }

    /// Adds a bare row where there is none. NoMemory where memory is refused.
    pub fn enter(&mut self, key: KeyNo, version: Stamp, value: Value) -> Result<(), NoMemory>
        requires { looked self.old key version ≡ None }
        ensures ok { OnOk result (self.new ≡ put_row self.old key version value) }
        ensures err { OnErr result (self.new ≡ self.old) }
    {
        if let Some(cells) = self.lists.get_mut(&key) {
            return key_list::enter(cells, version, value);
        }
        let cells = key_list::of_one(self.alloc, version, value)?;
        self.lists.insert(key, cells)?;
        Ok(())
    }

    /// Replaces the value of the row that is there.
    pub fn replace_value(&mut self, key: KeyNo, version: Stamp, value: Value)
        requires { IsSome (looked self.old key version) }
        ensures { self.new ≡ put_row self.old key version value }
    {
        let Some(cells) = self.lists.get_mut(&key) else {
            return;
        };
        key_list::replace_value(cells, version, value);
    }

    /// Sets the shadow of the row that is there.
    pub fn fill_shadow(&mut self, key: KeyNo, version: Stamp, commit: Stamp)
        ensures { self.new ≡ with_shadow self.old key version commit }
    {
        let Some(cells) = self.lists.get_mut(&key) else {
            return;
        };
        key_list::fill_shadow(cells, version, commit);
    }

    /// Removes the row where it has no shadow.
    pub fn remove_bare(&mut self, key: KeyNo, version: Stamp)
        ensures { self.new ≡ without_bare self.old key version }
    {
        let Some(cells) = self.lists.get_mut(&key) else {
            return;
        };
        key_list::remove_bare(cells, version);
    }

    /// The rows as a list. NoMemory where memory is refused.
    pub fn into_rows(self) -> Result<Vec<Row>, NoMemory>
        ensures rows { IfOk result (λ rows. map row_of rows.items ≡ self) }
        ensures ordered { AreOrdered self }
    {
        rows_in(self.alloc, &self.lists)
    }
}
