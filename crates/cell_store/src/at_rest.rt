// The cells given up as a list of their rows.
ghost use Rattle.std.specs.Prelude.{◌≡◌, ◌++◌, map, OnOk, OnErr, IfOk};
ghost use Rattle.cell_store.specs.KeyLists.{rows_at, rows_of};
ghost use Rattle.cell_store.specs.AtRest.{row_of};
ghost use Rattle.cell_store.specs.Calls.{AreOrdered};

use crate::{Cell, Cells};
use stamp_base::{KeyNo, NoMemory};
use std::alloc::Global;
use std::collections::BTreeMap;

/// A version with its key.
#[derive(Clone, Copy, Debug, PartialEq, Eq)]
pub struct Row {
    /// The key.
    pub key: KeyNo,
    /// The version, with its value and shadow.
    pub cell: Cell,
}

impl Cells {
    /// The rows, by rising keys and versions. NoMemory where memory is refused: then the cells are gone.
    pub fn into_rows(self) -> Result<Vec<Row>, NoMemory>
        ensures rows { IfOk result (λ rows. map row_of rows.items ≡ self.rows) }
        ensures ordered { AreOrdered self.rows }
    {
        self.rows.into_rows()
    }
}

/// The rows of all lists, list by list. NoMemory where memory is refused.
pub fn rows_in(alloc: Global, lists: &BTreeMap<KeyNo, Vec<Cell>>) -> Result<Vec<Row>, NoMemory>
    ensures { IfOk result (λ rows. map row_of rows.items ≡ rows_of lists.now.entries) }
{
    let mut rows = Vec::new(alloc);
    for (key, cells) in lists.iter() {
        push_cells(&mut rows, *key, cells)?;
    }
    Ok(rows)
}

/// Adds the rows of a key's cells.
fn push_cells(rows: &mut Vec<Row>, key: KeyNo, cells: &[Cell]) -> Result<(), NoMemory>
    ensures rows { OnOk result (map row_of rows.new.items ≡ map row_of rows.old.items ++ rows_at key cells.now) }
{
    for cell in cells {
        rows.push(Row { key, cell: *cell })?;
    }
    Ok(())
}
