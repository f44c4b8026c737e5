// The cells of one key, in a list that ascends by version.
ghost use Rattle.std.specs.Prelude.{◌≡◌, ℕ, ◌≤◌, [], ◌∷◌, drop, length, reverse, IfOk, IfSome, IsSome, None, OnErr, OnOk};
ghost use Rattle.std.specs.List.{All};
ghost use Rattle.cell_store.specs.KeyLists.{needed_by, rows_at, AreRising, AreLowerBefore, IsPlace};
ghost use Rattle.cell_store.specs.Calls.{put_row, fetched, front_of, looked, with_shadow, without_bare};
ghost use Rattle.system_parts.specs.Rows as rows;

use crate::Cell;
use stamp_base::{NoMemory, Stamp, Value};
use std::alloc::{AllocError, Global};

/// The cells of version at most `upto`. Most often these are all, and no search is needed.
pub fn upto(cells: &[Cell], upto: Stamp) -> &[Cell]
    requires { AreRising cells.now }
    ensures { (k : ℕ) → fetched (rows_at k cells.now) k upto ≡ reverse result.now }
{
    match cells {
        [.., last] if last.version <= upto => cells,
        _ => search_upto(cells, upto),
    }
}

fn search_upto(cells: &[Cell], upto: Stamp) -> &[Cell]
    requires { AreRising cells.now }
    ensures { (k : ℕ) → fetched (rows_at k cells.now) k upto ≡ reverse result.now }
{
    let count = cells.partition_point(|cell| cell.version <= upto);
    &cells[..count]
}

/// The cells from the last one on. AllocError where memory is refused.
pub fn turned(alloc: Global, cells: &[Cell]) -> Result<Vec<Cell>, AllocError>
    ensures { IfOk result (λ turned. turned.items ≡ reverse cells.now) }
{
    let mut turned = Vec::from_slice(alloc, cells)?;
    turned.reverse();
    Ok(turned)
}

/// What a reader with this start needs of the cells; one without a start, all of them.
pub fn needed_by(reader: Option<Stamp>, cells: &[Cell]) -> &[Cell]
    ensures { reverse result.now ≡ needed_by reader (reverse cells.now) }
{
    match reader {
        None => cells,
        Some(start) => front(cells, start),
    }
}

/// The last cells, from the last one whose shadow is below the start on; all of them where there is none.
fn front(cells: &[Cell], start: Stamp) -> &[Cell]
    ensures { reverse result.now ≡ front_of start (reverse cells.now) }
{
    for first in (0..cells.len()).rev() {
        if is_below(cells[first].shadow, start) {
            return &cells[first..];
        }
    }
    cells
}

fn is_below(shadow: Option<Stamp>, start: Stamp) -> bool
    ensures { result ≡ rows.is_below start shadow }
{
    match shadow {
        None => false,
        Some(commit) => commit < start,
    }
}

/// How many cells are of lower versions. Most often the version is the greatest or above it, and needs no search.
fn count_lower(cells: &[Cell], version: Stamp) -> usize
    requires { AreRising cells.now }
    ensures within { result ≤ length cells.now }
    ensures lower { AreLowerBefore cells.now version result }
    ensures higher { All (λ c. version ≤ c.version) (drop result cells.now) }
{
    match cells {
        [.., last] if last.version < version => cells.len(),
        [.., last] if last.version == version => cells.len() - 1,
        _ => search_lower(cells, version),
    }
}

fn search_lower(cells: &[Cell], version: Stamp) -> usize
    requires { AreRising cells.now }
    ensures within { result ≤ length cells.now }
    ensures lower { AreLowerBefore cells.now version result }
    ensures higher { All (λ c. version ≤ c.version) (drop result cells.now) }
{
    cells.partition_point(|cell| cell.version < version)
}

/// Where the cell of the version stands.
fn place_of(cells: &[Cell], version: Stamp) -> Option<usize>
    requires { AreRising cells.now }
    ensures place { IfSome result (IsPlace cells.now version) }
    ensures none { (k : ℕ) → result ≡ None → looked (rows_at k cells.now) k version ≡ None }
{
    let at = count_lower(cells, version);
    if at < cells.len() && cells[at].version == version {
        Some(at)
    } else {
        None
    }
}

/// The cell of the version.
pub fn cell_of(cells: &[Cell], version: Stamp) -> Option<Cell>
    requires { AreRising cells.now }
    ensures { (k : ℕ) → result ≡ looked (rows_at k cells.now) k version }
{
    match place_of(cells, version) {
        Some(at) => Some(cells[at]),
        None => None,
    }
}

/// The list of one bare cell. NoMemory where memory is refused.
pub fn of_one(alloc: Global, version: Stamp, value: Value) -> Result<Vec<Cell>, NoMemory>
    ensures { IfOk result (λ cells. cells.items ≡ rows.bare_cell version value ∷ []) }
{
    Ok(Vec::from_slice(alloc, &[bare(version, value)])?)
}

fn bare(version: Stamp, value: Value) -> Cell
    ensures { result ≡ rows.bare_cell version value }
{
    Cell {
        version,
        value,
        shadow: None,
    }
}

/// Adds a bare cell of a version that has none. NoMemory where memory is refused, and then the list is as before.
pub fn enter(cells: &mut Vec<Cell>, version: Stamp, value: Value) -> Result<(), NoMemory>
    requires { AreRising cells.old.items }
    ensures ok { OnOk result ((k : ℕ) → looked (rows_at k cells.old.items) k version ≡ None →
        rows_at k cells.new.items ≡ put_row (rows_at k cells.old.items) k version value) }
    ensures err { OnErr result (cells.new.items ≡ cells.old.items) }
{
    let at = count_lower(cells, version);
    cells.insert(at, bare(version, value))?;
    Ok(())
}

/// Replaces the value of the cell that is there.
pub fn replace_value(cells: &mut Vec<Cell>, version: Stamp, value: Value)
    requires { AreRising cells.old.items }
    ensures { (k : ℕ) → IsSome (looked (rows_at k cells.old.items) k version) →
        rows_at k cells.new.items ≡ put_row (rows_at k cells.old.items) k version value }
{
    if let Some(at) = place_of(cells, version) {
        cells[at].value = value;
    }
}

/// Sets the shadow of the cell that is there.
pub fn fill_shadow(cells: &mut Vec<Cell>, version: Stamp, commit: Stamp)
    requires { AreRising cells.old.items }
    ensures { (k : ℕ) → rows_at k cells.new.items ≡ with_shadow (rows_at k cells.old.items) k version commit }
{
    if let Some(at) = place_of(cells, version) {
        cells[at].shadow = Some(commit);
    }
}

/// Removes the cell where it has no shadow.
pub fn remove_bare(cells: &mut Vec<Cell>, version: Stamp)
    requires { AreRising cells.old.items }
    ensures { (k : ℕ) → rows_at k cells.new.items ≡ without_bare (rows_at k cells.old.items) k version }
{
    if let Some(at) = place_of(cells, version) {
        if cells[at].shadow.is_none() {
            cells.remove(at);
        }
    }
}
