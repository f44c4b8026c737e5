// Which rows a compaction keeps.
ghost use Rattle.std.specs.Prelude.{◌≡◌, ◌++◌, [], ◌∷◌, if◌then◌else◌, map, IfOk, OnOk};
ghost use Rattle.system_parts.specs.Rows.{AreOrdered};
ghost use Rattle.cell_store.specs.AtRest.{row_of};
ghost use Rattle.cell_compaction.specs.Rest.{commit_in, commit_of, is_latest, kept_of, latest_in, stays_by, with_commits};

use crate::latest::{Latest, latest_of};
use cell_store::{Cell, Row};
use commit_table::Table;
use stamp_base::{KeyNo, Mark, NoMemory, Stamp};
use std::alloc::Global;

/// Each row with its commit as shadow. NoMemory where memory is refused.
pub fn with_commits(alloc: Global, rows: &[Row], table: &Table) -> Result<Vec<Row>, NoMemory>
    ensures { IfOk result (λ filled. map row_of filled.items ≡ with_commits table.now.pairs (map row_of rows.now)) }
{
    let mut filled = Vec::new(alloc);
    for row in rows {
        filled.push(Row {
            key: row.key,
            cell: Cell {
                shadow: commit_of(row, table),
                ..row.cell
            },
        })?;
    }
    Ok(filled)
}

/// The row's shadow, or the commit that the table has.
fn commit_of(row: &Row, table: &Table) -> Option<Stamp>
    ensures { result ≡ commit_of table.now.pairs (row_of row.now) }
{
    match row.cell.shadow {
        Some(commit) => Some(commit),
        None => commit_in(&table.mark_of(row.cell.version)),
    }
}

fn commit_in(found: &Option<Mark>) -> Option<Stamp>
    ensures { result ≡ commit_in found.now }
{
    match found {
        Some(Mark::Committed(commit)) => Some(*commit),
        Some(Mark::Invalid) | None => None,
    }
}

/// The rows that stay, of rows with their commits. NoMemory where memory is refused.
pub fn kept(alloc: Global, rows: &[Row], water: Stamp) -> Result<Vec<Row>, NoMemory>
    requires { AreOrdered (map row_of rows.now) }
    ensures { IfOk result (λ kept. map row_of kept.items ≡ kept_of (map row_of rows.now) water (map row_of rows.now)) }
{
    let mut kept = Vec::new(alloc);
    // A key's rows stand together, so that what a reader finds at the water is looked for once a key.
    let mut found = Found::at(rows, water, KeyNo::FIRST);
    for row in rows {
        found = found.moved(rows, water, row.key);
        push_if(&mut kept, row, stays(row, water, &found.latest))?;
    }
    Ok(kept)
}

/// Adds a copy of the element where it is wanted.
fn push_if<T: Copy>(list: &mut Vec<T>, element: &T, wanted: bool) -> Result<(), NoMemory>
    ensures { OnOk result (list.new.items ≡ (if wanted then list.old.items ++ element.now ∷ [] else list.old.items)) }
{
    if wanted {
        list.push(*element)?;
    }
    Ok(())
}

/// What a reader at the water finds at a key.
#[derive(Drop)]
struct Found {
    key: KeyNo,
    latest: Option<Latest>,
}

impl Found {
    fn at(rows: &[Row], water: Stamp, key: KeyNo) -> Found
        requires { AreOrdered (map row_of rows.now) }
        ensures key { result.key ≡ key }
        ensures latest { result.latest ≡ latest_in (map row_of rows.now) water key }
    {
        Found {
            key,
            latest: latest_of(rows, water, key),
        }
    }

    /// What it finds at this key, which most often is the same.
    fn moved(self, rows: &[Row], water: Stamp, key: KeyNo) -> Found
        requires ordered { AreOrdered (map row_of rows.now) }
        requires found { self.latest ≡ latest_in (map row_of rows.now) water self.key }
        ensures key { result.key ≡ key }
        ensures latest { result.latest ≡ latest_in (map row_of rows.now) water key }
    {
        if self.key == key {
            self
        } else {
            Found::at(rows, water, key)
        }
    }
}

fn stays(row: &Row, water: Stamp, latest: &Option<Latest>) -> bool
    ensures { result ≡ stays_by water (row_of row.now) row.now.cell.shadow latest.now }
{
    match row.cell.shadow {
        Some(commit) => water <= commit || is_latest(row, commit, latest),
        None => water <= row.cell.version,
    }
}

fn is_latest(row: &Row, commit: Stamp, latest: &Option<Latest>) -> bool
    ensures { result ≡ is_latest commit row.now.cell.version latest.now }
{
    match latest {
        Some(latest) => latest.commit == commit && latest.version == row.cell.version,
        None => false,
    }
}
