// The latest version of a key that a reader finds in rows.
ghost use Rattle.std.specs.Prelude.{◌≡◌, ◌<◌, ◌≤◌, drop, take, map, length};
ghost use Rattle.std.specs.List.{All};
ghost use Rattle.system_parts.specs.Rows.{AreOrdered};
ghost use Rattle.cell_store.specs.AtRest.{row_of};
ghost use Rattle.cell_compaction.specs.Rest.{commit_below, is_later, latest_in, later_of, with_row};

use cell_store::Row;
use stamp_base::{KeyNo, Stamp, TxnId, Value};

/// A row of a key that a reader finds, with its commit.
#[derive(Clone, Copy, Debug, PartialEq, Eq)]
pub struct Latest {
    /// The commit of the transaction that wrote it.
    pub commit: Stamp,
    /// The transaction that wrote it, by its start.
    pub version: TxnId,
    /// What it wrote.
    pub value: Value,
}

/// The newest of the key's rows that were committed below the start. It costs a search by halves and a look at
/// each row of the key.
pub fn latest_of(rows: &[Row], start: Stamp, key: KeyNo) -> Option<Latest>
    requires { AreOrdered (map row_of rows.now) }
    ensures { result ≡ latest_in (map row_of rows.now) start key }
{
    let mut latest = None;
    for i in (0..end_of(rows, key)).rev() {
        if rows[i].key != key {
            return latest;
        }
        latest = with(&rows[i], start, latest);
    }
    latest
}

/// Where the rows of the key end.
fn end_of(rows: &[Row], key: KeyNo) -> usize
    requires { AreOrdered (map row_of rows.now) }
    ensures within { result ≤ length rows.now }
    ensures upto { All (λ r. r.key ≤ key) (take result rows.now) }
    ensures above { All (λ r. key < r.key) (drop result rows.now) }
{
    rows.partition_point(|row| row.key <= key)
}

/// The later of the two, where the row has a commit below the start.
fn with(row: &Row, start: Stamp, latest: Option<Latest>) -> Option<Latest>
    ensures { result ≡ with_row row.now.key (row_of row.now) (commit_below start row.now.cell.shadow) latest }
{
    match below(start, row.cell.shadow) {
        Some(commit) => later(row, commit, latest),
        None => latest,
    }
}

fn below(start: Stamp, commit: Option<Stamp>) -> Option<Stamp>
    ensures { result ≡ commit_below start commit }
{
    match commit {
        Some(commit) if commit < start => Some(commit),
        _ => None,
    }
}

fn later(row: &Row, commit: Stamp, latest: Option<Latest>) -> Option<Latest>
    ensures { result ≡ later_of (row_of row.now) commit latest }
{
    match latest {
        Some(other) if !is_later(commit, row.cell.version, &other) => Some(other),
        _ => Some(Latest {
            commit,
            version: row.cell.version,
            value: row.cell.value,
        }),
    }
}

fn is_later(commit: Stamp, version: TxnId, other: &Latest) -> bool
    ensures { result ≡ is_later commit version other.now }
{
    (other.commit, other.version) < (commit, version)
}
