// In which way a read is wrong.
ghost use Rattle.std.specs.Prelude.{◌≡◌, ◌<◌, ◌≤◌, IfSome, length, slice_get};
ghost use Rattle.breach_reasons.specs.Kinds.{answer_kind, commit_place, committed_kind, kind_text, placed_kind, read_kind, value_kind, version_kind, write_place, written_kind};

use history_book::{Found, Item};
use refusal_reasons::{Clue, seek};
use stamp_base::{KeyNo, Stamp, TxnId, Value};

/// In which way a read is wrong, by where its answer came from.
#[derive(Clone, Copy)]
pub enum ReadKind {
    /// The transaction had written the key before.
    Own,
    /// There is no such write.
    Unwritten,
    /// The transaction that wrote it never commits.
    Aborted,
    /// That transaction wrote the key again.
    Intermediate,
    /// It was not committed below the start.
    Later,
    /// A newer version was committed below the start.
    Stale,
}

/// The last write of the transaction at the key.
pub fn write_place(items: &[Item], start: TxnId, key: KeyNo) -> Option<usize>
    ensures place { result ≡ write_place items.now start key }
    ensures within { IfSome result (λ place. place < length items.now) }
{
    let start = start.value();
    seek(items, 0, &Clue::Wrote { start, key })
}

/// The commit of the transaction.
pub fn commit_place(items: &[Item], start: TxnId) -> Option<usize>
    ensures place { result ≡ commit_place items.now start }
    ensures within { IfSome result (λ place. place < length items.now) }
{
    let start = start.value();
    seek(items, 0, &Clue::CommitOf { start })
}

/// In which way this answer is wrong to a read of the key at the place, where it is.
pub fn read_kind(
    items: &[Item],
    place: usize,
    start: TxnId,
    key: KeyNo,
    answer: &Option<Found>,
) -> ReadKind
    requires { place ≤ length items.now }
    ensures { result ≡ read_kind items.now place start key answer.now }
{
    match write_place(&items[..place], start, key) {
        Some(_) => ReadKind::Own,
        None => answer_kind(items, start, key, answer),
    }
}

fn answer_kind(items: &[Item], start: TxnId, key: KeyNo, answer: &Option<Found>) -> ReadKind
    ensures { result ≡ answer_kind items.now start key answer.now }
{
    match answer {
        Some(found) => written_kind(items, start, found, write_place(items, found.from, key)),
        None => ReadKind::Stale,
    }
}

fn written_kind(items: &[Item], start: Stamp, found: &Found, write: Option<usize>) -> ReadKind
    requires { IfSome write (λ place. place < length items.now) }
    ensures { result ≡ written_kind items.now start found.now write }
{
    match write {
        Some(write) => committed_kind(items, start, found, write, commit_place(items, found.from)),
        None => ReadKind::Unwritten,
    }
}

fn committed_kind(
    items: &[Item],
    start: Stamp,
    found: &Found,
    write: usize,
    commit: Option<usize>,
) -> ReadKind
    ensures { result ≡ committed_kind items.now start found.now write commit }
{
    match commit {
        Some(commit) => version_kind(items, start, found, write, commit),
        None => ReadKind::Aborted,
    }
}

fn version_kind(
    items: &[Item],
    start: Stamp,
    found: &Found,
    write: usize,
    commit: usize,
) -> ReadKind
    ensures { result ≡ version_kind start found.now (slice_get items.now write) (slice_get items.now commit) }
{
    match items.get(write) {
        Some(Item::Write { value, .. }) => placed_kind(items, start, found, value, commit),
        _ => ReadKind::Stale,
    }
}

fn placed_kind(
    items: &[Item],
    start: Stamp,
    found: &Found,
    value: &Value,
    placed: usize,
) -> ReadKind
    ensures { result ≡ placed_kind start found.now value.now (slice_get items.now placed) }
{
    match items.get(placed) {
        Some(Item::Placed { commit, .. }) => value_kind(start, found, value, *commit),
        _ => ReadKind::Stale,
    }
}

fn value_kind(start: Stamp, found: &Found, value: &Value, commit: Stamp) -> ReadKind
    ensures { result ≡ value_kind start found.now value.now commit }
{
    if value.as_slice() != found.value.as_slice() {
        ReadKind::Intermediate
    } else if start <= commit {
        ReadKind::Later
    } else {
        ReadKind::Stale
    }
}

/// What is said of it.
pub fn words_of(kind: ReadKind) -> &'static [u8]
    ensures { result.now ≡ kind_text kind }
{
    match kind {
        ReadKind::Own => {
            b"its own write is passed over: the transaction had written the key before"
        }
        ReadKind::Unwritten => {
            b"a read of what was never written: no such write of the key stands in the history"
        }
        ReadKind::Aborted => b"an aborted read: the transaction that wrote it never commits",
        ReadKind::Intermediate => {
            b"an intermediate read: the transaction that wrote it wrote the key again"
        }
        ReadKind::Later => b"a later read: what it gives was not committed below its start",
        ReadKind::Stale => b"a stale read: a newer version was committed below its start",
    }
}
