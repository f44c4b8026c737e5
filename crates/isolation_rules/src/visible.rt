// What a reader sees of the versions of a key.
ghost use Rattle.std.specs.Prelude.{◌≡◌, ◌∷◌, ◌++◌, [], List, Decides, IfSome, option_map, Some};
ghost use Rattle.std.specs.List.{list_any};
ghost use Rattle.history_book.specs.declared.item.Item.{Item};
ghost use Rattle.history_book.specs.Isolation as isolation;
ghost use Rattle.isolation_rules.specs.Best.{BestOf, IsLater, IsReplaced, IsWritten, Sees, lists, lists_keys};

use crate::version::{Best, Version};
use history_book::{Found, Item, StoreStep};
use stamp_base::{KeyNo, Stamp, TxnId, Value};

/// The last write of the transaction at the key.
pub fn last_write(items: &[Item], start: Stamp, key: KeyNo) -> Option<Version>
    ensures value { isolation.last_write items.now start key ≡ option_map (λ version. version.found.value) result }
    ensures from { IfSome result (λ version. version.found.from ≡ start) }
    ensures place { IfSome result (λ version. IsWritten items.now key version) }
{
    for place in (0..items.len()).rev() {
        if let Some(value) = written_by(&items[place], start, key) {
            let found = Found { from: start, value };
            return Some(Version { place, found });
        }
    }
    None
}

fn written_by(item: &Item, start: Stamp, key: KeyNo) -> Option<Value>
    ensures { result ≡ isolation.written_by start key item.now }
{
    match item {
        Item::Write {
            start: writer,
            key: written,
            value,
            ..
        } => {
            if *writer == start && *written == key {
                Some(*value)
            } else {
                None
            }
        }
        _ => None,
    }
}

/// The newest version that a reader with this start sees at the key.
pub fn visible(items: &[Item], start: Stamp, key: KeyNo) -> Option<Version>
    ensures { Sees items.now start key result }
{
    version_of(newest(items, start, key))
}

fn version_of(best: Option<Best>) -> Option<Version>
    ensures { result ≡ option_map (λ best. best.version) best }
{
    match best {
        None => None,
        Some(held) => Some(held.version),
    }
}

fn newest(items: &[Item], start: Stamp, key: KeyNo) -> Option<Best>
    ensures { BestOf items.now start key items.now result }
{
    let mut best: Option<Best> = None;
    for item in items {
        best = better(items, start, key, &best, item);
    }
    best
}

/// Whether a commit is below the start, and above the best so far.
fn is_later(commit: Stamp, start: Stamp, best: &Option<Best>) -> bool
    ensures { Decides result (IsLater commit start best.now) }
{
    match best {
        None => commit < start,
        Some(held) => commit < start && held.commit < commit,
    }
}

/// The transaction's version where it wrote the key, and else the best so far.
fn replaced(
    items: &[Item],
    txn: TxnId,
    commit: Stamp,
    key: KeyNo,
    best: &Option<Best>,
) -> Option<Best>
    ensures { IsReplaced items.now txn commit key best.now result }
{
    match last_write(items, txn, key) {
        None => *best,
        Some(version) => Some(Best { commit, version }),
    }
}

/// The best so far, and then the item.
fn better(
    items: &[Item],
    start: Stamp,
    key: KeyNo,
    best: &Option<Best>,
    item: &Item,
) -> Option<Best>
    ensures { (part : List Item) → BestOf items.now start key part best.now →
        BestOf items.now start key (part ++ item.now ∷ []) result }
{
    match item {
        Item::Placed { start: txn, commit } => {
            if is_later(*commit, start, best) {
                replaced(items, *txn, *commit, key, best)
            } else {
                *best
            }
        }
        _ => *best,
    }
}

/// Whether the transaction's keys were listed.
pub fn was_listed(items: &[Item], txn: TxnId) -> bool
    ensures { Decides result (isolation.WasListed items.now txn) }
{
    any_lists(items, txn)
}

fn any_lists(items: &[Item], txn: TxnId) -> bool
    ensures { result ≡ list_any (λ x. lists txn x) items.now }
{
    for item in items {
        if lists(txn, item) {
            return true;
        }
    }
    false
}

fn lists(txn: TxnId, item: &Item) -> bool
    ensures { result ≡ lists txn item.now }
{
    match item {
        Item::Step { what, .. } => lists_keys(txn, what),
        _ => false,
    }
}

fn lists_keys(txn: TxnId, what: &StoreStep) -> bool
    ensures { result ≡ lists_keys txn what.now }
{
    match what {
        StoreStep::Keys { txn: listed, .. } => txn == *listed,
        _ => false,
    }
}
