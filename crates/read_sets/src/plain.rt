// The plain walk over placed commits, which names the one that crosses a read.
ghost use Rattle.std.specs.Prelude.{◌≡◌, ◌<◌, ◌∷◌, ◌++◌, ℕ, [], List, length, Decides, IfSome, MatchOption};
ghost use Rattle.std.specs.List.{list_any};
ghost use Rattle.history_book.specs.declared.item.Item.{Item};
ghost use Rattle.isolation_rules.specs.ApartPairs.{writes};
ghost use Rattle.read_sets.specs.Crossings.{CrossesAt, CrossesUpTo, IsGreater, IsLastOf, IsSecondOf};
ghost use Rattle.read_sets.specs.Index.{IsIndexOf};

use crate::index::{Index, may_write};
use history_book::Item;
use isolation_rules::wrote;
use stamp_base::{KeyNo, Stamp};

/// The first placed commit that crosses a read of the key by the transaction, behind these items.
pub fn crossing_of(
    items: &[Item],
    index: &Option<Index>,
    before: &[Item],
    start: Stamp,
    key: KeyNo,
) -> Option<usize>
    requires { IfSome index.now (λ some. IsIndexOf items.now some) }
    ensures second { IsSecondOf items.now before.now start key result }
    ensures within { IfSome result (λ place. place < length items.now) }
{
    if wrote(before, start, key) {
        return None;
    }
    match last_commit(items, start) {
        None => None,
        Some(last) => first_between(items, index, start, key, last),
    }
}

/// The greatest commit of the transaction.
fn last_commit(items: &[Item], start: Stamp) -> Option<Stamp>
    ensures { IsLastOf items.now start result }
{
    let mut last: Option<Stamp> = None;
    for item in items {
        last = later(last, start, item);
    }
    last
}

/// The greatest so far, and then the item.
fn later(last: Option<Stamp>, start: Stamp, item: &Item) -> Option<Stamp>
    ensures { (part : List Item) → IsLastOf part start last → IsLastOf (part ++ item.now ∷ []) start result }
{
    match item {
        Item::Placed { start: txn, commit } => {
            if *txn == start {
                greater(last, *commit)
            } else {
                last
            }
        }
        _ => last,
    }
}

fn greater(last: Option<Stamp>, commit: Stamp) -> Option<Stamp>
    ensures { IsGreater last commit result }
{
    match last {
        None => Some(commit),
        Some(held) => { if held < commit { Some(commit) } else { last } }
    }
}

/// The first placed commit of another transaction between the two stamps that wrote the key.
fn first_between(
    items: &[Item],
    index: &Option<Index>,
    start: Stamp,
    key: KeyNo,
    last: Stamp,
) -> Option<usize>
    requires { IfSome index.now (λ some. IsIndexOf items.now some) }
    ensures first { MatchOption result ((q : ℕ) → CrossesAt items.now start key last q → ⊥)
        (λ place. CrossesAt items.now start key last place × ((q : ℕ) → q < place → CrossesAt items.now start key last q → ⊥)) }
    ensures within { IfSome result (λ place. place < length items.now) }
{
    for place in 0..items.len() {
        if crosses(items, index, start, key, last, &items[place]) {
            return Some(place);
        }
    }
    None
}

fn crosses(
    items: &[Item],
    index: &Option<Index>,
    start: Stamp,
    key: KeyNo,
    last: Stamp,
    item: &Item,
) -> bool
    requires { IfSome index.now (λ some. IsIndexOf items.now some) }
    ensures { Decides result (CrossesUpTo items.now start key last item.now) }
{
    match item {
        Item::Placed { start: txn, commit } => {
            *txn != start && start < *commit && *commit < last && wrote_key(items, index, *txn, key)
        }
        _ => false,
    }
}

/// Whether the transaction wrote the key, which is looked up before it is walked for.
fn wrote_key(items: &[Item], index: &Option<Index>, txn: Stamp, key: KeyNo) -> bool
    requires { IfSome index.now (λ some. IsIndexOf items.now some) }
    ensures { result ≡ list_any (λ x. writes txn key x) items.now }
{
    may_write(index, txn, key) && wrote(items, txn, key)
}
