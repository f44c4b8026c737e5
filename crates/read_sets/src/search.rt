// The search for the first read that is crossed.
ghost use Rattle.std.specs.Prelude.{◌<◌, ℕ, length, take, IfSome, MatchOption};
ghost use Rattle.read_sets.specs.Crossings.{IsLeastCrossing, IsSecond, IsSecondOf, Stands};
ghost use Rattle.read_sets.specs.Index.{AreCleared, IsIndexOf};

use crate::cleared::Cleared;
use crate::index::{Index, index_of, may_cross};
use crate::plain::crossing_of;
use history_book::Item;
use isolation_rules::Pair;
use stamp_base::{KeyNo, Stamp};
use std::alloc::Global;

/// The first read that is crossed, with the first placed commit that crosses it.
pub fn first_crossing(alloc: Global, items: &[Item]) -> Option<Pair>
    ensures pair { MatchOption result ((i : ℕ) → i < length items.now → Stands items.now i)
        (λ pair. IsLeastCrossing items.now pair.first pair.second) }
    ensures within { IfSome result (λ pair. pair.first < length items.now × pair.second < length items.now) }
{
    let index = index_of(alloc, items);
    let mut cleared = Cleared::new(alloc);
    for first in 0..items.len() {
        if let Some(second) = second_at(items, &index, &cleared, first) {
            return Some(Pair { first, second });
        }
        cleared.note(&items[first]);
    }
    None
}

/// The first placed commit that crosses the read at the place, and None at any other item.
fn second_at(
    items: &[Item],
    index: &Option<Index>,
    cleared: &Cleared,
    first: usize,
) -> Option<usize>
    requires index { IfSome index.now (λ some. IsIndexOf items.now some) }
    requires cleared { AreCleared items.now (take first items.now) cleared.now }
    requires within { first < length items.now }
    ensures second { IsSecond items.now first result }
    ensures within { IfSome result (λ place. place < length items.now) }
{
    match &items[first] {
        Item::Read { start, key, .. } => {
            second_of_read(items, index, cleared, &items[..first], *start, *key)
        }
        _ => None,
    }
}

/// The first placed commit that crosses a read of the key by the transaction, behind these items.
fn second_of_read(
    items: &[Item],
    index: &Option<Index>,
    cleared: &Cleared,
    before: &[Item],
    start: Stamp,
    key: KeyNo,
) -> Option<usize>
    requires index { IfSome index.now (λ some. IsIndexOf items.now some) }
    requires cleared { AreCleared items.now before.now cleared.now }
    ensures second { IsSecondOf items.now before.now start key result }
    ensures within { IfSome result (λ place. place < length items.now) }
{
    if cleared.has(start, key) {
        return None;
    }
    if may_cross(index, start, key) {
        crossing_of(items, index, before, start, key)
    } else {
        None
    }
}
