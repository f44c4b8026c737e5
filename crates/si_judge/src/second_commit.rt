// The second of two commits that overlap, where the first is known.
ghost use Rattle.std.specs.Prelude.{◌≡◌, ◌≢◌, ◌<◌, ◌≤◌, ℕ, List, length, slice_get, Some, Decides, IfOk, IfSome};
ghost use Rattle.history_book.specs.declared.item.Item.{Item};
ghost use Rattle.isolation_rules.specs.ApartPairs.{OverlapsPlaced};
ghost use Rattle.isolation_rules.specs.Judged.{IsSecond};
ghost use Rattle.si_judge.specs.Sharers.{HasSharers};

use crate::sharers::Sharers;
use history_book::Item;
use isolation_rules::Rule;
use stamp_base::{NoMemory, Stamp};
use std::alloc::Global;

/// The first place that breaks the rule on commits together with the place `first`. With n items it takes a time in proportion to
/// n, and memory for each transaction that wrote one of the keys. NoMemory where that is refused.
pub fn second_commit(alloc: Global, items: &[Item], first: usize) -> Result<Option<usize>, NoMemory>
    requires within { first < length items.now }
    ensures second { IfOk result (λ found. IsSecond Rule.Apart items.now first found) }
    ensures within { IfOk result (λ found. IfSome found (λ place. place < length items.now)) }
{
    match &items[first] {
        Item::Placed { start, commit } => {
            let sharers = Sharers::of(alloc, items, *start)?;
            Ok(first_overlap(items, first, *start, *commit, &sharers))
        }
        _ => Ok(None),
    }
}

/// The first commit behind the place that overlaps the one there.
fn first_overlap(
    items: &[Item],
    first: usize,
    start: Stamp,
    commit: Stamp,
    sharers: &Sharers,
) -> Option<usize>
    requires placed { slice_get items.now first ≡ Some (Item.Placed start commit) }
    requires sharers { HasSharers items.now start items.now sharers.now.starts }
    ensures second { IsSecond Rule.Apart items.now first result }
    ensures within { IfSome result (λ place. place < length items.now) }
{
    for second in first + 1..items.len() {
        if overlaps(start, commit, sharers, &items[second]) {
            return Some(second);
        }
    }
    None
}

fn overlaps(start: Stamp, commit: Stamp, sharers: &Sharers, item: &Item) -> bool
    ensures { (h : List Item) → HasSharers h start h sharers.now.starts → Decides result (OverlapsPlaced h start commit item.now) }
{
    match item {
        Item::Placed {
            start: other,
            commit: end,
        } => meet(start, commit, *other, *end) && sharers.has(*other),
        _ => false,
    }
}

/// Whether two transactions are different, and neither commit is below the other's start.
fn meet(start: Stamp, commit: Stamp, other: Stamp, end: Stamp) -> bool
    ensures { Decides result ((start ≢ other) × (other ≤ commit) × (start ≤ end)) }
{
    start != other && other <= commit && start <= end
}
