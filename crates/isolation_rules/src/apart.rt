// The rule on commits that overlap.
ghost use Rattle.std.specs.Prelude.{◌≡◌, ◌<◌, ◌≤◌, length, Decides};
ghost use Rattle.std.specs.List.{list_any};
ghost use Rattle.isolation_rules.specs.ApartPairs as apart;

use history_book::Item;
use stamp_base::{KeyNo, Stamp};

/// Whether the items at the two places break the rule.
pub fn breaks_apart(items: &[Item], first: usize, second: usize) -> bool
    requires { first ≤ second × second < length items.now }
    ensures { Decides result (apart.BreaksApart items.now first second) }
{
    first < second && overlapping(items, &items[first], &items[second])
}

fn overlapping(items: &[Item], item: &Item, other: &Item) -> bool
    ensures { Decides result (apart.Overlapping items.now item.now other.now) }
{
    match item {
        Item::Placed { start, commit } => overlaps_placed(items, *start, *commit, other),
        _ => false,
    }
}

fn overlaps_placed(items: &[Item], start: Stamp, commit: Stamp, other: &Item) -> bool
    ensures { Decides result (apart.OverlapsPlaced items.now start commit other.now) }
{
    match other {
        Item::Placed {
            start: other_start,
            commit: other_commit,
        } => overlap(items, start, commit, *other_start, *other_commit),
        _ => false,
    }
}

// The numbers are compared first, since few transactions overlap.
fn overlap(
    items: &[Item],
    start: Stamp,
    commit: Stamp,
    other_start: Stamp,
    other_commit: Stamp,
) -> bool
    ensures { Decides result (apart.Overlap items.now start commit other_start other_commit) }
{
    start != other_start
        && other_start <= commit
        && start <= other_commit
        && share_key(items, start, other_start)
}

fn share_key(items: &[Item], start: Stamp, other: Stamp) -> bool
    ensures { Decides result (apart.ShareKey items.now start other) }
{
    writes_key_of(items, items, start, other)
}

/// Whether one of some items writes for the transaction `start` a key that `other` writes.
fn writes_key_of(items: &[Item], some: &[Item], start: Stamp, other: Stamp) -> bool
    ensures { result ≡ list_any (λ x. apart.writes_shared items.now start other x) some.now }
{
    for item in some {
        if writes_shared(items, start, other, item) {
            return true;
        }
    }
    false
}

fn writes_shared(items: &[Item], start: Stamp, other: Stamp, item: &Item) -> bool
    ensures { result ≡ apart.writes_shared items.now start other item.now }
{
    match item {
        Item::Write {
            start: writer,
            key,
            ..
        } => *writer == start && wrote(items, other, *key),
        _ => false,
    }
}

/// Whether the transaction wrote the key.
pub fn wrote(items: &[Item], start: Stamp, key: KeyNo) -> bool
    ensures { result ≡ list_any (λ x. apart.writes start key x) items.now }
{
    for item in items {
        if writes(start, key, item) {
            return true;
        }
    }
    false
}

fn writes(start: Stamp, key: KeyNo, item: &Item) -> bool
    ensures { result ≡ apart.writes start key item.now }
{
    match item {
        Item::Write {
            start: writer,
            key: written,
            ..
        } => *writer == start && *written == key,
        _ => false,
    }
}
