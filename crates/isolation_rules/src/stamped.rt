// The rule on stamps.
ghost use Rattle.std.specs.Prelude.{◌≡◌, ◌<◌, ◌≤◌, length, Decides};
ghost use Rattle.isolation_rules.specs.StampedPairs as stamped;

use history_book::Item;
use stamp_base::Stamp;

/// Whether the items at the two places break the rule.
pub fn breaks_stamped(items: &[Item], first: usize, second: usize) -> bool
    requires { first ≤ second × second < length items.now }
    ensures { Decides result (stamped.BreaksStamped items.now first second) }
{
    if first == second {
        commits_too_low(&items[first])
    } else {
        stamps_meet(&items[first], &items[second])
    }
}

fn commits_too_low(item: &Item) -> bool
    ensures { result ≡ stamped.commits_too_low item.now }
{
    match item {
        Item::Placed { start, commit } => *commit <= *start,
        _ => false,
    }
}

fn stamps_meet(item: &Item, other: &Item) -> bool
    ensures { result ≡ stamped.stamps_meet item.now other.now }
{
    match item {
        Item::Begin { start, .. } => start_meets(*start, other),
        Item::Placed { start, commit } => placed_meets(*start, *commit, other),
        _ => false,
    }
}

fn start_meets(stamp: Stamp, other: &Item) -> bool
    ensures { result ≡ stamped.start_meets stamp other.now }
{
    match other {
        Item::Begin { start, .. } => stamp == *start,
        Item::Placed { commit, .. } => stamp == *commit,
        _ => false,
    }
}

fn placed_meets(start: Stamp, commit: Stamp, other: &Item) -> bool
    ensures { result ≡ stamped.placed_meets start commit other.now }
{
    match other {
        Item::Begin { start: stamp, .. } => commit == *stamp,
        Item::Placed {
            start: other_start,
            commit: other_commit,
        } => start == *other_start || commit == *other_commit,
        _ => false,
    }
}
