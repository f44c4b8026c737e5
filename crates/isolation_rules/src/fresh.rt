// The rule on starts.
ghost use Rattle.std.specs.Prelude.{◌≡◌, ◌<◌, ◌≤◌, length, Decides, slice_get, IsSomeAnd};
ghost use Rattle.history_book.specs.Isolation as isolation;
ghost use Rattle.isolation_rules.specs.FreshPairs as fresh;

use history_book::Item;
use stamp_base::{SessionNo, Stamp};

/// Whether the items at the two places break the rule.
pub fn breaks_fresh(items: &[Item], first: usize, second: usize) -> bool
    requires { first ≤ second × second < length items.now }
    ensures { Decides result (fresh.BreaksFresh items.now first second) }
{
    is_stale(items, first, &items[first], second)
}

fn is_stale(items: &[Item], first: usize, item: &Item, second: usize) -> bool
    requires { second < length items.now }
    ensures { Decides result (IsSomeAnd (slice_get items.now second)
        (λ y. fresh.IsStale items.now first item.now second y)) }
{
    match item {
        Item::Placed { commit, .. } => is_stale_at(items, first, *commit, second, &items[second]),
        _ => false,
    }
}

// The cheap tests come first: most commits stand after the begin or below its start.
fn is_stale_at(items: &[Item], first: usize, commit: Stamp, second: usize, other: &Item) -> bool
    requires { second ≤ length items.now }
    ensures { Decides result (fresh.IsStaleAt items.now first commit second other.now) }
{
    match other {
        Item::Begin { session, start } => {
            if second <= first || commit < *start {
                return false;
            }
            first < ask_place(&items[..second], *session)
        }
        _ => false,
    }
}

/// The place of the session's last ask for a start, and the length where there is none.
fn ask_place(before: &[Item], session: SessionNo) -> usize
    ensures { result ≡ length (isolation.before_ask session before.now) }
{
    for place in (0..before.len()).rev() {
        if asks(&before[place], session) {
            return place;
        }
    }
    before.len()
}

fn asks(item: &Item, session: SessionNo) -> bool
    ensures { result ≡ isolation.asks session item.now }
{
    match item {
        Item::AskBegin {
            session: asking,
            ..
        } => *asking == session,
        _ => false,
    }
}
