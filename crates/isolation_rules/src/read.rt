// The rule on reads.
ghost use Rattle.std.specs.Prelude.{◌≡◌, ◌<◌, ℕ, List, length, take, Decides, None, Some, IfSome, option_map};
ghost use Rattle.history_book.specs.declared.item.Item.{Item};
ghost use Rattle.history_book.specs.Isolation as isolation;
ghost use Rattle.isolation_rules.specs.Best.{IsWritten, IsWrong, place_seen};
ghost use Rattle.isolation_rules.specs.Judged.{IsSecond};

use crate::verdict::Rule;
use crate::version::Version;
use crate::views::{Plain, Views};
use history_book::{Found, Item};
use stamp_base::{KeyNo, Stamp, Value};

/// The place of the right answer where the item is a read with a wrong one.
pub fn second_of_read(items: &[Item], first: usize) -> Option<usize>
    requires stamped { isolation.Stamped items.now }
    requires within { first < length items.now }
    ensures second { IsSecond Rule.Read items.now first result }
    ensures within { IfSome result (λ place. place < length items.now) }
{
    let views = Plain {
        items,
        before: &items[..first],
    };
    second_by_views(items, first, &views)
}

/// The place of the right answer where the item at the place `first` is a read with a wrong one, and None at
/// any other item. What a read is judged by is asked of the views.
pub fn second_by_views<V: Views>(items: &[Item], first: usize, views: &V) -> Option<usize>
    requires stamped { isolation.Stamped items.now }
    requires within { first < length items.now }
    requires views { V.tells views.now items.now first }
    ensures second { IsSecond Rule.Read items.now first result }
    ensures within { IfSome result (λ place. place < length items.now) }
{
    match &items[first] {
        Item::Read {
            start,
            key,
            answer,
            ..
        } => wrong_answer(first, *start, *key, *answer, views),
        _ => None,
    }
}

/// The place of the right answer where this one is wrong, at a read by a transaction at the place.
fn wrong_answer<V: Views>(
    first: usize,
    start: Stamp,
    key: KeyNo,
    answer: Option<Found>,
    views: &V,
) -> Option<usize>
    ensures { (h : List Item) → isolation.Stamped h → first < length h → V.tells views.now h first →
        IsWrong h first start key answer (isolation.last_write (take first h) start key) result }
{
    match views.own(start, key) {
        Some(own) => wrong_own(first, own, key, answer, views),
        None => wrong_seen(first, start, key, answer, views),
    }
}

/// The place of the right answer where this one is wrong and the transaction wrote the key before.
fn wrong_own<V: Views>(
    first: usize,
    own: Version,
    key: KeyNo,
    answer: Option<Found>,
    views: &V,
) -> Option<usize>
    ensures { (h : List Item) → isolation.Stamped h → first < length h → V.tells views.now h first →
        IsWritten (take first h) key own → IsWrong h first own.found.from key answer (Some own.found.value) result }
{
    if is_own_right(&own.found, key, answer, views) {
        None
    } else {
        Some(own.place)
    }
}

fn is_own_right<V: Views>(own: &Found, key: KeyNo, answer: Option<Found>, views: &V) -> bool
    ensures { (h : List Item) (i : ℕ) → isolation.Stamped h → V.tells views.now h i →
        Decides result (isolation.RightAnswer h (take i h) own.now.from key answer (Some own.now.value)) }
{
    is_found(&answer, own) || (views.listed(own.from) && sees(own.from, key, answer, views))
}

/// Whether the answer is what a reader with this start sees at the key.
fn sees<V: Views>(start: Stamp, key: KeyNo, answer: Option<Found>, views: &V) -> bool
    ensures { (h : List Item) (i : ℕ) → isolation.Stamped h → V.tells views.now h i →
        Decides result (isolation.Visible h start key answer) }
{
    is_seen(&views.seen(start, key), &answer)
}

/// The place of the right answer where this one is wrong and the transaction did not write the key before.
fn wrong_seen<V: Views>(
    first: usize,
    start: Stamp,
    key: KeyNo,
    answer: Option<Found>,
    views: &V,
) -> Option<usize>
    ensures { (h : List Item) → isolation.Stamped h → first < length h → V.tells views.now h first →
        IsWrong h first start key answer None result }
{
    let seen = views.seen(start, key);
    if is_seen(&seen, &answer) {
        None
    } else {
        Some(place_seen(&seen, first))
    }
}

fn is_seen(seen: &Option<Version>, answer: &Option<Found>) -> bool
    ensures { Decides result (answer.now ≡ option_map (λ version. version.found) seen.now) }
{
    match seen {
        None => answer.is_none(),
        Some(version) => is_found(answer, &version.found),
    }
}

fn is_found(answer: &Option<Found>, found: &Found) -> bool
    ensures { Decides result (answer.now ≡ Some found.now) }
{
    match answer {
        None => false,
        Some(other) => other.from == found.from && is_same_value(&other.value, &found.value),
    }
}

fn is_same_value(value: &Value, other: &Value) -> bool
    ensures { Decides result (value.now ≡ other.now) }
{
    value.as_slice() == other.as_slice()
}

fn place_seen(seen: &Option<Version>, first: usize) -> usize
    ensures { result ≡ place_seen seen.now first }
{
    match seen {
        None => first,
        Some(version) => version.place,
    }
}
