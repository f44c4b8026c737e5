// The begin that a commit makes stale, where the commit is known.
ghost use Rattle.std.specs.Prelude.{◌≡◌, ◌<◌, ◌∷◌, ◌++◌, [], List, length, take, Decides, IfSome};
ghost use Rattle.history_book.specs.declared.item.Item.{Item};
ghost use Rattle.isolation_rules.specs.FreshPairs.{ask_place, IsStale, IsStaleAt};
ghost use Rattle.isolation_rules.specs.Judged.{IsSecond};
ghost use Rattle.si_judge.specs.AskStarts.{AreLastAsks};

use crate::ask_index::place_of;
use history_book::Item;
use isolation_rules::Rule;
use stamp_base::{SessionNo, Stamp};

/// The first place that breaks the rule on starts together with the place `first`. With n items it takes a time in
/// proportion to n, and no memory besides a place for each session.
pub fn second_begin(items: &[Item], first: usize) -> Option<usize>
    requires within { first < length items.now }
    ensures second { IsSecond Rule.Fresh items.now first result }
    ensures within { IfSome result (λ place. place < length items.now) }
{
    let mut asks = LastAsks::new();
    for second in 0..items.len() {
        if is_stale(first, &items[first], second, &items[second], &asks) {
            return Some(second);
        }
        asks.pass(&items[second], second);
    }
    None
}

fn is_stale(first: usize, item: &Item, second: usize, other: &Item, asks: &LastAsks) -> bool
    ensures { (h : List Item) → second < length h → AreLastAsks (take second h) asks.now.places →
        Decides result (IsStale h first item.now second other.now) }
{
    match item {
        Item::Placed { commit, .. } => is_stale_at(first, *commit, second, other, asks),
        _ => false,
    }
}

fn is_stale_at(first: usize, commit: Stamp, second: usize, other: &Item, asks: &LastAsks) -> bool
    ensures { (h : List Item) → second < length h → AreLastAsks (take second h) asks.now.places →
        Decides result (IsStaleAt h first commit second other.now) }
{
    match other {
        Item::Begin { session, start } => {
            let ask = asks.of(*session, second);
            first < ask && *start <= commit
        }
        _ => false,
    }
}

/// The place of each session's last ask, of the items passed so far.
#[derive(Drop)]
struct LastAsks {
    places: [Option<usize>; 16],
}

impl LastAsks {
    /// Of no items.
    fn new() -> LastAsks
        ensures { AreLastAsks [] result.places }
    {
        LastAsks { places: [None; 16] }
    }

    /// Passes the item, which stands at the place.
    fn pass(&mut self, item: &Item, place: usize)
        ensures { (before : List Item) → length before ≡ place → AreLastAsks before self.old.places →
            AreLastAsks (before ++ item.now ∷ []) self.new.places }
    {
        match item {
            Item::AskBegin { session, .. } => self.places[place_of(*session)] = Some(place),
            _ => {}
        }
    }

    /// The place of the ask of the session's begin at the place, and that place itself where the session asked for none.
    fn of(&self, session: SessionNo, place: usize) -> usize
        ensures { (h : List Item) → place < length h → AreLastAsks (take place h) self.now.places → result ≡ ask_place h session place }
    {
        self.places[place_of(session)].unwrap_or(place)
    }
}
