// Which items a picture shows.
ghost use Rattle.std.specs.Prelude.{◌≡◌, ◌+◌, ◌≤◌, ◌<◌, ◌++◌, ◌∷◌, [], IfOk, OnOk, IfSome, length, leb, slice_get, if◌then◌else◌};
ghost use Rattle.history_signs.specs.Chosen.{bar_shown, chosen_about, chosen_if, chosen_in, column_of, is_about, is_among, is_kept, is_minor, is_of};
ghost use Rattle.history_signs.specs.Bars.{bar_of};

use crate::bar::{Bar, bar_of};
use history_book::Item;
use stamp_base::{NoMemory, Stamp};
use std::alloc::Global;

/// An item that a picture shows.
#[derive(Clone, Copy)]
pub struct Chosen {
    /// Its number in the history, counted from 1.
    pub number: u64,
    /// The item.
    pub item: Item,
    /// The bar that it opens, to a place of the history, counted from 0.
    pub bar: Option<Bar>,
}

/// So many items from a place on, in order; where the picture is brief, all but those that tell only how a thing was done. NoMemory
/// where memory is refused.
#[tactic(auto, unfolding(crate::specs::Chosen::chosen_below))]
pub fn choose_part(
    alloc: Global,
    items: &[Item],
    from: usize,
    count: usize,
    brief: bool,
) -> Result<Vec<Chosen>, NoMemory>
    requires { from + count ≤ length items.now }
    ensures { IfOk result (λ chosen. chosen.items ≡ chosen_in brief items.now from count) }
{
    let mut chosen = Vec::new(alloc);
    for ahead in 0..count {
        let place = from + ahead;
        let fits = is_kept(brief, &items[place]);
        add_if(&mut chosen, fits, items, place)?;
    }
    Ok(chosen)
}

/// All items of the transactions with these starts, and those of these numbers, in order. NoMemory where memory is refused.
#[tactic(auto, unfolding(crate::specs::Chosen::chosen_below))]
pub fn choose_about(
    alloc: Global,
    items: &[Item],
    starts: &[Stamp],
    numbers: &[u64],
) -> Result<Vec<Chosen>, NoMemory>
    ensures { IfOk result (λ chosen. chosen.items ≡ chosen_about starts.now numbers.now items.now) }
{
    let mut chosen = Vec::new(alloc);
    for place in 0..items.len() {
        let fits = is_about(starts, numbers, place as u64 + 1, &items[place]);
        add_if(&mut chosen, fits, items, place)?;
    }
    Ok(chosen)
}

fn add_if(
    chosen: &mut Vec<Chosen>,
    fits: bool,
    items: &[Item],
    place: usize,
) -> Result<(), NoMemory>
    requires { place < length items.now }
    ensures { OnOk result (IfSome (slice_get items.now place) (λ x. chosen.new.items ≡ chosen.old.items ++ chosen_if fits items.now place x)) }
{
    if fits {
        add(chosen, chosen_of(items, place))?;
    }
    Ok(())
}

fn add(chosen: &mut Vec<Chosen>, one: Chosen) -> Result<(), NoMemory>
    ensures { OnOk result (chosen.new.items ≡ chosen.old.items ++ one ∷ []) }
{
    chosen.extend_from_slice(&[one])?;
    Ok(())
}

fn chosen_of(items: &[Item], place: usize) -> Chosen
    requires { place < length items.now }
    ensures { IfSome (slice_get items.now place) (λ x. result ≡ (record { number = place + 1; item = x; bar = bar_of items.now place x })) }
{
    let item = &items[place];
    Chosen {
        number: place as u64 + 1,
        item: *item,
        bar: bar_of(items, place, item),
    }
}

fn is_kept(brief: bool, item: &Item) -> bool
    ensures { result ≡ is_kept brief item.now }
{
    !(brief && is_minor(item))
}

/// Whether the item tells how a thing was done, and not what became of it.
fn is_minor(item: &Item) -> bool
    ensures { result ≡ is_minor item.now }
{
    match item {
        Item::Step { .. }
        | Item::Note { .. }
        | Item::AskBegin { .. }
        | Item::AskCommit { .. }
        | Item::Accept { .. } => true,
        _ => false,
    }
}

fn is_about(starts: &[Stamp], numbers: &[u64], number: u64, item: &Item) -> bool
    ensures { result ≡ is_about starts.now numbers.now number item.now }
{
    is_of(starts, item) || is_among(number, numbers)
}

/// Whether the item is one of a transaction with such a start.
fn is_of(starts: &[Stamp], item: &Item) -> bool
    ensures { result ≡ is_of starts.now item.now }
{
    match *item {
        Item::Begin { start, .. }
        | Item::Write { start, .. }
        | Item::Read { start, .. }
        | Item::Placed { start, .. }
        | Item::Committed { start, .. }
        | Item::Mark { start, .. }
        | Item::End { start, .. } => is_start(start, starts),
        _ => false,
    }
}

#[tactic(auto, unfolding(crate::specs::Chosen::is_among))]
fn is_start(start: Stamp, starts: &[Stamp]) -> bool
    ensures { result ≡ is_among start starts.now }
{
    for other in starts {
        if *other == start {
            return true;
        }
    }
    false
}

/// Whether the number is one of these.
#[tactic(auto, unfolding(crate::specs::Chosen::is_among))]
pub fn is_among(number: u64, numbers: &[u64]) -> bool
    ensures { result ≡ is_among number numbers.now }
{
    for other in numbers {
        if *other == number {
            return true;
        }
    }
    false
}

/// Where a place of the history, counted from 0, stands in a picture: behind so many signs.
#[tactic(auto, unfolding(crate::specs::Chosen::column_of))]
pub fn column_of(place: usize, chosen: &[Chosen]) -> usize
    ensures column { result ≡ column_of place chosen.now }
    ensures within { result ≤ length chosen.now }
{
    let mut column = 0;
    for other in chosen {
        column += before(other.number, place);
    }
    column
}

/// One for a sign whose item stands before the place.
fn before(number: u64, place: usize) -> usize
    ensures before { result ≡ (if leb number place then 1 else 0) }
    ensures few { result ≤ 1 }
{
    if number <= place as u64 { 1 } else { 0 }
}

/// A bar of the history as it stands in the picture.
pub fn bar_shown(chosen: &[Chosen], bar: Bar) -> Bar
    ensures { result ≡ bar_shown chosen.now bar }
{
    Bar {
        to: column_of(bar.to, chosen),
        kind: bar.kind,
    }
}
