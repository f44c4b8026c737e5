// The bars that go on in a picture: items before its first one open them.
ghost use Rattle.std.specs.Prelude.{◌≡◌, ◌<◌, ◌≤◌, ◌++◌, ◌∷◌, [], suc, Some, IfOk, IfSome, OnOk, length, slice_get};
ghost use Rattle.history_signs.specs.Earlier.{earlier_bars, earlier_below, goes_on, optional};
ghost use Rattle.history_signs.specs.Bars.{bar_of};
ghost use Rattle.history_signs.specs.Chosen.{is_among};

use crate::bar::{Bar, bar_of};
use crate::chosen::{Chosen, bar_shown};
use crate::lane::{lane_of, row_of};
use history_book::Item;
use stamp_base::NoMemory;
use std::alloc::Global;

/// A bar that goes on in a picture.
#[derive(Clone, Copy)]
pub struct EarlierBar {
    /// The item before the picture's first that opens it.
    pub opener: Item,
    /// Its row, counted from the top.
    pub row: usize,
    /// Where it ends in the picture, and how.
    pub bar: Bar,
}

/// The bars that items before a place open and that end there or behind it, in order, where their lanes are among these. The
/// picture shows the chosen items, none of which stands before the place. NoMemory where memory is refused.
#[tactic(auto, unfolding(crate::specs::Earlier::earlier_below))]
pub fn earlier_bars(
    alloc: Global,
    lanes: &[usize],
    chosen: &[Chosen],
    items: &[Item],
    from: usize,
) -> Result<Vec<EarlierBar>, NoMemory>
    requires { from ≤ length items.now }
    ensures { IfOk result (λ bars. bars.items ≡ earlier_bars lanes.now chosen.now from items.now) }
{
    let mut bars = Vec::new(alloc);
    for place in 0..from {
        let found = earlier_at(lanes, chosen, items, from, place);
        add_found(&mut bars, found)?;
    }
    Ok(bars)
}

fn add_found(bars: &mut Vec<EarlierBar>, found: Option<EarlierBar>) -> Result<(), NoMemory>
    ensures { OnOk result (bars.new.items ≡ bars.old.items ++ optional found) }
{
    match found {
        Some(bar) => add_bar(bars, bar),
        None => Ok(()),
    }
}

fn add_bar(bars: &mut Vec<EarlierBar>, bar: EarlierBar) -> Result<(), NoMemory>
    ensures { OnOk result (bars.new.items ≡ bars.old.items ++ bar ∷ []) }
{
    bars.extend_from_slice(&[bar])?;
    Ok(())
}

/// The bar that the item at the place before the picture opens, where it goes on in it.
fn earlier_at(
    lanes: &[usize],
    chosen: &[Chosen],
    items: &[Item],
    from: usize,
    place: usize,
) -> Option<EarlierBar>
    requires { place < length items.now }
    ensures { IfSome (slice_get items.now place) (λ opener. result ≡ goes_on lanes.now chosen.now from opener (bar_of items.now place opener)) }
{
    let opener = &items[place];
    going_on(lanes, chosen, from, opener, bar_of(items, place, opener))
}

/// The bar, which the opener opens before the place, as it goes on in the picture, if it does.
fn going_on(
    lanes: &[usize],
    chosen: &[Chosen],
    from: usize,
    opener: &Item,
    bar: Option<Bar>,
) -> Option<EarlierBar>
    ensures { result ≡ goes_on lanes.now chosen.now from opener.now bar }
{
    let bar = bar?;
    if from <= bar.to && is_lane(lane_of(opener), lanes) {
        Some(EarlierBar {
            opener: *opener,
            row: row_of(lane_of(opener), lanes),
            bar: bar_shown(chosen, bar),
        })
    } else {
        None
    }
}

#[tactic(auto, unfolding(crate::specs::Chosen::is_among))]
fn is_lane(lane: usize, lanes: &[usize]) -> bool
    ensures { result ≡ is_among lane lanes.now }
{
    for other in lanes {
        if *other == lane {
            return true;
        }
    }
    false
}
