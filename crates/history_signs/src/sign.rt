// The signs of a picture.
ghost use Rattle.std.specs.Prelude.{◌≡◌, ◌<◌, ◌≤◌, ◌++◌, ◌∷◌, [], IfOk, OnOk, MatchOption, IfSome, Some, length, slice_get};
ghost use Rattle.history_signs.specs.Signs.{AreSigns, IsLink, IsSign, NoneShows, optional_bar};

use crate::bar::Bar;
use crate::chosen::{Chosen, bar_shown, is_among};
use crate::lane::{lane_of, row_of};
use crate::shown::is_shown_by;
use history_book::Item;
use stamp_base::NoMemory;
use std::alloc::Global;

/// An earlier sign, by its column and its row.
#[derive(Clone, Copy)]
pub struct Link {
    /// Its column, from 0.
    pub column: usize,
    /// Its row, counted from the top.
    pub row: usize,
}

/// What is drawn for an item.
#[derive(Clone, Copy)]
pub struct Sign {
    /// The item.
    pub item: Item,
    /// The item's number in the history, counted from 1.
    pub number: u64,
    /// Its row, counted from the top.
    pub row: usize,
    /// The bar that it opens, to its last column.
    pub bar: Option<Bar>,
    /// The last sign before it that shows it.
    pub link: Option<Link>,
    /// Whether a ring is drawn around it.
    pub ringed: bool,
}

/// The signs of the chosen items, one for each, in order. Lanes are numbered from the top. The items of these numbers are ringed.
/// NoMemory where memory is refused.
pub fn signs_of(
    alloc: Global,
    lanes: &[usize],
    ringed: &[u64],
    chosen: &[Chosen],
) -> Result<Vec<Sign>, NoMemory>
    ensures { IfOk result (λ signs. AreSigns lanes.now ringed.now chosen.now signs.items) }
{
    let mut signs = Vec::new(alloc);
    for column in 0..chosen.len() {
        add_sign(&mut signs, sign_at(lanes, ringed, chosen, column))?;
    }
    Ok(signs)
}

fn add_sign(signs: &mut Vec<Sign>, sign: Sign) -> Result<(), NoMemory>
    ensures { OnOk result (signs.new.items ≡ signs.old.items ++ sign ∷ []) }
{
    signs.extend_from_slice(&[sign])?;
    Ok(())
}

fn sign_at(lanes: &[usize], ringed: &[u64], chosen: &[Chosen], column: usize) -> Sign
    requires { column < length chosen.now }
    ensures sign { IfSome (slice_get chosen.now column) (λ x. IsSign lanes.now ringed.now chosen.now column x result) }
{
    let one = &chosen[column];
    Sign {
        item: one.item,
        number: one.number,
        row: row_of(lane_of(&one.item), lanes),
        bar: shown_bar(chosen, one.bar),
        link: link_of(lanes, chosen, column, &one.item),
        ringed: is_among(one.number, ringed),
    }
}

fn shown_bar(chosen: &[Chosen], bar: Option<Bar>) -> Option<Bar>
    ensures { result ≡ optional_bar chosen.now bar }
{
    match bar {
        Some(bar) => Some(bar_shown(chosen, bar)),
        None => None,
    }
}

/// The last sign before the column that shows the item.
fn link_of(lanes: &[usize], chosen: &[Chosen], column: usize, item: &Item) -> Option<Link>
    requires { column ≤ length chosen.now }
    ensures { MatchOption result (NoneShows chosen.now item.now 0 column) (IsLink lanes.now chosen.now column item.now) }
{
    let mut rest = column;
    while rest > 0 {
        let earlier = &chosen[rest - 1].item;
        if is_shown_by(item, earlier) {
            return Some(Link {
                column: rest - 1,
                row: row_of(lane_of(earlier), lanes),
            });
        }
        rest -= 1;
    }
    None
}
