// The last item that is what a clue asks for.
ghost use Rattle.std.specs.Prelude.{◌≡◌, ◌<◌, ◌≤◌, ◌^◌, suc, IfSome, is_some, length, drop};
ghost use Rattle.refusal_reasons.specs.declared.clue.Clue.TheVariants as clue;
ghost use Rattle.refusal_reasons.specs.Clues as clues;
ghost use Rattle.refusal_reasons.specs.Showing.{is_rival, last_take_at, rival};
ghost use Rattle.refusal_reasons.specs.Sought as sought;

use crate::clue::{Clue, fits};
use history_book::Item;
use stamp_base::{KeyNo, TxnId};

/// The last place, from one on, whose item is what the clue asks for.
#[tactic(auto, unfolding(crate::specs::Sought::last_in), using(crate::proofs::SeekLemmas::last_in_more))]
pub fn seek(items: &[Item], from: usize, clue: &Clue) -> Option<usize>
    requires { from ≤ length items.now }
    ensures place { result ≡ sought.seek items.now from clue.now }
    ensures within { IfSome result (λ place. from ≤ place × place < length items.now) }
{
    let mut rest = items.len();
    while rest > from {
        if fits(clue, &items[rest - 1]) {
            return Some(rest - 1);
        }
        rest -= 1;
    }
    None
}

/// The place behind one, and the first where there is none.
pub fn behind(place: Option<usize>) -> usize
    requires { IfSome place (λ there. there < 2 ^ 63) }
    ensures { result ≡ sought.behind place }
{
    match place {
        Some(there) => there + 1,
        None => 0,
    }
}

/// The items behind the last that is what the clue asks for; all of them where none is.
pub fn items_since<'a>(items: &'a [Item], clue: &Clue) -> &'a [Item]
    ensures since { result.now ≡ drop (sought.behind (sought.seek items.now 0 clue.now)) items.now }
{
    let place = seek(items, 0, clue);
    &items[behind(place)..]
}

/// The place, where the item there is what the clue asks for.
pub fn last_take_at(items: &[Item], place: Option<usize>, clue: &Clue) -> Option<usize>
    requires { IfSome place (λ there. there < length items.now) }
    ensures place { result ≡ last_take_at (clues.fits clue.now) items.now place }
    ensures within { IfSome result (λ place. place < length items.now) }
{
    match place {
        Some(there) => {
            if fits(clue, &items[there]) {
                Some(there)
            } else {
                None
            }
        }
        None => None,
    }
}

/// The place of the last draw of the commit in the term by a transaction that wrote the key.
#[tactic(auto, unfolding(crate::specs::Sought::last_in))]
pub fn rival(items: &[Item], term: u64, key: KeyNo, by: u64) -> Option<usize>
    ensures place { result ≡ rival items.now term key by }
    ensures within { IfSome result (λ place. place < length items.now) }
{
    let mut rest = items.len();
    while rest > 0 {
        if is_rival(items, term, key, by, &items[rest - 1]) {
            return Some(rest - 1);
        }
        rest -= 1;
    }
    None
}

fn is_rival(items: &[Item], its: u64, key: KeyNo, by: u64, item: &Item) -> bool
    ensures { result ≡ is_rival items.now its key by item.now }
{
    match *item {
        Item::Draw {
            term,
            start,
            commit: Some(commit),
            ..
        } => term.value() == its && commit.value() == by && wrote(items, start, key),
        _ => false,
    }
}

fn wrote(items: &[Item], writer: TxnId, key: KeyNo) -> bool
    ensures { result ≡ is_some (sought.seek items.now 0 (clue.Wrote writer key)) }
{
    seek(
        items,
        0,
        &Clue::Wrote {
            start: writer.value(),
            key,
        },
    )
    .is_some()
}
