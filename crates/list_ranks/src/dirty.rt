// Whether lists have members of committed transactions alone.
ghost use Rattle.std.specs.Prelude.{◌≡◌, ℕ, IfNone, IfOk, IfSome, MatchOption, Some, slice_get, false, true};
ghost use Rattle.trace_rules.specs.Trace.{Done};
ghost use Rattle.list_orders.specs.declared.listing.Listing.{Listing as ListingOf};
ghost use Rattle.list_orders.specs.Lists.{WriteAt};
ghost use Rattle.list_ranks.specs.Told.{AllDone, AreDoneMembers, HasDone, IsDirtyList};

use crate::building::homes_of;
use crate::homes::{is_committed, operations_in};
use crate::listings::list_at;
use indexmap::IndexMap;
use list_orders::{Listing, listed_between};
use stamp_base::NoMemory;
use std::alloc::Global;
use trace_rules::{Operation, Trace};

/// The first list of a committed transaction with a member that no committed one wrote. NoMemory where memory is refused.
#[tactic(auto, using(crate::proofs::TellLemmas::none_dirty))]
pub fn dirty_list(
    alloc: Global,
    trace: &Trace,
    listed: &[u64],
    lists: &[Listing],
) -> Result<Option<Listing>, NoMemory>
    ensures { IfOk result (λ found. MatchOption found (AllDone trace.now listed.now lists.now) (IsDirtyList trace.now listed.now lists.now)) }
{
    if lists.is_empty() {
        return Ok(None);
    }
    let homes = homes_of(alloc, trace)?;
    Ok(dirty_among(trace, listed, lists, &homes))
}

fn dirty_among(
    trace: &Trace,
    listed: &[u64],
    lists: &[Listing],
    homes: &IndexMap<(u64, u64), usize>,
) -> Option<Listing>
    ensures none { IfNone result (AllDone trace.now listed.now lists.now) }
    ensures some { IfSome result (IsDirtyList trace.now listed.now lists.now) }
{
    for place in 0..lists.len() {
        if let Some(list) = dirty_at(trace, listed, lists, homes, place) {
            return Some(list);
        }
    }
    None
}

fn dirty_at(
    trace: &Trace,
    listed: &[u64],
    lists: &[Listing],
    homes: &IndexMap<(u64, u64), usize>,
    place: usize,
) -> Option<Listing>
    ensures none { IfNone result ((l : ListingOf) → slice_get lists.now place ≡ Some l → Done trace.now l.txn → AreDoneMembers trace.now listed.now l) }
    ensures some { IfSome result (IsDirtyList trace.now listed.now lists.now) }
{
    let list = list_at(lists, place)?;
    if !is_committed(&trace.transactions, list.txn) {
        return None;
    }
    let values = listed_between(listed, list.first, list.end);
    let _member = dirty_member(trace, homes, list.key, values)?;
    Some(list)
}

/// The place of the first member that no committed transaction wrote.
fn dirty_member(
    trace: &Trace,
    homes: &IndexMap<(u64, u64), usize>,
    key: u64,
    values: &[u64],
) -> Option<usize>
    ensures none { IfNone result ((j v : ℕ) → slice_get values.now j ≡ Some v → HasDone trace.now key v) }
    ensures some { IfSome result (λ j. (v : ℕ) × (slice_get values.now j ≡ Some v) × (HasDone trace.now key v → ⊥)) }
{
    for place in 0..values.len() {
        if !is_done_at(trace, homes, key, values, place) {
            return Some(place);
        }
    }
    None
}

/// Whether a committed transaction wrote the member at the place, where one stands there.
fn is_done_at(
    trace: &Trace,
    homes: &IndexMap<(u64, u64), usize>,
    key: u64,
    values: &[u64],
    place: usize,
) -> bool
    ensures yes { result ≡ true → (v : ℕ) → slice_get values.now place ≡ Some v → HasDone trace.now key v }
    ensures no { result ≡ false → (v : ℕ) × (slice_get values.now place ≡ Some v) × (HasDone trace.now key v → ⊥) }
{
    match values.get(place) {
        None => true,
        Some(value) => is_done_member(trace, homes, key, *value),
    }
}

/// Whether a committed transaction wrote the value: where the hint has it, or anywhere.
fn is_done_member(trace: &Trace, homes: &IndexMap<(u64, u64), usize>, key: u64, value: u64) -> bool
    ensures yes { result ≡ true → HasDone trace.now key value }
    ensures no { result ≡ false → HasDone trace.now key value → ⊥ }
{
    let hint = homes.get(&(key, value)).copied().unwrap_or(0);
    is_done_write(trace, hint, key, value) || has_done(trace, key, value)
}

fn has_done(trace: &Trace, key: u64, value: u64) -> bool
    ensures yes { result ≡ true → HasDone trace.now key value }
    ensures no { result ≡ false → HasDone trace.now key value → ⊥ }
{
    for place in 0..operations_in(trace) {
        if is_done_write(trace, place, key, value) {
            return true;
        }
    }
    false
}

/// Whether a committed transaction writes the value at this place.
fn is_done_write(trace: &Trace, place: usize, key: u64, value: u64) -> bool
    ensures yes { result ≡ true → (w : ℕ) × WriteAt trace.now place w key value × Done trace.now w }
    ensures no { result ≡ false → (w : ℕ) → WriteAt trace.now place w key value → Done trace.now w → ⊥ }
{
    match trace.operations.get(place) {
        Some(
            Operation::Write {
                txn,
                key: written,
                value: found,
            },
        ) => { *written == key && *found == value && is_committed(&trace.transactions, *txn) }
        _ => false,
    }
}
