// What is checked of each list.
ghost use Rattle.std.specs.Prelude.{◌≡◌, ◌<◌, ℕ, IfErr, IfNone, IfSome, OnOk, Some, length, slice_get, true};
ghost use Rattle.trace_rules.specs.Trace.{Done};
ghost use Rattle.list_orders.specs.declared.listing.Listing.{Listing as ListingOf};
ghost use Rattle.list_orders.specs.Listings.{values_of};
ghost use Rattle.list_orders.specs.Told.{IsBegun};
ghost use Rattle.list_ranks.specs.Certified.{AreFine, AreMembers, AreSteps, IsBegunIn, IsChosen, IsFine, IsLastOf, IsMember, IsReadOf};
ghost use Rattle.list_ranks.specs.Hints.{AreHomes, longest_of};
ghost use Rattle.list_ranks.specs.Wrong.{IsListOf, IsStop, Stops};

use crate::hints::Hints;
use crate::homes::{append_of, is_committed, member_at};
use crate::steps::check_steps;
use crate::wrong::{Flaw, Stop, WrongList};
use list_orders::{Listing, listed_between};
use trace_rules::{Operation, Trace, Version};

/// Whether each list of a committed transaction is a read of its last member, of committed transactions' members, and begins its
/// key's longest one, which rises.
pub fn check_lists(
    trace: &Trace,
    listed: &[u64],
    lists: &[Listing],
    hints: &Hints,
) -> Result<(), Stop>
    requires { AreHomes trace.now hints.now }
    ensures sound { OnOk result (AreFine trace.now listed.now lists.now hints.now) }
    ensures wrong { IfErr result (IsStop trace.now listed.now lists.now) }
{
    for place in 0..lists.len() {
        check_at(trace, listed, lists, hints, place)?;
    }
    Ok(())
}

fn check_at(
    trace: &Trace,
    listed: &[u64],
    lists: &[Listing],
    hints: &Hints,
    place: usize,
) -> Result<(), Stop>
    requires { AreHomes trace.now hints.now }
    ensures sound { OnOk result ((l : ListingOf) → slice_get lists.now place ≡ Some l → Done trace.now l.txn → IsFine trace.now listed.now lists.now hints.now place l) }
    ensures wrong { IfErr result (IsStop trace.now listed.now lists.now) }
{
    match lists.get(place) {
        None => Err(Stop::Unknown),
        Some(list) => check_where_done(trace, listed, lists, hints, place, *list),
    }
}

fn check_where_done(
    trace: &Trace,
    listed: &[u64],
    lists: &[Listing],
    hints: &Hints,
    place: usize,
    list: Listing,
) -> Result<(), Stop>
    requires homes { AreHomes trace.now hints.now }
    requires stands { slice_get lists.now place ≡ Some list }
    ensures sound { OnOk result (Done trace.now list.txn → IsFine trace.now listed.now lists.now hints.now place list) }
    ensures wrong { IfErr result (IsStop trace.now listed.now lists.now) }
{
    if is_committed(&trace.transactions, list.txn) {
        check_list(trace, listed, lists, hints, place, list)
    } else {
        Ok(())
    }
}

fn check_list(
    trace: &Trace,
    listed: &[u64],
    lists: &[Listing],
    hints: &Hints,
    place: usize,
    list: Listing,
) -> Result<(), Stop>
    requires homes { AreHomes trace.now hints.now }
    requires stands { slice_get lists.now place ≡ Some list }
    requires done { Done trace.now list.txn }
    ensures sound { OnOk result (IsFine trace.now listed.now lists.now hints.now place list) }
    ensures wrong { IfErr result (IsStop trace.now listed.now lists.now) }
{
    let values = listed_between(listed, list.first, list.end);
    check_read(trace, hints, list, values)?;
    match check_members(trace, hints, list.txn, list.key, values) {
        Ok(()) => check_order(trace, listed, lists, hints, place, list, values),
        Err(stop) => Err(stop),
    }
}

/// Whether the list begins its key's longest one, and rises where it is that.
fn check_order(
    trace: &Trace,
    listed: &[u64],
    lists: &[Listing],
    hints: &Hints,
    place: usize,
    list: Listing,
    values: &[u64],
) -> Result<(), Stop>
    ensures begun { OnOk result (0 < length values.now → IsBegunIn trace.now listed.now lists.now hints.now list.key values.now) }
    ensures steps { OnOk result (longest_of hints.now list.key ≡ Some place → AreSteps trace.now hints.now list.key values.now) }
    ensures wrong { IfErr result (λ stop. IsListOf trace.now listed.now lists.now list.txn list.key values.now → IsStop trace.now listed.now lists.now stop) }
{
    check_begun(trace, listed, lists, hints, list, values)?;
    if hints.longest(list.key) == Some(place) {
        check_steps(trace, hints, list.txn, list.key, values)
    } else {
        Ok(())
    }
}

/// Whether the trace has, in the list's place, a read of its last member.
fn check_read(trace: &Trace, hints: &Hints, list: Listing, values: &[u64]) -> Result<(), Stop>
    ensures sound { OnOk result (IsReadOf trace.now hints.now list values.now) }
    ensures unknown { IfErr result (λ stop. stop ≡ Stop.Unknown) }
{
    match trace.operations.get(list.place) {
        Some(Operation::Read { txn, key, answer }) => {
            if *txn == list.txn
                && *key == list.key
                && is_last_of(trace, hints, list.key, values, *answer)
            {
                Ok(())
            } else {
                Err(Stop::Unknown)
            }
        }
        _ => Err(Stop::Unknown),
    }
}

fn is_last_of(
    trace: &Trace,
    hints: &Hints,
    key: u64,
    values: &[u64],
    answer: Option<Version>,
) -> bool
    ensures { result ≡ true → IsLastOf trace.now hints.now key values.now answer }
{
    match answer {
        None => values.is_empty(),
        Some(found) => is_last(trace, hints, key, values, found),
    }
}

fn is_last(trace: &Trace, hints: &Hints, key: u64, values: &[u64], found: Version) -> bool
    ensures { result ≡ true → IsLastOf trace.now hints.now key values.now (Some found) }
{
    let Some(last) = values.len().checked_sub(1) else {
        return false;
    };
    let Some(append) = append_of(trace, hints, key, found.value) else {
        return false;
    };
    has_at(values, last, found.value) && append.txn == found.from
}

/// Whether the value stands at the place.
pub fn has_at(values: &[u64], place: usize, value: u64) -> bool
    ensures { result ≡ true → slice_get values.now place ≡ Some value }
{
    match values.get(place) {
        None => false,
        Some(found) => *found == value,
    }
}

fn check_members(
    trace: &Trace,
    hints: &Hints,
    reader: usize,
    key: u64,
    values: &[u64],
) -> Result<(), Stop>
    requires { AreHomes trace.now hints.now }
    ensures sound { OnOk result (AreMembers trace.now hints.now key values.now) }
    ensures wrong { IfErr result (Stops trace.now reader key values.now) }
{
    for place in 0..values.len() {
        check_member(trace, hints, reader, key, values, place)?;
    }
    Ok(())
}

/// Whether the member is a committed transaction's.
fn check_member(
    trace: &Trace,
    hints: &Hints,
    reader: usize,
    key: u64,
    values: &[u64],
    place: usize,
) -> Result<(), Stop>
    requires { AreHomes trace.now hints.now }
    ensures sound { OnOk result ((v : ℕ) → slice_get values.now place ≡ Some v → IsMember trace.now hints.now key v) }
    ensures wrong { IfErr result (Stops trace.now reader key values.now) }
{
    let Some(member) = member_at(trace, hints, key, values, place) else {
        return Err(Stop::Unknown);
    };
    if is_committed(&trace.transactions, member.append.txn) {
        Ok(())
    } else {
        Err(Stop::Wrong(WrongList {
            reader,
            key,
            other: member.append.txn,
            flaw: Flaw::Dirty,
        }))
    }
}

/// The key's longest list.
pub fn chosen(trace: &Trace, lists: &[Listing], hints: &Hints, key: u64) -> Option<Listing>
    ensures { IfSome result (IsChosen trace.now lists.now hints.now key) }
{
    let place = hints.longest(key)?;
    let list = list_at(lists, place)?;
    if list.key == key && is_committed(&trace.transactions, list.txn) {
        Some(list)
    } else {
        None
    }
}

pub fn list_at(lists: &[Listing], place: usize) -> Option<Listing>
    ensures { result ≡ slice_get lists.now place }
{
    match lists.get(place) {
        None => None,
        Some(list) => Some(*list),
    }
}

/// Whether the key's longest list begins with these values.
fn check_begun(
    trace: &Trace,
    listed: &[u64],
    lists: &[Listing],
    hints: &Hints,
    list: Listing,
    values: &[u64],
) -> Result<(), Stop>
    ensures sound { OnOk result (0 < length values.now → IsBegunIn trace.now listed.now lists.now hints.now list.key values.now) }
    ensures wrong { IfErr result (λ stop. IsListOf trace.now listed.now lists.now list.txn list.key values.now → IsStop trace.now listed.now lists.now stop) }
{
    if values.is_empty() {
        return Ok(());
    }
    match chosen(trace, lists, hints, list.key) {
        None => Err(Stop::Unknown),
        Some(big) => check_beside(trace, listed, lists, hints, list, values, big),
    }
}

fn check_beside(
    trace: &Trace,
    listed: &[u64],
    lists: &[Listing],
    hints: &Hints,
    list: Listing,
    values: &[u64],
    big: Listing,
) -> Result<(), Stop>
    requires { IsChosen trace.now lists.now hints.now list.key big }
    ensures sound { OnOk result (IsBegunIn trace.now listed.now lists.now hints.now list.key values.now) }
    ensures wrong { IfErr result (λ stop. IsListOf trace.now listed.now lists.now list.txn list.key values.now → IsStop trace.now listed.now lists.now stop) }
{
    let all = listed_between(listed, big.first, big.end);
    match difference(all, values) {
        None => Ok(()),
        Some(place) => {
            if differs_at(all, values, place) {
                Err(Stop::Wrong(WrongList {
                    reader: list.txn,
                    key: list.key,
                    other: big.txn,
                    flaw: Flaw::Different,
                }))
            } else {
                Err(Stop::Unknown)
            }
        }
    }
}

/// The first place at which the one list does not begin with the other.
fn difference(all: &[u64], values: &[u64]) -> Option<usize>
    ensures none { IfNone result (IsBegun all.now values.now) }
    ensures some { IfSome result (λ place. (j : ℕ) → j < place → slice_get values.now j ≡ slice_get all.now j) }
{
    for place in 0..values.len() {
        if !same_at(all, values, place) {
            return Some(place);
        }
    }
    None
}

fn same_at(all: &[u64], values: &[u64], place: usize) -> bool
    ensures { result ≡ true → (place < length all.now) × (slice_get values.now place ≡ slice_get all.now place) }
{
    match values.get(place) {
        None => false,
        Some(value) => has_at(all, place, *value),
    }
}

/// Whether both have a member there, and not the same.
fn differs_at(all: &[u64], values: &[u64], place: usize) -> bool
    ensures { result ≡ true → (x : ℕ) × (y : ℕ) × (slice_get values.now place ≡ Some x) × (slice_get all.now place ≡ Some y) × (x ≡ y → ⊥) }
{
    let Some(value) = values.get(place) else {
        return false;
    };
    let Some(other) = all.get(place) else {
        return false;
    };
    *value != *other
}
