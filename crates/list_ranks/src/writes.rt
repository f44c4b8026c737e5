// What is checked of each write of a key with lists.
ghost use Rattle.std.specs.Prelude.{◌≡◌, ◌≢◌, ◌+◌, ℕ, IfErr, IfSome, IsErr, OnOk, Some, slice_get};
ghost use Rattle.trace_rules.specs.Trace.{Done};
ghost use Rattle.list_orders.specs.Lists.{WriteAt};
ghost use Rattle.list_ranks.specs.Certified.{ArePlaced, IsLeft, IsPlaced, IsRest};
ghost use Rattle.list_ranks.specs.Hints.{AreHomes, IsHome, longest_of, rank_of, version_of};
ghost use Rattle.list_ranks.specs.Wrong.{IsStop, Lacks, Stops};

use crate::hints::Hints;
use crate::homes::{Member, is_committed, member_at, operations_in};
use crate::listings::{has_at, list_at};
use crate::wrong::{Flaw, Stop, WrongList};
use list_orders::{Listing, listed_between};
use trace_rules::{Operation, Trace};
use version_ranks::Rank;

/// Whether each committed write of a key with lists has a rank, and is in the longest list or behind it.
pub fn check_writes(
    trace: &Trace,
    listed: &[u64],
    lists: &[Listing],
    hints: &Hints,
) -> Result<(), Stop>
    requires { AreHomes trace.now hints.now }
    ensures sound { OnOk result (ArePlaced trace.now listed.now lists.now hints.now) }
    ensures wrong { IfErr result (IsStop trace.now listed.now lists.now) }
{
    for place in 0..operations_in(trace) {
        check_at(trace, listed, lists, hints, place)?;
    }
    Ok(())
}

fn check_at(
    trace: &Trace,
    listed: &[u64],
    lists: &[Listing],
    hints: &Hints,
    place: usize,
) -> Result<(), Stop>
    requires { AreHomes trace.now hints.now }
    ensures sound { OnOk result ((w k v list : ℕ) → WriteAt trace.now place w k v → Done trace.now w → longest_of hints.now k ≡ Some list → IsPlaced trace.now listed.now lists.now hints.now place w k v list) }
    ensures wrong { IfErr result (IsStop trace.now listed.now lists.now) }
{
    match trace.operations.get(place) {
        Some(Operation::Write { txn, key, value }) => check_where_listed(
            trace, listed, lists, hints, place, *txn, *key, *value,
        ),
        _ => Ok(()),
    }
}

fn check_where_listed(
    trace: &Trace,
    listed: &[u64],
    lists: &[Listing],
    hints: &Hints,
    place: usize,
    txn: usize,
    key: u64,
    value: u64,
) -> Result<(), Stop>
    requires homes { AreHomes trace.now hints.now }
    requires wrote { WriteAt trace.now place txn key value }
    ensures sound { OnOk result ((list : ℕ) → Done trace.now txn → longest_of hints.now key ≡ Some list → IsPlaced trace.now listed.now lists.now hints.now place txn key value list) }
    ensures wrong { IfErr result (IsStop trace.now listed.now lists.now) }
{
    if !is_committed(&trace.transactions, txn) {
        return Ok(());
    }
    match hints.longest(key) {
        None => Ok(()),
        Some(list) => check_write(trace, listed, lists, hints, place, txn, key, value, list),
    }
}

fn check_write(
    trace: &Trace,
    listed: &[u64],
    lists: &[Listing],
    hints: &Hints,
    place: usize,
    txn: usize,
    key: u64,
    value: u64,
    list: usize,
) -> Result<(), Stop>
    requires homes { AreHomes trace.now hints.now }
    requires wrote { WriteAt trace.now place txn key value }
    ensures sound { OnOk result (IsPlaced trace.now listed.now lists.now hints.now place txn key value list) }
    ensures wrong { IfErr result (IsStop trace.now listed.now lists.now) }
{
    let Some(big) = list_at(lists, list) else {
        return Err(Stop::Unknown);
    };
    let Some(rank) = rank_of(hints, key, txn) else {
        return Err(Stop::Unknown);
    };
    if big.key != key || !is_committed(&trace.transactions, big.txn) {
        return Err(Stop::Unknown);
    }
    let values = listed_between(listed, big.first, big.end);
    check_rest(
        trace,
        hints,
        big.txn,
        key,
        values,
        place,
        txn,
        value,
        rank.version,
    )
}

/// The writer's rank of the key, where it has one of its own.
fn rank_of(hints: &Hints, key: u64, txn: usize) -> Option<Rank>
    ensures { IfSome result (λ rank. (rank_of hints.now key txn ≡ Some rank) × (rank.key ≡ hints.now.above + key) × (rank.txn ≡ txn)) }
{
    let rank = hints.rank(key, txn)?;
    let name = hints.above().checked_add(key)?;
    if rank.key == name && rank.txn == txn {
        Some(rank)
    } else {
        None
    }
}

fn check_rest(
    trace: &Trace,
    hints: &Hints,
    reader: usize,
    key: u64,
    values: &[u64],
    place: usize,
    txn: usize,
    value: u64,
    version: u64,
) -> Result<(), Stop>
    requires homes { AreHomes trace.now hints.now }
    requires wrote { WriteAt trace.now place txn key value }
    requires version { version ≡ version_of hints.now key txn }
    ensures sound { OnOk result (IsRest trace.now hints.now values.now place txn key value) }
    ensures wrong { IfErr result (Stops trace.now reader key values.now) }
{
    if has_at(values, hints.spot(place), value) || version == values.len() as u64 {
        return Ok(());
    }
    if values.contains(&value) {
        return Err(Stop::Unknown);
    }
    check_left(
        trace,
        hints,
        reader,
        key,
        values,
        place,
        txn,
        value,
        version as usize,
    )
}

/// Whether the value that is not there stands behind the last member, and is of its writer.
fn check_left(
    trace: &Trace,
    hints: &Hints,
    reader: usize,
    key: u64,
    values: &[u64],
    place: usize,
    txn: usize,
    value: u64,
    first: usize,
) -> Result<(), Stop>
    requires homes { AreHomes trace.now hints.now }
    requires wrote { WriteAt trace.now place txn key value }
    requires lacks { Lacks values.now value }
    ensures sound { OnOk result (IsLeft trace.now hints.now key values.now place txn) }
    ensures wrong { IfErr result (Stops trace.now reader key values.now) }
{
    let Some(last) = values.len().checked_sub(1) else {
        return Err(Stop::Unknown);
    };
    let Some(member) = member_at(trace, hints, key, values, last) else {
        return Err(Stop::Unknown);
    };
    if member.append.txn != txn {
        return cut(
            trace, hints, reader, key, values, place, txn, value, first, last, member,
        );
    }
    if member.append.place < place {
        Ok(())
    } else if place < member.append.place {
        Err(Stop::Wrong(WrongList {
            reader,
            key,
            other: txn,
            flaw: Flaw::Missing,
        }))
    } else {
        Err(Stop::Unknown)
    }
}

/// That a value is not there of the writer whose first member is at this place, before one of another writer.
fn cut(
    trace: &Trace,
    hints: &Hints,
    reader: usize,
    key: u64,
    values: &[u64],
    place: usize,
    txn: usize,
    value: u64,
    first: usize,
    last: usize,
    member: Member,
) -> Result<(), Stop>
    requires homes { AreHomes trace.now hints.now }
    requires wrote { WriteAt trace.now place txn key value }
    requires lacks { Lacks values.now value }
    requires at { slice_get values.now last ≡ Some member.value }
    requires home { IsHome trace.now hints.now key member.value member.append }
    requires differ { member.append.txn ≢ txn }
    ensures stops { IsErr result }
    ensures wrong { IfErr result (Stops trace.now reader key values.now) }
{
    let Some(early) = member_at(trace, hints, key, values, first) else {
        return Err(Stop::Unknown);
    };
    if first < last && early.append.txn == txn {
        Err(Stop::Wrong(WrongList {
            reader,
            key,
            other: txn,
            flaw: Flaw::Cut,
        }))
    } else {
        Err(Stop::Unknown)
    }
}
