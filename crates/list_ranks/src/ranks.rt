// What is checked of ranks.
ghost use Rattle.std.specs.Prelude.{◌≡◌, ◌++◌, ◌+◌, ◌<◌, IfErr, IfOk, IfSome, OnOk, Some, length, slice_get, true};
ghost use Rattle.version_ranks.specs.declared.rank.Rank.{Rank as RankOf};
ghost use Rattle.trace_rules.specs.Trace.{Done};
ghost use Rattle.list_orders.specs.Lists.{WriteAt};
ghost use Rattle.list_ranks.specs.Certified.{AreLower, AreTrue, IsTrueRank};
ghost use Rattle.list_ranks.specs.Hints.{version_of};

use crate::hints::Hints;
use crate::homes::is_committed;
use crate::listings::chosen;
use crate::wrong::Stop;
use list_orders::Listing;
use stamp_base::NoMemory;
use std::alloc::Global;
use trace_rules::{Operation, Trace};
use version_ranks::Rank;

/// Whether each rank is of a committed writer of a key with lists, by its version.
pub fn check_ranks(trace: &Trace, lists: &[Listing], hints: &Hints) -> Result<(), Stop>
    ensures sound { OnOk result (AreTrue trace.now lists.now hints.now) }
    ensures unknown { IfErr result (λ stop. stop ≡ Stop.Unknown) }
{
    for place in 0..hints.ranks().len() {
        check_at(trace, lists, hints, place)?;
    }
    Ok(())
}

fn check_at(trace: &Trace, lists: &[Listing], hints: &Hints, place: usize) -> Result<(), Stop>
    ensures sound { OnOk result ((rank : RankOf) → slice_get hints.now.ranks place ≡ Some rank → IsTrueRank trace.now lists.now hints.now rank) }
    ensures unknown { IfErr result (λ stop. stop ≡ Stop.Unknown) }
{
    let Some(rank) = hints.rank_at(place) else {
        return Err(Stop::Unknown);
    };
    if is_true(trace, lists, hints, rank, hints.witness(place)) {
        Ok(())
    } else {
        Err(Stop::Unknown)
    }
}

fn is_true(trace: &Trace, lists: &[Listing], hints: &Hints, rank: Rank, witness: usize) -> bool
    ensures { result ≡ true → IsTrueRank trace.now lists.now hints.now rank }
{
    let Some(key) = rank.key.checked_sub(hints.above()) else {
        return false;
    };
    let Some(_big) = chosen(trace, lists, hints, key) else {
        return false;
    };
    let Some(_value) = value_written(trace, witness, rank.txn, key) else {
        return false;
    };
    is_committed(&trace.transactions, rank.txn) && has_version(hints, key, rank)
}

/// What the transaction writes at the key at this place.
fn value_written(trace: &Trace, place: usize, txn: usize, key: u64) -> Option<u64>
    ensures { IfSome result (λ value. WriteAt trace.now place txn key value) }
{
    match trace.operations.get(place) {
        Some(
            Operation::Write {
                txn: writer,
                key: written,
                value,
            },
        ) => {
            if *writer == txn && *written == key {
                Some(*value)
            } else {
                None
            }
        }
        _ => None,
    }
}

fn has_version(hints: &Hints, key: u64, rank: Rank) -> bool
    ensures { result ≡ true → version_of hints.now key rank.txn ≡ rank.version }
{
    match hints.rank(key, rank.txn) {
        None => false,
        Some(found) => found.version == rank.version,
    }
}

/// Whether all of these are of keys below this number.
pub fn are_lower(versions: &[Rank], above: u64) -> bool
    ensures { result ≡ true → AreLower versions.now above }
{
    for place in 0..versions.len() {
        if !is_lower(versions, above, place) {
            return false;
        }
    }
    true
}

fn is_lower(versions: &[Rank], above: u64, place: usize) -> bool
    ensures { result ≡ true → (rank : RankOf) → slice_get versions.now place ≡ Some rank → rank.key < above }
{
    match versions.get(place) {
        None => false,
        Some(rank) => rank.key < above,
    }
}

/// The versions, and the ranks behind them.
pub fn joined(alloc: Global, versions: &[Rank], ranks: &[Rank]) -> Result<Vec<Rank>, NoMemory>
    ensures { IfOk result (λ all. all.items ≡ versions.now ++ ranks.now) }
{
    let mut all = Vec::new(alloc);
    all.extend_from_slice(versions)?;
    all.extend_from_slice(ranks)?;
    Ok(all)
}
