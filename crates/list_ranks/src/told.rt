// The order that lists tell, or which one is wrong.
ghost use Rattle.std.specs.Prelude.{IfErr, IfOk, OnOk};
ghost use Rattle.list_ranks.specs.Certified.{AreCertified};
ghost use Rattle.list_ranks.specs.Told.{IsTold};
ghost use Rattle.list_ranks.specs.Wrong.{IsStop};

use crate::building::hints_of;
use crate::hints::Hints;
use crate::homes::are_homes;
use crate::listings::check_lists;
use crate::ranks::{are_lower, check_ranks, joined};
use crate::writes::check_writes;
use crate::wrong::{Stop, WrongList};
use list_orders::Listing;
use stamp_base::NoMemory;
use std::alloc::Global;
use trace_rules::Trace;
use version_ranks::Rank;

/// What the lists of a trace tell.
#[derive(Drop)]
pub enum Told {
    /// The order of versions that they tell, behind that which is told otherwise.
    Ranks(Vec<Rank>),
    /// That no stamps give this list.
    Wrong(WrongList),
    /// Nothing that was found out.
    Unknown,
}

/// What the lists of a trace tell besides these versions: the ranks of their writers, by key and version, under keys above all of
/// theirs; or which list no stamps give. Unknown does not come where each value is written once at a key, lists are read in place
/// of their last members, and numbers stay in their range. NoMemory where memory is refused.
#[tactic(auto, using(crate::proofs::TellLemmas::none_tell))]
pub fn told_by_lists(
    alloc: Global,
    trace: &Trace,
    listed: &[u64],
    lists: &[Listing],
    versions: &[Rank],
) -> Result<Told, NoMemory>
    ensures { IfOk result (IsTold trace.now listed.now lists.now versions.now) }
{
    if lists.is_empty() {
        let ranks = versions.to_vec(alloc)?;
        return Ok(Told::Ranks(ranks));
    }
    let hints = hints_of(alloc, trace, listed, lists, versions)?;
    told_by_hints(alloc, trace, listed, lists, versions, &hints)
}

#[tactic(auto, using(crate::proofs::TellLemmas::told_ranks))]
fn told_by_hints(
    alloc: Global,
    trace: &Trace,
    listed: &[u64],
    lists: &[Listing],
    versions: &[Rank],
    hints: &Hints,
) -> Result<Told, NoMemory>
    ensures { IfOk result (IsTold trace.now listed.now lists.now versions.now) }
{
    match check(trace, listed, lists, versions, hints) {
        Ok(()) => {
            let ranks = joined(alloc, versions, hints.ranks())?;
            Ok(Told::Ranks(ranks))
        }
        Err(Stop::Wrong(wrong)) => Ok(Told::Wrong(wrong)),
        Err(Stop::Unknown) => Ok(Told::Unknown),
    }
}

/// Checks all that the ranks rest on.
fn check(
    trace: &Trace,
    listed: &[u64],
    lists: &[Listing],
    versions: &[Rank],
    hints: &Hints,
) -> Result<(), Stop>
    ensures sound { OnOk result (AreCertified trace.now listed.now lists.now versions.now hints.now) }
    ensures wrong { IfErr result (IsStop trace.now listed.now lists.now) }
{
    if !are_homes(trace, hints) || !are_lower(versions, hints.above()) {
        return Err(Stop::Unknown);
    }
    check_lists(trace, listed, lists, hints)?;
    check_writes(trace, listed, lists, hints)?;
    check_ranks(trace, lists, hints)
}
