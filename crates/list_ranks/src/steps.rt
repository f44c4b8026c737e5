// Whether writers' versions rise along a list.
ghost use Rattle.std.specs.Prelude.{◌≡◌, ◌≢◌, ◌<◌, ℕ, IfErr, IsErr, OnOk, Some, length, slice_get, suc};
ghost use Rattle.list_ranks.specs.Certified.{AreSteps, IsNext, IsStep};
ghost use Rattle.list_ranks.specs.Hints.{IsHome, version_of};
ghost use Rattle.list_ranks.specs.Wrong.{Stops};

use crate::hints::Hints;
use crate::homes::{Member, member_at};
use crate::wrong::{Flaw, Stop, WrongList};
use trace_rules::Trace;

/// Whether members of one writer stand in its order, and versions of several rise.
pub fn check_steps(
    trace: &Trace,
    hints: &Hints,
    reader: usize,
    key: u64,
    values: &[u64],
) -> Result<(), Stop>
    ensures sound { OnOk result (AreSteps trace.now hints.now key values.now) }
    ensures wrong { IfErr result (Stops trace.now reader key values.now) }
{
    for place in 0..values.len() {
        check_step(trace, hints, reader, key, values, place)?;
    }
    Ok(())
}

fn check_step(
    trace: &Trace,
    hints: &Hints,
    reader: usize,
    key: u64,
    values: &[u64],
    place: usize,
) -> Result<(), Stop>
    ensures sound { OnOk result (IsStep trace.now hints.now key values.now place) }
    ensures wrong { IfErr result (Stops trace.now reader key values.now) }
{
    let Some(member) = member_at(trace, hints, key, values, place) else {
        return Err(Stop::Unknown);
    };
    if version_of(hints, key, member.append.txn) >= values.len() as u64 {
        return Err(Stop::Unknown);
    }
    check_next(trace, hints, reader, key, values, place, member)
}

/// The writer's version of the key. 0 where it has none.
fn version_of(hints: &Hints, key: u64, txn: usize) -> u64
    ensures { result ≡ version_of hints.now key txn }
{
    match hints.rank(key, txn) {
        None => 0,
        Some(rank) => rank.version,
    }
}

/// Whether the member behind this one comes next.
fn check_next(
    trace: &Trace,
    hints: &Hints,
    reader: usize,
    key: u64,
    values: &[u64],
    place: usize,
    member: Member,
) -> Result<(), Stop>
    requires at { slice_get values.now place ≡ Some member.value }
    requires home { IsHome trace.now hints.now key member.value member.append }
    ensures sound { OnOk result ((x : ℕ) → slice_get values.now (suc place) ≡ Some x → IsNext trace.now hints.now key member.append x) }
    ensures wrong { IfErr result (Stops trace.now reader key values.now) }
{
    let Some(behind) = place.checked_add(1) else {
        return Err(Stop::Unknown);
    };
    if behind >= values.len() {
        return Ok(());
    }
    match member_at(trace, hints, key, values, behind) {
        None => Err(Stop::Unknown),
        Some(next) => check_pair(trace, hints, reader, key, values, place, member, next),
    }
}

fn check_pair(
    trace: &Trace,
    hints: &Hints,
    reader: usize,
    key: u64,
    values: &[u64],
    place: usize,
    member: Member,
    next: Member,
) -> Result<(), Stop>
    requires at { slice_get values.now place ≡ Some member.value }
    requires home { IsHome trace.now hints.now key member.value member.append }
    requires next_at { slice_get values.now (suc place) ≡ Some next.value }
    requires next_home { IsHome trace.now hints.now key next.value next.append }
    ensures sound { OnOk result (IsNext trace.now hints.now key member.append next.value) }
    ensures wrong { IfErr result (Stops trace.now reader key values.now) }
{
    if member.append.txn == next.append.txn {
        if member.append.place < next.append.place {
            return Ok(());
        }
        return Err(Stop::Wrong(WrongList {
            reader,
            key,
            other: member.append.txn,
            flaw: Flaw::Turned,
        }));
    }
    let version = version_of(hints, key, next.append.txn);
    if version_of(hints, key, member.append.txn) < version {
        return Ok(());
    }
    split(
        trace,
        hints,
        reader,
        key,
        values,
        place,
        member,
        next,
        version as usize,
    )
}

/// That the member stands between two of the next one's writer, where its first one is at this place.
fn split(
    trace: &Trace,
    hints: &Hints,
    reader: usize,
    key: u64,
    values: &[u64],
    place: usize,
    member: Member,
    next: Member,
    first: usize,
) -> Result<(), Stop>
    requires at { slice_get values.now place ≡ Some member.value }
    requires home { IsHome trace.now hints.now key member.value member.append }
    requires next_at { slice_get values.now (suc place) ≡ Some next.value }
    requires next_home { IsHome trace.now hints.now key next.value next.append }
    requires differ { member.append.txn ≢ next.append.txn }
    ensures stops { IsErr result }
    ensures wrong { IfErr result (Stops trace.now reader key values.now) }
{
    let Some(early) = member_at(trace, hints, key, values, first) else {
        return Err(Stop::Unknown);
    };
    if first < place && early.append.txn == next.append.txn {
        Err(Stop::Wrong(WrongList {
            reader,
            key,
            other: member.append.txn,
            flaw: Flaw::Split,
        }))
    } else {
        Err(Stop::Unknown)
    }
}
