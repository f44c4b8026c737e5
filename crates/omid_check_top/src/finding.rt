// What is found where stamps are asked for.
ghost use Rattle.std.specs.Prelude.{IfOk};
ghost use Rattle.list_ranks.specs.Told.{AreTold, IsTold};
ghost use Rattle.omid_check_top.specs.Findings.{IsFinding};
ghost use Rattle.omid_check_top.specs.Subject.{subject_of};

use list_ranks::{Told, WrongList, told_by_lists};
use rising_numbers::Edge;
use stamp_base::NoMemory;
use std::alloc::Global;
use trace_index::Indexed;
use trace_judge::{Verdict, judge_told};
use trace_reading::Recording;
use trace_rules::{Level, Wanted};
use version_ranks::Rank;

/// What is found.
#[derive(Drop)]
pub enum Finding {
    /// Numbers that make stamps.
    Holds(Vec<usize>),
    /// The place of a read that no stamps allow.
    WrongRead(usize),
    /// A list that no stamps give.
    WrongList(WrongList),
    /// A cycle of edges.
    Refused(Vec<Edge>),
    /// Nothing, for a key whose order was tried.
    Undecided(Option<u64>),
}

/// What the lists of the trace tell. NoMemory where memory is refused.
pub fn told_of(alloc: Global, recording: &Recording, indexed: &Indexed) -> Result<Told, NoMemory>
    ensures { IfOk result (IsTold indexed.now.trace recording.now.listed indexed.now.lists.items indexed.now.ranks.items) }
{
    told_by_lists(
        alloc,
        &indexed.trace,
        recording.listed(),
        &indexed.lists,
        &indexed.ranks,
    )
}

/// Whether stamps can be given at the level that keep the order that is asked for besides, by what lists tell. NoMemory where memory
/// is refused.
pub fn find(
    alloc: Global,
    level: Level,
    wanted: Wanted,
    recording: &Recording,
    indexed: &Indexed,
    told: &Told,
) -> Result<Finding, NoMemory>
    requires { IsTold indexed.now.trace recording.now.listed indexed.now.lists.items indexed.now.ranks.items told.now }
    ensures { IfOk result (IsFinding level wanted (subject_of recording.now indexed.now.attempts.items indexed.now.trace indexed.now.times.items indexed.now.ranks.items indexed.now.lists.items)) }
{
    match told {
        Told::Ranks(ranks) => find_by(alloc, level, wanted, recording, indexed, ranks),
        Told::Wrong(wrong) => Ok(Finding::WrongList(*wrong)),
        Told::Unknown => Ok(Finding::Undecided(None)),
    }
}

#[tactic(auto, using(crate::proofs::FindingLemmas::numbers_found))]
fn find_by(
    alloc: Global,
    level: Level,
    wanted: Wanted,
    recording: &Recording,
    indexed: &Indexed,
    ranks: &[Rank],
) -> Result<Finding, NoMemory>
    requires { AreTold indexed.now.trace recording.now.listed indexed.now.lists.items indexed.now.ranks.items ranks.now }
    ensures { IfOk result (IsFinding level wanted (subject_of recording.now indexed.now.attempts.items indexed.now.trace indexed.now.times.items indexed.now.ranks.items indexed.now.lists.items)) }
{
    match judge_told(
        alloc,
        level,
        wanted,
        &indexed.trace.transactions,
        &indexed.times,
        ranks,
        &indexed.trace.operations,
    )? {
        Verdict::Holds(numbers) => Ok(Finding::Holds(numbers)),
        Verdict::WrongRead(place) => Ok(Finding::WrongRead(place)),
        Verdict::Refused(cycle) => Ok(Finding::Refused(cycle)),
        Verdict::Undecided(key) => Ok(Finding::Undecided(key)),
    }
}
