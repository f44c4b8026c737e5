// An index of the writes of committed transactions, which finds the places where the rule on commits may
// be broken.
ghost use Rattle.std.specs.Prelude.{◌≡◌, ◌≤◌, ℕ, true, length, IfOk, OnOk};
ghost use Rattle.history_book.specs.Isolation as isolation;
ghost use Rattle.isolation_rules.specs.Judged.{Passes};
ghost use Rattle.si_judge.specs.Commits.{HasCommits};
ghost use Rattle.si_judge.specs.OverlapIndex.{HasWrite, HasWrites, KeepsMarks, KeepsWrites, MarksAll, MarksOverlaps, MarksOwn, HasReached};
ghost use Rattle.si_judge.specs.Suspects.{AreSuspects};

use crate::commits::{Commit, Commits, commits_by_start};
use crate::marks::Marks;
use crate::reach::Reach;
use crate::turns::turns_of;
use history_book::Item;
use isolation_rules::Rule;
use stamp_base::{KeyNo, NoMemory, Stamp};
use std::alloc::Global;
use std::collections::BTreeMap;
use std::ops::Bound;

/// Whether each place is a suspect: none where the writers of each key take turns, and else those that are marked. NoMemory where
/// memory is refused.
pub fn overlap_suspects(alloc: Global, items: &[Item]) -> Result<Vec<bool>, NoMemory>
    requires { isolation.Stamped items.now }
    ensures { IfOk result (λ suspects. AreSuspects Rule.Apart items.now suspects.items) }
{
    let commits = commits_by_start(alloc, items)?;
    let turns = turns_of(alloc, items, &commits)?;
    suspects_by(alloc, items, &commits, turns.apart)
}

/// Whether each place is a suspect, where it is told whether no commits overlap.
fn suspects_by(
    alloc: Global,
    items: &[Item],
    commits: &Commits,
    apart: bool,
) -> Result<Vec<bool>, NoMemory>
    requires commits { HasCommits items.now (length items.now) commits.now }
    requires apart { apart ≡ true → (i : ℕ) → Passes Rule.Apart items.now i }
    ensures { IfOk result (λ suspects. AreSuspects Rule.Apart items.now suspects.items) }
{
    if apart {
        no_suspects(alloc, items)
    } else {
        marked_overlaps(alloc, items, commits)
    }
}

fn no_suspects(alloc: Global, items: &[Item]) -> Result<Vec<bool>, NoMemory>
    requires { (i : ℕ) → Passes Rule.Apart items.now i }
    ensures { IfOk result (λ suspects. AreSuspects Rule.Apart items.now suspects.items) }
{
    let marks = Marks::new(alloc, items.len())?;
    Ok(marks.each)
}

/// Marks the places of two commits where both wrote a key, and one commit is not below the other's start.
fn marked_overlaps(alloc: Global, items: &[Item], commits: &Commits) -> Result<Vec<bool>, NoMemory>
    requires { HasCommits items.now (length items.now) commits.now }
    ensures { IfOk result (λ suspects. AreSuspects Rule.Apart items.now suspects.items) }
{
    let written = committed_writes(alloc, items, commits)?;
    let mut marks = Marks::new(alloc, items.len())?;
    mark_all_overlaps(&written, &mut marks);
    Ok(marks.each)
}

/// The commit of each key and transaction that wrote it, where it committed.
fn committed_writes(
    alloc: Global,
    items: &[Item],
    commits: &Commits,
) -> Result<BTreeMap<(KeyNo, Stamp), Commit>, NoMemory>
    ensures { IfOk result (λ written. HasWrites items.now (length items.now) commits.now written) }
{
    let mut written = BTreeMap::new(alloc);
    for item in items {
        note_write(&mut written, commits, item)?;
    }
    Ok(written)
}

fn note_write(
    written: &mut BTreeMap<(KeyNo, Stamp), Commit>,
    commits: &Commits,
    item: &Item,
) -> Result<(), NoMemory>
    ensures noted { OnOk result (HasWrite commits.now written.new item.now) }
    ensures kept { OnOk result (KeepsWrites commits.now written.old written.new) }
{
    match item {
        Item::Write { start, key, .. } => match commits.get(&start.value()) {
            Some(commit) => {
                written.insert((*key, *start), *commit)?;
                Ok(())
            }
            None => Ok(()),
        },
        _ => Ok(()),
    }
}

/// Marks the commits that overlap, of all that wrote one key.
fn mark_all_overlaps(written: &BTreeMap<(KeyNo, Stamp), Commit>, marks: &mut Marks)
    ensures marked { MarksAll written.now marks.new }
    ensures kept { KeepsMarks marks.old marks.new }
{
    let mut reach = Reach::from(KeyNo::FIRST, Stamp::FIRST);
    for (version, commit) in written {
        reach = mark_overlaps(written, version.0, version.1, *commit, reach, marks);
    }
}

/// Marks the commit of a write, and those of the key's later writes that started up to it. Those that the reach has are marked
/// already.
fn mark_overlaps(
    written: &BTreeMap<(KeyNo, Stamp), Commit>,
    key: KeyNo,
    start: Stamp,
    commit: Commit,
    reach: Reach,
    marks: &mut Marks,
) -> Reach
    requires reached { HasReached written.now reach marks.old }
    ensures marked { MarksOverlaps written.now key start commit marks.new }
    ensures kept { KeepsMarks marks.old marks.new }
    ensures reached { HasReached written.now result marks.new }
{
    mark_own(written, key, start, &commit, marks);
    let reach = reach.at(key, start);
    mark_up_to(written, reach, commit.stamp, marks)
}

/// Marks the commit of a write where a later write of the key started up to it.
fn mark_own(
    written: &BTreeMap<(KeyNo, Stamp), Commit>,
    key: KeyNo,
    start: Stamp,
    commit: &Commit,
    marks: &mut Marks,
)
    ensures marked { MarksOwn written.now key start commit.now marks.new }
    ensures kept { KeepsMarks marks.old marks.new }
{
    if start < commit.stamp {
        let after = Bound::Excluded((key, start));
        let upto = Bound::Included((key, commit.stamp));
        if written.range((after, upto)).next().is_some() {
            marks.mark(commit.place);
        }
    }
}

/// Marks the commits of the key's writes that started behind the reach and up to the stamp. The reach goes so far then.
fn mark_up_to(
    written: &BTreeMap<(KeyNo, Stamp), Commit>,
    reach: Reach,
    stamp: Stamp,
    marks: &mut Marks,
) -> Reach
    requires { HasReached written.now reach marks.old }
    ensures reached { HasReached written.now result marks.new }
    ensures further { (result.key ≡ reach.key) × (result.from ≡ reach.from) × (stamp ≤ result.upto) }
    ensures kept { KeepsMarks marks.old marks.new }
{
    if stamp <= reach.upto {
        return reach;
    }
    let after = Bound::Excluded((reach.key, reach.upto));
    let upto = Bound::Included((reach.key, stamp));
    for (_, other) in written.range((after, upto)) {
        marks.mark(other.place);
    }
    Reach {
        upto: stamp,
        ..reach
    }
}
