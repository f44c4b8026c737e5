// The commits of a history, by their transactions.
ghost use Rattle.std.specs.Prelude.{length, IfOk, OnOk};
ghost use Rattle.history_book.specs.Isolation as isolation;
ghost use Rattle.si_judge.specs.Commits.{HasCommits, NotesCommit};

use history_book::Item;
use stamp_base::{NoMemory, Stamp};
use std::alloc::Global;
use std::collections::HashMap;

/// A commit, and the place of its item.
#[derive(Clone, Copy)]
pub struct Commit {
    /// The commit.
    pub stamp: Stamp,
    /// The place of its item, counted from 0.
    pub place: usize,
}

/// Commits, by the numbers of the starts of their transactions.
pub type Commits = HashMap<u64, Commit>;

/// All commits of the items. NoMemory where memory is refused.
pub fn commits_by_start(alloc: Global, items: &[Item]) -> Result<Commits, NoMemory>
    requires { isolation.Stamped items.now }
    ensures { IfOk result (λ commits. HasCommits items.now (length items.now) commits) }
{
    let mut commits = HashMap::new(alloc);
    for place in 0..items.len() {
        note_commit(&mut commits, &items[place], place)?;
    }
    Ok(commits)
}

fn note_commit(commits: &mut Commits, item: &Item, place: usize) -> Result<(), NoMemory>
    ensures { OnOk result (NotesCommit commits.old commits.new item.now place) }
{
    match item {
        Item::Placed { start, commit } => {
            let stamp = *commit;
            commits.insert(start.value(), Commit { stamp, place })?;
            Ok(())
        }
        _ => Ok(()),
    }
}
