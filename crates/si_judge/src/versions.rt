// The versions that committed transactions wrote, found by key and commit.
ghost use Rattle.std.specs.Prelude.{◌≡◌, ◌∷◌, ◌++◌, [], List, length, IfOk, OnOk};
ghost use Rattle.history_book.specs.declared.item.Item.{Item};
ghost use Rattle.history_book.specs.Isolation as isolation;
ghost use Rattle.isolation_rules.specs.Best.{Sees};
ghost use Rattle.si_judge.specs.Commits.{HasCommits};
ghost use Rattle.si_judge.specs.Indexed.{HasVersions};

use crate::commits::{Commits, commits_by_start};
use history_book::{Found, Item};
use isolation_rules::Version;
use stamp_base::{KeyNo, NoMemory, Stamp};
use std::alloc::Global;
use std::collections::BTreeMap;

/// The last write of each committed transaction at each key, in order of key and commit.
#[derive(Drop)]
pub struct VersionIndex {
    versions: BTreeMap<(KeyNo, Stamp), Version>,
}

impl VersionIndex {
    /// The versions of a whole history. NoMemory where memory is refused.
    pub fn new(alloc: Global, items: &[Item]) -> Result<VersionIndex, NoMemory>
        requires { isolation.Stamped items.now }
        ensures { IfOk result (λ index. HasVersions items.now items.now index.versions) }
    {
        let commits = commits_by_start(alloc, items)?;
        let versions = versions_of(alloc, items, &commits)?;
        Ok(VersionIndex { versions })
    }

    /// The newest version that a reader with this start sees at the key.
    pub fn visible(&self, start: Stamp, key: KeyNo) -> Option<Version>
        ensures { (h : List Item) → HasVersions h h self.now.versions → Sees h start key result }
    {
        // Versions of lesser keys lie below the place too.
        match self.versions.range(..(key, start)).next_back() {
            None => None,
            Some((place, version)) => { if place.0 == key { Some(*version) } else { None } }
        }
    }
}

fn versions_of(
    alloc: Global,
    items: &[Item],
    commits: &Commits,
) -> Result<BTreeMap<(KeyNo, Stamp), Version>, NoMemory>
    requires { HasCommits items.now (length items.now) commits.now }
    ensures { IfOk result (λ versions. HasVersions items.now items.now versions) }
{
    let mut versions = BTreeMap::new(alloc);
    for place in 0..items.len() {
        enter_version(&mut versions, commits, place, &items[place])?;
    }
    Ok(versions)
}

/// Enters what the item writes, where its transaction committed, in place of an earlier write of the key.
fn enter_version(
    versions: &mut BTreeMap<(KeyNo, Stamp), Version>,
    commits: &Commits,
    place: usize,
    item: &Item,
) -> Result<(), NoMemory>
    ensures { OnOk result ((h part : List Item) → HasCommits h (length h) commits.now → length part ≡ place →
        HasVersions h part versions.old → HasVersions h (part ++ item.now ∷ []) versions.new) }
{
    let Item::Write {
        start,
        key,
        value,
        ..
    } = item
    else {
        return Ok(());
    };
    let Some(commit) = commits.get(&start.value()) else {
        return Ok(());
    };
    let found = Found {
        from: *start,
        value: *value,
    };
    versions.insert((*key, commit.stamp), Version { place, found })?;
    Ok(())
}
