// Sets of the commits and writes of a history, which tell of most reads that nothing crosses them.
ghost use Rattle.std.specs.Prelude.{◌≡◌, ◌≢◌, ◌<◌, ◌≤◌, ◌∷◌, ◌++◌, ◌^◌, ℕ, [], List, false, IfOk, IfSome, MatchOption, None, OnOk};
ghost use Rattle.std.specs.List.{list_any};
ghost use Rattle.history_book.specs.declared.item.Item.{Item};
ghost use Rattle.isolation_rules.specs.ApartPairs.{writes};
ghost use Rattle.read_sets.specs.Crossings.{StoodFor};
ghost use Rattle.read_sets.specs.Index.{EntersKey, HasPair, HasPlaced, HasTriple, IsIndexBut, IsIndexOf, KeepsTriples};

use history_book::Item;
use stamp_base::{KeyNo, NoMemory, Stamp};
use std::alloc::Global;
use std::collections::BTreeSet;
use std::ops::Bound;

/// The commits and writes of a history.
#[derive(Drop)]
pub struct Index {
    /// Each transaction with each of its commits.
    placed: BTreeSet<(u64, u64)>,
    /// Each transaction with each key that it wrote.
    written: BTreeSet<(u64, u64)>,
    /// Each key with each commit of each transaction that wrote it, and the transaction.
    commits: BTreeSet<(u64, u64, u64)>,
}

/// The index of a history, where memory suffices.
pub fn index_of(alloc: Global, items: &[Item]) -> Option<Index>
    ensures { IfSome result (λ some. IsIndexOf items.now some) }
{
    match Index::new(alloc, items) {
        Ok(index) => Some(index),
        Err(_) => None,
    }
}

/// Whether a read of the key by the transaction may be crossed: always where there is no index.
pub fn may_cross(index: &Option<Index>, start: Stamp, key: KeyNo) -> bool
    ensures { (h : List Item) → IfSome index.now (λ some. IsIndexOf h some) → result ≡ false → StoodFor h start key }
{
    match index {
        None => true,
        Some(some) => some.is_crossed(start, key),
    }
}

/// Whether the transaction may have written the key: always where there is no index.
pub fn may_write(index: &Option<Index>, txn: Stamp, key: KeyNo) -> bool
    ensures { (h : List Item) → IfSome index.now (λ some. IsIndexOf h some) → result ≡ false → list_any (λ x. writes txn key x) h ≡ false }
{
    match index {
        None => true,
        Some(some) => some.has_written(txn, key),
    }
}

impl Index {
    fn new(alloc: Global, items: &[Item]) -> Result<Index, NoMemory>
        ensures { IfOk result (λ index. IsIndexOf items.now index) }
    {
        let placed = placed_commits(alloc, items)?;
        let written = BTreeSet::new(alloc);
        let commits = BTreeSet::new(alloc);
        let mut index = Index {
            placed,
            written,
            commits,
        };
        for item in items {
            index.pass(item)?;
        }
        Ok(index)
    }

    /// Enters what the item writes.
    fn pass(&mut self, item: &Item) -> Result<(), NoMemory>
        ensures { OnOk result ((h part : List Item) → IsIndexBut h part self.old → IsIndexBut h (part ++ item.now ∷ []) self.new) }
    {
        match item {
            Item::Write { start, key, .. } => self.enter(*start, *key),
            _ => Ok(()),
        }
    }

    /// Enters the key, with the transaction's commits.
    fn enter(&mut self, txn: Stamp, key: KeyNo) -> Result<(), NoMemory>
        ensures { OnOk result (EntersKey self.old self.new txn key) }
    {
        let start = txn.value();
        let number = key.value();
        let added = self.written.insert((start, number))?;
        if added {
            enter_commits(&mut self.commits, &self.placed, start, number)?;
            Ok(())
        } else {
            Ok(())
        }
    }

    fn has_written(&self, txn: Stamp, key: KeyNo) -> bool
        ensures { (h : List Item) → IsIndexOf h self.now → result ≡ false → list_any (λ x. writes txn key x) h ≡ false }
    {
        self.written.contains(&(txn.value(), key.value()))
    }

    /// Whether another transaction that wrote the key committed between the start and a commit of this one.
    fn is_crossed(&self, start: Stamp, key: KeyNo) -> bool
        ensures { (h : List Item) → IsIndexOf h self.now → result ≡ false → StoodFor h start key }
    {
        let txn = start.value();
        let number = key.value();
        match last_placed(&self.placed, txn) {
            None => false,
            Some(last) => is_between(&self.commits, txn, last, number),
        }
    }
}

/// Each transaction with each of its commits.
fn placed_commits(alloc: Global, items: &[Item]) -> Result<BTreeSet<(u64, u64)>, NoMemory>
    ensures { IfOk result (λ placed. HasPlaced items.now placed) }
{
    let mut placed = BTreeSet::new(alloc);
    for item in items {
        note_placed(&mut placed, item)?;
    }
    Ok(placed)
}

fn note_placed(placed: &mut BTreeSet<(u64, u64)>, item: &Item) -> Result<(), NoMemory>
    ensures { OnOk result ((part : List Item) → HasPlaced part placed.old → HasPlaced (part ++ item.now ∷ []) placed.new) }
{
    match item {
        Item::Placed { start, commit } => {
            placed.insert((start.value(), commit.value()))?;
            Ok(())
        }
        _ => Ok(()),
    }
}

/// Enters each commit of the transaction at the key.
fn enter_commits(
    commits: &mut BTreeSet<(u64, u64, u64)>,
    placed: &BTreeSet<(u64, u64)>,
    txn: u64,
    key: u64,
) -> Result<(), NoMemory>
    requires { txn < 2 ^ 63 }
    ensures entered { OnOk result ((c : ℕ) → HasPair placed.now txn c → HasTriple commits.new key c txn) }
    ensures kept { OnOk result (KeepsTriples commits.old commits.new) }
{
    let from = Bound::Included((txn, 0));
    let to = Bound::Excluded((txn + 1, 0));
    for pair in placed.range((from, to)) {
        commits.insert((key, pair.1, txn))?;
    }
    Ok(())
}

/// The greatest commit of the transaction.
fn last_placed(placed: &BTreeSet<(u64, u64)>, txn: u64) -> Option<u64>
    requires { txn < 2 ^ 63 }
    ensures { MatchOption result ((c : ℕ) → HasPair placed.now txn c → ⊥) (λ last. (c : ℕ) → HasPair placed.now txn c → c ≤ last) }
{
    let from = Bound::Included((txn, 0));
    let to = Bound::Excluded((txn + 1, 0));
    match placed.range((from, to)).next_back() {
        None => None,
        Some(pair) => Some(pair.1),
    }
}

/// Whether a commit of the key by another transaction lies between the two stamps.
fn is_between(commits: &BTreeSet<(u64, u64, u64)>, start: u64, last: u64, key: u64) -> bool
    ensures { result ≡ false → (t c : ℕ) → t ≢ start → start < c → c < last → HasTriple commits.now key c t → ⊥ }
{
    if last <= start {
        return false;
    }
    let after = Bound::Excluded((key, start, u64::MAX));
    let before = Bound::Excluded((key, last, 0));
    for version in commits.range((after, before)) {
        let txn = version.2;
        if txn != start {
            return true;
        }
    }
    false
}
