// Hints: which may be wrong, since whoever uses them tests them.
use crate::hints::Hints;
use crate::homes::is_committed;
use indexmap::IndexMap;
use list_orders::{Listing, listed_between};
use stamp_base::NoMemory;
use std::alloc::Global;
use trace_rules::{Operation, Trace};
use version_ranks::Rank;

/// The hints for the lists of a trace. NoMemory where memory is refused.
pub fn hints_of(
    alloc: Global,
    trace: &Trace,
    listed: &[u64],
    lists: &[Listing],
    versions: &[Rank],
) -> Result<Hints, NoMemory> {
    let mut hints = Hints {
        homes: homes_of(alloc, trace)?,
        longest: longest_of(alloc, trace, lists)?,
        places: IndexMap::new(alloc),
        ranks: Vec::new(alloc),
        above: above_all(versions),
        spots: vec![in alloc; 0; trace.operations.len()]?,
        witnesses: Vec::new(alloc),
    };
    hints.add_members(trace, listed, lists)?;
    hints.add_others(trace, listed, lists)?;
    hints.sort()?;
    hints.add_witnesses(alloc, trace)?;
    Ok(hints)
}

/// The place of the write of each value, by key and value. NoMemory where memory is refused.
pub fn homes_of(alloc: Global, trace: &Trace) -> Result<IndexMap<(u64, u64), usize>, NoMemory> {
    let mut homes = IndexMap::new(alloc);
    for place in 0..trace.operations.len() {
        if let Operation::Write { key, value, .. } = trace.operations[place] {
            homes.insert((key, value), place)?;
        }
    }
    Ok(homes)
}

/// The place of the longest list of a committed transaction, by key.
fn longest_of(
    alloc: Global,
    trace: &Trace,
    lists: &[Listing],
) -> Result<IndexMap<u64, usize>, NoMemory> {
    let mut longest = IndexMap::new(alloc);
    for place in 0..lists.len() {
        let list = lists[place];
        if is_committed(&trace.transactions, list.txn) && is_longer(lists, &longest, list) {
            longest.insert(list.key, place)?;
        }
    }
    Ok(longest)
}

/// Whether the list has a member, and more than its key's longest one so far.
fn is_longer(lists: &[Listing], longest: &IndexMap<u64, usize>, list: Listing) -> bool {
    let most = match longest.get(&list.key) {
        None => 0,
        Some(place) => match lists.get(*place) {
            None => 0,
            Some(other) => other.end.saturating_sub(other.first),
        },
    };
    list.end.saturating_sub(list.first) > most
}

/// A number above the keys of all ranks.
fn above_all(versions: &[Rank]) -> u64 {
    let mut above = 0;
    for rank in versions {
        if rank.key >= above {
            above = rank.key.saturating_add(1);
        }
    }
    above
}

fn writer_at(trace: &Trace, place: usize) -> usize {
    match trace.operations.get(place) {
        Some(Operation::Write { txn, .. }) => *txn,
        _ => 0,
    }
}

impl Hints {
    /// Adds the writers of members of the longest lists.
    fn add_members(
        &mut self,
        trace: &Trace,
        listed: &[u64],
        lists: &[Listing],
    ) -> Result<(), NoMemory> {
        for place in 0..lists.len() {
            let list = lists[place];
            if self.longest(list.key) == Some(place) {
                self.add_list(
                    trace,
                    list.key,
                    listed_between(listed, list.first, list.end),
                )?;
            }
        }
        Ok(())
    }

    fn add_list(&mut self, trace: &Trace, key: u64, values: &[u64]) -> Result<(), NoMemory> {
        for spot in 0..values.len() {
            if let Some(place) = self.home(key, values[spot]) {
                self.note_spot(place, spot);
                self.add_rank(key, writer_at(trace, place), spot as u64)?;
            }
        }
        Ok(())
    }

    fn note_spot(&mut self, place: usize, spot: usize) {
        if place < self.spots.len() {
            self.spots[place] = spot;
        }
    }

    /// Adds a rank, where the transaction has none of the key.
    fn add_rank(&mut self, key: u64, txn: usize, version: u64) -> Result<(), NoMemory> {
        let name = (key, txn as u64);
        if !self.places.contains_key(&name) {
            self.places.insert(name, 0)?;
            self.ranks.extend_from_slice(&[Rank {
                key: key.saturating_add(self.above),
                version,
                txn,
            }])?;
        }
        Ok(())
    }

    /// Adds the other committed writers of keys with lists, behind all members.
    fn add_others(
        &mut self,
        trace: &Trace,
        listed: &[u64],
        lists: &[Listing],
    ) -> Result<(), NoMemory> {
        for place in 0..trace.operations.len() {
            if let Operation::Write { txn, key, .. } = trace.operations[place] {
                if is_committed(&trace.transactions, txn) {
                    self.add_other(listed, lists, key, txn)?;
                }
            }
        }
        Ok(())
    }

    fn add_other(
        &mut self,
        listed: &[u64],
        lists: &[Listing],
        key: u64,
        txn: usize,
    ) -> Result<(), NoMemory> {
        let Some(place) = self.longest(key) else {
            return Ok(());
        };
        match lists.get(place) {
            None => Ok(()),
            Some(list) => {
                let values = listed_between(listed, list.first, list.end);
                self.add_rank(key, txn, values.len() as u64)
            }
        }
    }

    /// Sorts the ranks by key and version, and notes where they stand.
    fn sort(&mut self) -> Result<(), NoMemory> {
        self.ranks
            .sort_unstable_by_key(|rank| (rank.key, rank.version));
        for place in 0..self.ranks.len() {
            let rank = self.ranks[place];
            let key = rank.key.saturating_sub(self.above);
            self.places.insert((key, rank.txn as u64), place)?;
        }
        Ok(())
    }

    /// Notes a write of each rank's writer.
    fn add_witnesses(&mut self, alloc: Global, trace: &Trace) -> Result<(), NoMemory> {
        self.witnesses = vec![in alloc; 0; self.ranks.len()]?;
        for place in 0..trace.operations.len() {
            if let Operation::Write { txn, key, .. } = trace.operations[place] {
                self.add_witness(key, txn, place);
            }
        }
        Ok(())
    }

    fn add_witness(&mut self, key: u64, txn: usize, place: usize) {
        if let Some(rank) = self.places.get(&(key, txn as u64)).copied() {
            if rank < self.witnesses.len() {
                self.witnesses[rank] = place;
            }
        }
    }
}
