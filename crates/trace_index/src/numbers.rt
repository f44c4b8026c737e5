// The order of versions that is told by their numbers.
ghost use Rattle.std.specs.Prelude.{◌≡◌, ◌++◌, [], filter, map, option_map, slice_get, IfErr, IfOk, Ok, OnOk};
ghost use Rattle.std.specs.List.Sorted.{IsPermutation, IsSortedByKey};
ghost use Rattle.trace_rules.specs.Trace.{committed_in};
ghost use Rattle.version_ranks.specs.Ranks.{runs_of};
ghost use Rattle.trace_index.specs.Blames.{Leaves, Makes};
ghost use Rattle.trace_index.specs.Numbers.{AreDone, AreRanks, by_both, is_done, number_if, numbers_from, place_of, rank_at, ranks_at};

use crate::fault::{Fault, Unclear};
use crate::flags::counts_at;
use crate::said::Said;
use crate::writers::Writers;
use indexmap::IndexMap;
use stamp_base::NoMemory;
use std::alloc::Global;
use std::marker::Model;
use trace_reading::Operation;
use trace_rules::Transaction;
use version_ranks::{Rank, join_runs};

/// The writers of versions by key and number.
#[derive(Drop)]
pub struct Numbered {
    by: IndexMap<(u64, u64), usize>,
}

impl Model for Numbered {
    ghost use Rattle.trace_index.specs.Numbers as numbers;

    ghost Value = { numbers.Numbered };

    ghost view = { λ n. n.by.entries };
}

impl Numbered {
    ghost use Rattle.std.specs.Map.{lookup};
    ghost use Rattle.std.specs.Prelude.{length};
    ghost use Rattle.indexmap.specs.IndexMap.{insert_entry};
    ghost use Rattle.trace_index.specs.Numbers.{number_step, read_told, told, told_of};
    ghost use Rattle.trace_index.specs.Versions.{pair_eq};

    fn of(&self, key: u64, version: u64) -> Option<usize>
        ensures { result ≡ lookup (pair_eq (key, version)) self.now }
    {
        self.by.get(&(key, version)).copied()
    }

    fn len(&self) -> usize
        ensures { result ≡ length self.now }
    {
        self.by.len()
    }

    /// The rank that was told behind so many others.
    fn at(&self, place: usize) -> Option<Rank>
        ensures { result ≡ option_map rank_at (slice_get self.now place) }
    {
        match self.by.get_index(place) {
            Some((name, txn)) => Some(Rank {
                key: name.0,
                version: name.1,
                txn: *txn,
            }),
            None => None,
        }
    }

    fn insert(&mut self, key: u64, version: u64, writer: usize) -> Result<(), NoMemory>
        ensures { OnOk result (self.new ≡ insert_entry pair_eq self.old (key, version) writer) }
    {
        self.by.insert((key, version), writer)?;
        Ok(())
    }

    /// Notes the version that the operation tells.
    fn note(&mut self, writers: &Writers, said: &Said) -> Result<(), Fault>
        ensures { Leaves (number_step writers.now self.old said.now.txn said.now.member said.now.operation) self.new result }
    {
        let txn = said.txn;
        let member = said.member;
        match said.operation {
            Operation::Read {
                key,
                answer,
                version,
            } => self.note_read(writers, txn, member, key, answer, version),
            Operation::Write { key, version, .. } => self.tell(txn, member, key, txn, version),
            Operation::ReadList { .. } | Operation::Append { .. } => Ok(()),
        }
    }

    fn note_read(
        &mut self,
        writers: &Writers,
        txn: usize,
        member: u64,
        key: u64,
        answer: Option<u64>,
        version: Option<u64>,
    ) -> Result<(), Fault>
        ensures { Leaves (read_told writers.now self.old txn member key answer version) self.new result }
    {
        match answer {
            None => Ok(()),
            Some(value) => self.tell_of(txn, member, key, version, writers.of(key, value)),
        }
    }

    fn tell_of(
        &mut self,
        txn: usize,
        member: u64,
        key: u64,
        version: Option<u64>,
        writer: Option<usize>,
    ) -> Result<(), Fault>
        ensures { Leaves (told_of self.old txn member key version writer) self.new result }
    {
        match writer {
            None => Ok(()),
            Some(writer) => self.tell(txn, member, key, writer, version),
        }
    }

    fn tell(
        &mut self,
        txn: usize,
        member: u64,
        key: u64,
        writer: usize,
        version: Option<u64>,
    ) -> Result<(), Fault>
        ensures { Leaves (told self.old txn member key writer version) self.new result }
    {
        match version {
            None => Ok(()),
            Some(version) => self.add(txn, member, key, version, writer),
        }
    }

    fn add(
        &mut self,
        txn: usize,
        member: u64,
        key: u64,
        version: u64,
        writer: usize,
    ) -> Result<(), Fault>
        ensures { Leaves (told self.old txn member key writer (Some version)) self.new result }
    {
        match self.of(key, version) {
            None => {
                self.insert(key, version, writer)?;
                Ok(())
            }
            Some(other) => {
                if other == writer {
                    return Ok(());
                }
                Err(Fault::At {
                    txn,
                    member,
                    key,
                    value: version,
                    what: Unclear::VersionTwice,
                })
            }
        }
    }
}

/// The versions that are told by numbers, of transactions that count as committed.
pub fn numbers_of(
    alloc: Global,
    writers: &Writers,
    flags: &[bool],
    said: &[Said],
) -> Result<Numbered, Fault>
    ensures { Makes (numbers_from writers.now flags.now [] said.now) result }
{
    let mut numbered = Numbered {
        by: IndexMap::new(alloc),
    };
    match add_numbers(&mut numbered, writers, flags, said) {
        Ok(()) => Ok(numbered),
        Err(fault) => Err(fault),
    }
}

fn add_numbers(
    numbered: &mut Numbered,
    writers: &Writers,
    flags: &[bool],
    said: &[Said],
) -> Result<(), Fault>
    ensures { Leaves (numbers_from writers.now flags.now numbered.old said.now) numbered.new result }
{
    for one in said {
        add_number(numbered, writers, flags, one)?;
    }
    Ok(())
}

fn add_number(
    numbered: &mut Numbered,
    writers: &Writers,
    flags: &[bool],
    said: &Said,
) -> Result<(), Fault>
    ensures { Leaves (number_if writers.now flags.now numbered.old said.now) numbered.new result }
{
    if counts_at(flags, said.txn) {
        numbered.note(writers, said)
    } else {
        Ok(())
    }
}

/// The ranks of committed transactions, by key and version; one transaction's that stand one behind another count as one.
pub fn ranks_of(
    alloc: Global,
    transactions: &[Transaction],
    numbered: &Numbered,
) -> Result<Vec<Rank>, NoMemory>
    ensures told { IfOk result (λ ranks. AreRanks transactions.now numbered.now ranks.items) }
    ensures done { IfOk result (λ ranks. AreDone transactions.now ranks.items) }
{
    let mut ranks = told_ranks(alloc, numbered)?;
    sort_ranks(&mut ranks);
    join_runs(&mut ranks);
    keep_done(&mut ranks, transactions);
    Ok(ranks)
}

/// The ranks as they were told.
fn told_ranks(alloc: Global, numbered: &Numbered) -> Result<Vec<Rank>, NoMemory>
    ensures { IfOk result (λ ranks. ranks.items ≡ map rank_at numbered.now) }
{
    let mut ranks = Vec::with_capacity(alloc, numbered.len())?;
    for place in 0..numbered.len() {
        add_rank(&mut ranks, numbered.at(place))?;
    }
    Ok(ranks)
}

fn add_rank(ranks: &mut Vec<Rank>, one: Option<Rank>) -> Result<(), NoMemory>
    ensures { OnOk result (ranks.new.items ≡ ranks.old.items ++ ranks_at one) }
{
    match one {
        None => Ok(()),
        Some(rank) => {
            ranks.extend_from_slice(&[rank])?;
            Ok(())
        }
    }
}

fn sort_ranks(ranks: &mut Vec<Rank>)
    ensures same { IsPermutation ranks.old.items ranks.new.items }
    ensures rises { IsSortedByKey place_of by_both ranks.new.items }
{
    ranks.sort_unstable_by_key(|rank| (rank.key, rank.version));
}

/// Leaves the ranks of committed transactions alone.
fn keep_done(ranks: &mut Vec<Rank>, transactions: &[Transaction])
    ensures { ranks.new.items ≡ filter (is_done transactions.now) ranks.old.items }
{
    ranks.retain(|rank| is_committed(transactions, rank.txn));
}

fn is_committed(transactions: &[Transaction], txn: usize) -> bool
    ensures { result ≡ committed_in (slice_get transactions.now txn) }
{
    match transactions.get(txn) {
        None => false,
        Some(transaction) => transaction.committed,
    }
}
