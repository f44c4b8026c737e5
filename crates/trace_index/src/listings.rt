// The lists that were read.
ghost use Rattle.std.specs.Prelude.{◌≡◌, ◌++◌, ◌∷◌, [], if◌then◌else◌, IfOk, OnOk, Some};
ghost use Rattle.trace_index.specs.Listings.{listing_of, listings_from, lists_reads, member_read, member_reads};

use crate::attempts::Attempt;
use crate::flags::open_at;
use crate::said::Said;
use crate::writers::Writers;
use list_orders::{Listing, listed_between};
use stamp_base::NoMemory;
use std::alloc::Global;
use trace_rules::{Operation, Version};

/// The lists that the operations read, in their order. NoMemory where memory is refused.
pub fn listings_of(alloc: Global, said: &[Said]) -> Result<Vec<Listing>, NoMemory>
    ensures { IfOk result (λ lists. lists.items ≡ listings_from 0 said.now) }
{
    let mut lists = Vec::new(alloc);
    for place in 0..said.len() {
        add_listing(&mut lists, place, said[place])?;
    }
    Ok(lists)
}

fn add_listing(lists: &mut Vec<Listing>, place: usize, said: Said) -> Result<(), NoMemory>
    ensures { OnOk result (lists.new.items ≡ lists.old.items ++ listing_of place said.txn said.operation) }
{
    let txn = said.txn;
    match said.operation {
        trace_reading::Operation::ReadList { key, first, end } => {
            lists.extend_from_slice(&[Listing {
                place,
                txn,
                key,
                first,
                end,
            }])?;
            Ok(())
        }
        trace_reading::Operation::Read { .. }
        | trace_reading::Operation::Write { .. }
        | trace_reading::Operation::Append { .. } => Ok(()),
    }
}

/// The operations, and behind them a read of each member of a list that is of an open transaction. NoMemory where memory is
/// refused.
pub fn sources_of(
    alloc: Global,
    attempts: &[Attempt],
    writers: &Writers,
    listed: &[u64],
    lists: &[Listing],
    operations: &[Operation],
) -> Result<Vec<Operation>, NoMemory>
    ensures { IfOk result (λ sources. sources.items ≡ operations.now ++ lists_reads attempts.now writers.now listed.now lists.now) }
{
    let mut sources = Vec::new(alloc);
    sources.extend_from_slice(operations)?;
    add_lists(&mut sources, attempts, writers, listed, lists)?;
    Ok(sources)
}

fn add_lists(
    sources: &mut Vec<Operation>,
    attempts: &[Attempt],
    writers: &Writers,
    listed: &[u64],
    lists: &[Listing],
) -> Result<(), NoMemory>
    ensures { OnOk result (sources.new.items ≡ sources.old.items ++ lists_reads attempts.now writers.now listed.now lists.now) }
{
    for list in lists {
        add_members(
            sources,
            attempts,
            writers,
            list.txn,
            list.key,
            listed_between(listed, list.first, list.end),
        )?;
    }
    Ok(())
}

fn add_members(
    sources: &mut Vec<Operation>,
    attempts: &[Attempt],
    writers: &Writers,
    txn: usize,
    key: u64,
    values: &[u64],
) -> Result<(), NoMemory>
    ensures { OnOk result (sources.new.items ≡ sources.old.items ++ member_reads attempts.now writers.now txn key values.now) }
{
    for value in values {
        add_member(sources, attempts, txn, key, *value, writers.of(key, *value))?;
    }
    Ok(())
}

fn add_member(
    sources: &mut Vec<Operation>,
    attempts: &[Attempt],
    txn: usize,
    key: u64,
    value: u64,
    from: Option<usize>,
) -> Result<(), NoMemory>
    ensures { OnOk result (sources.new.items ≡ sources.old.items ++ member_read attempts.now txn key value from) }
{
    match from {
        None => Ok(()),
        Some(from) => add_open(sources, attempts, txn, key, Version { from, value }),
    }
}

fn add_open(
    sources: &mut Vec<Operation>,
    attempts: &[Attempt],
    txn: usize,
    key: u64,
    found: Version,
) -> Result<(), NoMemory>
    ensures { OnOk result (sources.new.items ≡ sources.old.items ++ member_read attempts.now txn key found.value (Some found.from)) }
{
    add_where(sources, open_at(attempts.get(found.from)), txn, key, found)
}

fn add_where(
    sources: &mut Vec<Operation>,
    counts: bool,
    txn: usize,
    key: u64,
    found: Version,
) -> Result<(), NoMemory>
    ensures { OnOk result (sources.new.items ≡ sources.old.items ++ (if counts then Operation.Read txn key (Some found) ∷ [] else [])) }
{
    if counts {
        sources.extend_from_slice(&[Operation::Read {
            txn,
            key,
            answer: Some(found),
        }])?;
    }
    Ok(())
}
