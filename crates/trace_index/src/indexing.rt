// The trace that a recording is judged by.
ghost use Rattle.std.specs.Prelude.{◌≡◌, ◌++◌, IfErr, IfOk, Ok, map};
ghost use Rattle.trace_index.specs.Blames.{Blames, Makes};
ghost use Rattle.trace_index.specs.Numbers.{AreDone};
ghost use Rattle.trace_index.specs.Listings.{lists_reads};
ghost use Rattle.trace_index.specs.Open.{flags_of};
ghost use Rattle.trace_index.specs.Index.{IsIndexOf, numbers_of as numbers_recorded, steps_behind, steps_of as steps_made, transactions_from};

use crate::attempts::{Attempt, attempts_of};
use crate::fault::Fault;
use crate::flags::{counts_at, flags_of};
use crate::listings::{listings_of, sources_of};
use crate::numbers::{numbers_of, ranks_of};
use crate::said::{Said, said_of_all};
use crate::uses::uses_of;
use crate::versions::operations_of;
use crate::writers::{Writers, writers_of};
use list_orders::Listing;
use stamp_base::NoMemory;
use std::alloc::Global;
use std::marker::Model;
use trace_reading::Recording;
use trace_rules::{Operation, Times, Trace, Transaction};
use version_ranks::Rank;

/// A trace with the transactions as they were recorded, the moments that are known of them, by place, the order of versions that is
/// told by number, and the lists that were read.
#[derive(Drop)]
pub struct Indexed {
    /// The transactions as they were recorded.
    pub attempts: Vec<Attempt>,
    /// The trace.
    pub trace: Trace,
    /// The moments that are known of each transaction.
    pub times: Vec<Times>,
    /// The order of versions that is told by number.
    pub ranks: Vec<Rank>,
    /// The lists that were read.
    pub lists: Vec<Listing>,
}

/// Who wrote each value, and the trace's operations.
#[derive(Drop)]
struct Steps {
    writers: Writers,
    operations: Vec<Operation>,
}

impl Model for Steps {
    ghost use Rattle.trace_index.specs.Index as index;

    ghost Value = { index.Steps };

    ghost view = { λ s. record { writers = s.writers; operations = s.operations.items } };
}

/// The trace that the recording is judged by. At, with the first operation of which it is not clear who wrote what; NoMemory where
/// memory is refused.
pub fn index(alloc: Global, recording: &Recording) -> Result<Indexed, Fault>
    ensures indexed { IfOk result (λ found. IsIndexOf recording.now found.attempts.items found.trace found.times.items found.ranks.items found.lists.items) }
    ensures done { IfOk result (λ found. AreDone found.trace.transactions found.ranks.items) }
    ensures unclear { IfErr result (Blames (numbers_recorded recording.now)) }
{
    let attempts = attempts_of(alloc, recording.events())?;
    let said = said_of_all(alloc, &attempts, recording.operations())?;
    let steps = steps_of(alloc, recording.listed(), &said)?;
    let lists = listings_of(alloc, &said)?;
    let flags = flags_behind(alloc, &attempts, &steps, recording.listed(), &lists)?;
    let numbered = numbers_of(alloc, &steps.writers, &flags, &said)?;
    let transactions = transactions_of(alloc, &attempts, &flags)?;
    let ranks = ranks_of(alloc, &transactions, &numbered)?;
    let times = times_of(alloc, &attempts)?;
    Ok(Indexed {
        attempts,
        trace: Trace {
            transactions,
            operations: steps.operations,
        },
        times,
        ranks,
        lists,
    })
}

/// Who counts as committed.
fn flags_behind(
    alloc: Global,
    attempts: &[Attempt],
    steps: &Steps,
    listed: &[u64],
    lists: &[Listing],
) -> Result<Vec<bool>, NoMemory>
    ensures { IfOk result (λ flags. flags.items ≡ flags_of attempts.now (steps.now.operations ++ lists_reads attempts.now steps.now.writers listed.now lists.now)) }
{
    let sources = sources_of(
        alloc,
        attempts,
        &steps.writers,
        listed,
        lists,
        &steps.operations,
    )?;
    flags_of(alloc, attempts, &sources)
}

/// Who wrote what, and the operations.
fn steps_of(alloc: Global, listed: &[u64], said: &[Said]) -> Result<Steps, Fault>
    ensures { Makes (steps_made listed.now said.now) result }
{
    let _uses = uses_of(alloc, said)?;
    let writers = writers_of(alloc, said)?;
    behind_writers(alloc, writers, listed, said)
}

fn behind_writers(
    alloc: Global,
    writers: Writers,
    listed: &[u64],
    said: &[Said],
) -> Result<Steps, Fault>
    ensures { Makes (steps_behind writers listed.now said.now) result }
{
    let operations = operations_of(alloc, &writers, listed, said)?;
    Ok(Steps {
        writers,
        operations,
    })
}

fn transactions_of(
    alloc: Global,
    attempts: &[Attempt],
    flags: &[bool],
) -> Result<Vec<Transaction>, NoMemory>
    ensures { IfOk result (λ transactions. transactions.items ≡ transactions_from flags.now 0 attempts.now) }
{
    let mut transactions = Vec::with_capacity(alloc, attempts.len())?;
    for txn in 0..attempts.len() {
        transactions.extend_from_slice(&[Transaction {
            process: attempts[txn].process,
            committed: counts_at(flags, txn),
        }])?;
    }
    Ok(transactions)
}

fn times_of(alloc: Global, attempts: &[Attempt]) -> Result<Vec<Times>, NoMemory>
    ensures { IfOk result (λ times. times.items ≡ map (λ attempt. attempt.times) attempts.now) }
{
    let mut times = Vec::with_capacity(alloc, attempts.len())?;
    for attempt in attempts {
        times.extend_from_slice(&[attempt.times])?;
    }
    Ok(times)
}
