// Which transactions count as committed, where nobody knows of some what became of them.
ghost use Rattle.std.specs.Prelude.{◌≡◌, IfOk, IsFalse, length, map, option_map, Some};
ghost use Rattle.trace_index.specs.Open.{counts_at, flags_of, found_settles, is_committed, is_open, open_at, round, rounds, settles, with_flag};

use crate::attempts::{Attempt, Fate};
use stamp_base::NoMemory;
use std::alloc::Global;
use trace_rules::{Operation, Version};

/// Whether each transaction counts as committed: it was, or it is open and one that counts read from it. NoMemory where memory is
/// refused.
pub fn flags_of(
    alloc: Global,
    attempts: &[Attempt],
    operations: &[Operation],
) -> Result<Vec<bool>, NoMemory>
    ensures { IfOk result (λ flags. flags.items ≡ flags_of attempts.now operations.now) }
{
    let mut flags = committed(alloc, attempts)?;
    make_rounds(attempts, operations, &mut flags);
    Ok(flags)
}

/// Whether each was committed.
fn committed(alloc: Global, attempts: &[Attempt]) -> Result<Vec<bool>, NoMemory>
    ensures { IfOk result (λ flags. flags.items ≡ map (λ attempt. is_committed attempt.fate) attempts.now) }
{
    let mut flags = Vec::with_capacity(alloc, attempts.len())?;
    for attempt in attempts {
        flags.push(is_committed(attempt.fate))?;
    }
    Ok(flags)
}

/// Makes rounds until one changes nothing.
fn make_rounds(attempts: &[Attempt], operations: &[Operation], flags: &mut [bool])
    ensures { flags.new ≡ rounds attempts.now operations.now (length attempts.now) flags.old }
{
    for _made in 0..attempts.len() {
        let changed = make_round(attempts, operations, flags);
        if !changed {
            break;
        }
    }
}

/// Goes over the operations once, and tells whether that changed anything.
fn make_round(attempts: &[Attempt], operations: &[Operation], flags: &mut [bool]) -> bool
    ensures made { flags.new ≡ round attempts.now operations.now flags.old }
    ensures same { IsFalse result → flags.new ≡ flags.old }
{
    let mut changed = false;
    for operation in operations {
        if settle(attempts, operation, flags) {
            changed = true;
        }
    }
    changed
}

/// Lets an open writer count where its reader does, and tells whether that is new.
fn settle(attempts: &[Attempt], operation: &Operation, flags: &mut [bool]) -> bool
    ensures made { flags.new ≡ settles attempts.now flags.old operation.now }
    ensures same { IsFalse result → flags.new ≡ flags.old }
{
    match operation {
        Operation::Read { txn, answer, .. } => settle_found(attempts, *txn, *answer, flags),
        Operation::Write { .. } => false,
    }
}

fn settle_found(
    attempts: &[Attempt],
    txn: usize,
    found: Option<Version>,
    flags: &mut [bool],
) -> bool
    ensures made { flags.new ≡ found_settles attempts.now flags.old txn found }
    ensures same { IsFalse result → flags.new ≡ flags.old }
{
    match found {
        Some(found) => settle_writer(attempts, txn, found, flags),
        None => false,
    }
}

fn settle_writer(attempts: &[Attempt], txn: usize, found: Version, flags: &mut [bool]) -> bool
    ensures made { flags.new ≡ found_settles attempts.now flags.old txn (Some found) }
    ensures same { IsFalse result → flags.new ≡ flags.old }
{
    if counts_at(flags, txn) && open_at(attempts.get(found.from)) {
        set_flag(flags, found.from)
    } else {
        false
    }
}

/// Sets the flag, and tells whether that is new.
fn set_flag(flags: &mut [bool], txn: usize) -> bool
    ensures made { flags.new ≡ with_flag flags.old txn }
    ensures same { IsFalse result → flags.new ≡ flags.old }
{
    if txn < flags.len() {
        let new = !flags[txn];
        flags[txn] = true;
        new
    } else {
        false
    }
}

/// Whether the transaction at this place counts as committed.
pub fn counts_at(flags: &[bool], txn: usize) -> bool
    ensures { result ≡ counts_at flags.now txn }
{
    match flags.get(txn) {
        Some(flag) => *flag,
        None => false,
    }
}

/// Whether nobody knows of the transaction what became of it. False where there is none.
pub fn open_at(attempt: Option<&Attempt>) -> bool
    ensures { result ≡ open_at (option_map (λ a. a.now) attempt.entry) }
{
    match attempt {
        Some(attempt) => is_open(attempt.fate),
        None => false,
    }
}

fn is_open(fate: Fate) -> bool
    ensures { result ≡ is_open fate }
{
    match fate {
        Fate::Open => true,
        Fate::Committed | Fate::Aborted => false,
    }
}

fn is_committed(fate: Fate) -> bool
    ensures { result ≡ is_committed fate }
{
    match fate {
        Fate::Committed => true,
        Fate::Aborted | Fate::Open => false,
    }
}
