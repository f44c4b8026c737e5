// The operations of the trace that is judged: each read with the version that it found.
ghost use Rattle.std.specs.Prelude.{◌≡◌, [], IfErr, IfOk, None, Ok};
ghost use Rattle.trace_index.specs.Versions.{last_version, list_step, operation_step, operations_from, read_step, version_by, version_of};
ghost use Rattle.trace_index.specs.Blames.{Blames, Makes, Leaves};

use crate::fault::{Fault, Unclear};
use crate::said::Said;
use crate::writers::Writers;
use list_orders::listed_between;
use std::alloc::Global;
use trace_rules::{Operation, Version};

/// The operations, each read with the version that it found. At, with the first of which it is not clear who wrote what; NoMemory
/// where memory is refused.
pub fn operations_of(
    alloc: Global,
    writers: &Writers,
    listed: &[u64],
    said: &[Said],
) -> Result<Vec<Operation>, Fault>
    ensures made { IfOk result (λ operations. operations_from writers.now listed.now [] said.now ≡ Ok operations.items) }
    ensures blamed { IfErr result (Blames (operations_from writers.now listed.now [] said.now)) }
{
    let mut operations = Vec::with_capacity(alloc, said.len())?;
    match add_all(&mut operations, writers, listed, said) {
        Ok(()) => Ok(operations),
        Err(fault) => Err(fault),
    }
}

fn add_all(
    operations: &mut Vec<Operation>,
    writers: &Writers,
    listed: &[u64],
    said: &[Said],
) -> Result<(), Fault>
    ensures { Leaves (operations_from writers.now listed.now operations.old.items said.now) operations.new.items result }
{
    for one in said {
        let operation = operation_of(writers, listed, one)?;
        operations.extend_from_slice(&[operation])?;
    }
    Ok(())
}

/// The operation, with the version that it found where it is a read.
fn operation_of(writers: &Writers, listed: &[u64], said: &Said) -> Result<Operation, Fault>
    ensures { Makes (operation_step writers.now listed.now said.now.txn said.now.member said.now.operation) result }
{
    let txn = said.txn;
    let member = said.member;
    match said.operation {
        trace_reading::Operation::Read { key, answer, .. } => read_of(
            writers, txn, member, key, answer,
        ),
        trace_reading::Operation::ReadList { key, first, end } => list_of(
            writers,
            txn,
            member,
            key,
            listed_between(listed, first, end),
        ),
        trace_reading::Operation::Write { key, value, .. }
        | trace_reading::Operation::Append { key, value } => {
            Ok(Operation::Write { txn, key, value })
        }
    }
}

fn read_of(
    writers: &Writers,
    txn: usize,
    member: u64,
    key: u64,
    answer: Option<u64>,
) -> Result<Operation, Fault>
    ensures { Makes (read_step writers.now txn member key answer) result }
{
    let answer = version_of(writers, txn, member, key, answer)?;
    Ok(Operation::Read { txn, key, answer })
}

/// The read of the last member of a list, each of whose members has a writer.
fn list_of(
    writers: &Writers,
    txn: usize,
    member: u64,
    key: u64,
    values: &[u64],
) -> Result<Operation, Fault>
    ensures { Makes (list_step writers.now txn member key values.now) result }
{
    let answer = last_version(writers, txn, member, key, values)?;
    Ok(Operation::Read { txn, key, answer })
}

fn last_version(
    writers: &Writers,
    txn: usize,
    member: u64,
    key: u64,
    values: &[u64],
) -> Result<Option<Version>, Fault>
    ensures { Makes (last_version writers.now txn member key None values.now) result }
{
    let mut found = None;
    for value in values {
        found = version_by(writers.of(key, *value), txn, member, key, *value)?;
    }
    Ok(found)
}

/// The version that a read found, by its writer.
fn version_of(
    writers: &Writers,
    txn: usize,
    member: u64,
    key: u64,
    answer: Option<u64>,
) -> Result<Option<Version>, Fault>
    ensures { Makes (version_of writers.now txn member key answer) result }
{
    match answer {
        None => Ok(None),
        Some(value) => version_by(writers.of(key, value), txn, member, key, value),
    }
}

fn version_by(
    from: Option<usize>,
    txn: usize,
    member: u64,
    key: u64,
    value: u64,
) -> Result<Option<Version>, Fault>
    ensures { Makes (version_by txn member key value from) result }
{
    match from {
        Some(from) => Ok(Some(Version { from, value })),
        None => Err(Fault::At {
            txn,
            member,
            key,
            value,
            what: Unclear::WrittenByNobody,
        }),
    }
}
