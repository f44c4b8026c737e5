// The items of a history.
ghost use Rattle.std.specs.Prelude.{◌≡◌, ◌+◌, ◌++◌, ◌∷◌, [], IfOk, OnOk, length, map, slice_index};
ghost use Rattle.history_book.specs.declared.item.Item.TheVariants as item;
ghost use Rattle.trace_rules.specs.declared.trace.Operation.TheVariants.{Read, Write};
ghost use Rattle.trace_items.specs.Items.{history_of as history_in, item_of, items_at};
ghost use Rattle.trace_report.specs.Parts.{name_at};
ghost use Rattle.stamped_history.specs.Groups.{AreGroups};
ghost use Rattle.stamped_history.specs.Order.{point_of, points_of, stamps_by};
ghost use Rattle.stamped_history.specs.Told.{Ascends, IsHistory, number_of as number_in, telling_by};

use crate::groups::groups_of;
use crate::keys::number_of;
use crate::limits::{Limit, NoHistory};
use crate::order::number_at;
use crate::told::{Told, told_of};
use history_book::{Found, Item};
use stamp_base::{KeyNo, NodeNo, SessionNo, Stamp, Value};
use std::alloc::Global;
use trace_reading::Recording;
use trace_rules::{Level, Operation, Trace, Version};

/// The history of the trace with stamps in the order of those that the numbers make: of each committed transaction the begin at its
/// start, with its operations behind it, and the commit at its commit. Past where a limit of histories is not met, and which;
/// NoMemory where memory is refused.
pub fn history_of(
    alloc: Global,
    level: Level,
    trace: &Trace,
    numbers: &[usize],
    recording: &Recording,
) -> Result<Vec<Item>, NoHistory>
    ensures { IfOk result (λ items. IsHistory level trace.now numbers.now recording.now.names items.items) }
{
    let told = told_of(alloc, level, trace, numbers)?;
    items_of(alloc, &told, trace, recording)
}

/// The items of all nodes.
fn items_of(
    alloc: Global,
    told: &Told,
    trace: &Trace,
    recording: &Recording,
) -> Result<Vec<Item>, NoHistory>
    requires keys { Ascends told.now.keys.items (length told.now.keys.items) }
    requires count { told.now.count ≡ length trace.now.transactions }
    ensures { IfOk result (λ items. items.items ≡ history_in (stamps_by told.now.count told.now.ranks.items) (telling_by told.now.seats.items told.now.keys.items recording.now.names) trace.now (points_of told.now.count told.now.nodes.items)) }
{
    let groups = groups_of(alloc, &trace.operations, told.count)?;
    let mut items = Vec::new(alloc);
    for node in &told.nodes {
        push_node(&mut items, told, trace, &groups, recording, *node)?;
    }
    Ok(items)
}

/// Adds the items of the node: a begin with its operations, or a commit.
fn push_node(
    items: &mut Vec<Item>,
    told: &Told,
    trace: &Trace,
    groups: &Vec<Vec<Operation>>,
    recording: &Recording,
    node: usize,
) -> Result<(), NoHistory>
    requires keys { Ascends told.now.keys.items (length told.now.keys.items) }
    requires len { length groups.now.items ≡ told.now.count }
    requires groups { AreGroups groups.now.items trace.now.operations }
    ensures { OnOk result (items.new.items ≡ items.old.items ++ items_at (stamps_by told.now.count told.now.ranks.items) (telling_by told.now.seats.items told.now.keys.items recording.now.names) trace.now (point_of told.now.count node)) }
{
    if node < told.count {
        push_begin(items, told, node)?;
        push_operations(items, told, recording, &groups[node])
    } else {
        push_commit(items, told, node - told.count)
    }
}

/// Adds the ask for a start, and the begin.
fn push_begin(items: &mut Vec<Item>, told: &Told, txn: usize) -> Result<(), NoHistory>
    ensures { OnOk result (items.new.items ≡ items.old.items ++ item.AskBegin (slice_index told.now.seats.items txn) 0 ∷ item.Begin (slice_index told.now.seats.items txn) (slice_index told.now.ranks.items txn) ∷ []) }
{
    let session = session_of(told, txn)?;
    let start = stamp_of(told, txn)?;
    items.extend_from_slice(&[
        Item::AskBegin {
            session,
            node: NodeNo::FIRST,
        },
        Item::Begin { session, start },
    ])?;
    Ok(())
}

/// Adds the transaction's commit.
fn push_commit(items: &mut Vec<Item>, told: &Told, txn: usize) -> Result<(), NoHistory>
    ensures { OnOk result (items.new.items ≡ items.old.items ++ item.Placed (slice_index told.now.ranks.items txn) (slice_index told.now.ranks.items (told.now.count + txn)) ∷ []) }
{
    let start = stamp_of(told, txn)?;
    let commit = commit_of(told, txn)?;
    items.extend_from_slice(&[Item::Placed { start, commit }])?;
    Ok(())
}

/// Adds the operations, one item each.
fn push_operations(
    items: &mut Vec<Item>,
    told: &Told,
    recording: &Recording,
    operations: &[Operation],
) -> Result<(), NoHistory>
    requires { Ascends told.now.keys.items (length told.now.keys.items) }
    ensures { OnOk result (items.new.items ≡ items.old.items ++ map (item_of (stamps_by told.now.count told.now.ranks.items) (telling_by told.now.seats.items told.now.keys.items recording.now.names)) operations.now) }
{
    for operation in operations {
        push_operation(items, told, recording, *operation)?;
    }
    Ok(())
}

fn push_operation(
    items: &mut Vec<Item>,
    told: &Told,
    recording: &Recording,
    operation: Operation,
) -> Result<(), NoHistory>
    requires { Ascends told.now.keys.items (length told.now.keys.items) }
    ensures { OnOk result (items.new.items ≡ items.old.items ++ item_of (stamps_by told.now.count told.now.ranks.items) (telling_by told.now.seats.items told.now.keys.items recording.now.names) operation ∷ []) }
{
    match operation {
        Operation::Read { txn, key, answer } => {
            push_read(items, told, recording, txn, key, answer)
        }
        Operation::Write { txn, key, value } => {
            push_write(items, told, recording, txn, key, value)
        }
    }
}

fn push_read(
    items: &mut Vec<Item>,
    told: &Told,
    recording: &Recording,
    txn: usize,
    key: u64,
    answer: Option<Version>,
) -> Result<(), NoHistory>
    requires { Ascends told.now.keys.items (length told.now.keys.items) }
    ensures { OnOk result (items.new.items ≡ items.old.items ++ item_of (stamps_by told.now.count told.now.ranks.items) (telling_by told.now.seats.items told.now.keys.items recording.now.names) (Read txn key answer) ∷ []) }
{
    let session = session_of(told, txn)?;
    let start = stamp_of(told, txn)?;
    let key = key_of(told, key)?;
    match answer {
        None => items.extend_from_slice(&[Item::Read {
            session,
            start,
            key,
            answer: None,
        }])?,
        Some(version) => {
            let from = stamp_of(told, version.from)?;
            let value = value_of(recording, version.value)?;
            items.extend_from_slice(&[Item::Read {
                session,
                start,
                key,
                answer: Some(Found { from, value }),
            }])?
        }
    }
    Ok(())
}

fn push_write(
    items: &mut Vec<Item>,
    told: &Told,
    recording: &Recording,
    txn: usize,
    key: u64,
    value: u64,
) -> Result<(), NoHistory>
    requires { Ascends told.now.keys.items (length told.now.keys.items) }
    ensures { OnOk result (items.new.items ≡ items.old.items ++ item_of (stamps_by told.now.count told.now.ranks.items) (telling_by told.now.seats.items told.now.keys.items recording.now.names) (Write txn key value) ∷ []) }
{
    let session = session_of(told, txn)?;
    let start = stamp_of(told, txn)?;
    let key = key_of(told, key)?;
    let value = value_of(recording, value)?;
    items.extend_from_slice(&[Item::Write {
        session,
        start,
        key,
        value,
    }])?;
    Ok(())
}

// ---- parts of items, in their ranges

fn session_of(told: &Told, txn: usize) -> Result<SessionNo, NoHistory>
    ensures { IfOk result (λ session. session ≡ slice_index told.now.seats.items txn) }
{
    match SessionNo::new(number_at(&told.seats, txn) as u64) {
        Some(session) => Ok(session),
        None => Err(NoHistory::Past(Limit::Sessions)),
    }
}

/// The start of the transaction.
fn stamp_of(told: &Told, txn: usize) -> Result<Stamp, NoHistory>
    ensures { IfOk result (λ stamp. stamp ≡ slice_index told.now.ranks.items txn) }
{
    match Stamp::new(number_at(&told.ranks, txn) as u64) {
        Some(stamp) => Ok(stamp),
        None => Err(NoHistory::Past(Limit::Stamps)),
    }
}

fn commit_of(told: &Told, txn: usize) -> Result<Stamp, NoHistory>
    ensures { IfOk result (λ stamp. stamp ≡ slice_index told.now.ranks.items (told.now.count + txn)) }
{
    match told.count.checked_add(txn) {
        Some(node) => stamp_of(told, node),
        None => Err(NoHistory::Past(Limit::Stamps)),
    }
}

fn key_of(told: &Told, key: u64) -> Result<KeyNo, NoHistory>
    requires { Ascends told.now.keys.items (length told.now.keys.items) }
    ensures { IfOk result (λ number. number ≡ number_in told.now.keys.items key) }
{
    match number_of(&told.keys, key) {
        None => Err(NoHistory::Past(Limit::Keys)),
        Some(place) => match KeyNo::new(place as u64) {
            Some(number) => Ok(number),
            None => Err(NoHistory::Past(Limit::Keys)),
        },
    }
}

/// The value, by its name.
fn value_of(recording: &Recording, value: u64) -> Result<Value, NoHistory>
    ensures { IfOk result (λ text. text ≡ name_at recording.now.names value) }
{
    match recording.name(value) {
        None => Err(NoHistory::Past(Limit::Values)),
        Some(name) => match Value::new(name) {
            Some(text) => Ok(text),
            None => Err(NoHistory::Past(Limit::Values)),
        },
    }
}
