// The operations of each transaction.
ghost use Rattle.std.specs.Prelude.{◌≡◌, ◌++◌, ◌∷◌, [], ℕ, List, IfOk, IfSome, OnOk, length, slice_get};
ghost use Rattle.trace_rules.specs.declared.trace.Operation.{Operation as OperationOf};
ghost use Rattle.trace_items.specs.Items.{operations_of, txn_of};
ghost use Rattle.stamped_history.specs.Groups.{AreGroups};

use std::alloc::{AllocError, Global};
use trace_rules::Operation;

/// The operations of each transaction, by its place, for so many of them. AllocError where memory is refused.
pub fn groups_of(
    alloc: Global,
    operations: &[Operation],
    count: usize,
) -> Result<Vec<Vec<Operation>>, AllocError>
    ensures len { IfOk result (λ groups. length groups.items ≡ count) }
    ensures groups { IfOk result (λ groups. AreGroups groups.items operations.now) }
{
    let mut groups = no_groups(alloc, count)?;
    for operation in operations {
        add(&mut groups, *operation)?;
    }
    Ok(groups)
}

fn no_groups(alloc: Global, count: usize) -> Result<Vec<Vec<Operation>>, AllocError>
    ensures len { IfOk result (λ groups. length groups.items ≡ count) }
    ensures groups { IfOk result (λ groups. AreGroups groups.items []) }
{
    let mut groups = Vec::new(alloc);
    for txn in 0..count {
        groups.push(Vec::new(alloc))?;
    }
    Ok(groups)
}

/// Adds the operation to its transaction's.
fn add(groups: &mut Vec<Vec<Operation>>, operation: Operation) -> Result<(), AllocError>
    ensures len { OnOk result (length groups.new.items ≡ length groups.old.items) }
    ensures groups { OnOk result ((seen : List OperationOf) → AreGroups groups.old.items seen → AreGroups groups.new.items (seen ++ operation ∷ [])) }
{
    let txn = owner_of(operation);
    if txn < groups.len() {
        groups[txn].push(operation)?;
    }
    Ok(())
}

/// The transaction that the operation is of.
pub fn owner_of(operation: Operation) -> usize
    ensures { result ≡ txn_of operation }
{
    match operation {
        Operation::Read { txn, .. } | Operation::Write { txn, .. } => txn,
    }
}
