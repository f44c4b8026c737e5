// The last value of each transaction at each key.
ghost use Rattle.std.specs.Prelude.{◌≡◌, ◌∷◌, ◌++◌, [], ℕ, List, IfOk, OnOk};
ghost use Rattle.trace_rules.specs.declared.trace.Operation.{Operation};
ghost use Rattle.trace_rules.specs.Trace.{last_of};
ghost use Rattle.outer_reads.specs.Sources.{HasLast};

use std::alloc::{AllocError, Global};
use std::collections::HashMap;
use trace_rules::Operation;

/// The last value that each transaction wrote at each key, of the operations passed so far.
#[derive(Drop)]
pub struct LastValues {
    values: HashMap<(usize, u64), u64>,
}

/// The last values of all operations. AllocError where memory is refused.
pub fn last_values(alloc: Global, operations: &[Operation]) -> Result<LastValues, AllocError>
    ensures { IfOk result (λ last. HasLast operations.now last.values) }
{
    let mut last = LastValues::new(alloc);
    for operation in operations {
        last.pass(operation)?;
    }
    Ok(last)
}

impl LastValues {
    /// The last values of no operations.
    pub fn new(alloc: Global) -> LastValues
        ensures { HasLast [] result.values }
    {
        LastValues {
            values: HashMap::new(alloc),
        }
    }

    /// Notes an operation behind those passed so far: a write sets the transaction's last value at the key. AllocError where memory
    /// is refused.
    pub fn pass(&mut self, operation: &Operation) -> Result<(), AllocError>
        ensures { OnOk result ((part : List Operation) → HasLast part self.old.values → HasLast (part ++ operation.now ∷ []) self.new.values) }
    {
        match operation {
            Operation::Read { .. } => Ok(()),
            Operation::Write { txn, key, value } => {
                self.values.insert((*txn, *key), *value)?;
                Ok(())
            }
        }
    }

    /// The transaction's last value at the key.
    pub fn last(&self, txn: usize, key: u64) -> Option<u64>
        ensures { (part : List Operation) → HasLast part self.now.values → result ≡ last_of part txn key }
    {
        self.values.get(&(txn, key)).copied()
    }
}
