// The name of a wrong read.
ghost use Rattle.std.specs.Prelude.{◌≡◌, option_map, take};
ghost use Rattle.trace_rules.specs.Trace.{committed_in, last_of, written_by};
ghost use Rattle.trace_report.specs.Wrongs.{wrong_at, wrong_by, wrong_name, wrong_of, wrong_version};

use trace_rules::{Operation, Trace, Transaction, Version};

/// What is wrong with a read, whatever stamps there are.
#[derive(Clone, Copy, Debug, PartialEq, Eq)]
pub enum Wrong {
    /// G1a: its writer did not commit.
    Dirty,
    /// G1b: its writer wrote the key again.
    Intermediate,
    /// The reader had written the key itself, and did not find what it wrote.
    NotOwn,
}

/// What is wrong with the read at this place of the trace's operations, where something is.
pub fn wrong_at(trace: &Trace, place: usize) -> Wrong
    ensures { result ≡ wrong_at trace.now place }
{
    match trace.operations.get(place) {
        Some(operation) => wrong_of(trace, place, *operation),
        None => Wrong::NotOwn,
    }
}

fn wrong_of(trace: &Trace, place: usize, operation: Operation) -> Wrong
    ensures { result ≡ wrong_of trace.now place operation }
{
    match operation {
        Operation::Read {
            txn,
            key,
            answer: Some(found),
        } => wrong_version(trace, place, txn, key, found),
        _ => Wrong::NotOwn,
    }
}

fn wrong_version(trace: &Trace, place: usize, txn: usize, key: u64, found: Version) -> Wrong
    ensures { result ≡ wrong_version trace.now place txn key found }
{
    let own = last_of(before(&trace.operations, place), txn, key);
    wrong_by(own, is_committed(trace.transactions.get(found.from)))
}

fn wrong_by(own: Option<u64>, committed: bool) -> Wrong
    ensures { result ≡ wrong_by own committed }
{
    match own {
        Some(_) => Wrong::NotOwn,
        None if committed => Wrong::Intermediate,
        None => Wrong::Dirty,
    }
}

fn is_committed(transaction: Option<&Transaction>) -> bool
    ensures { result ≡ committed_in (option_map (λ t. t.now) transaction.entry) }
{
    match transaction {
        Some(transaction) => transaction.committed,
        None => false,
    }
}

/// The operations before this place.
fn before(operations: &[Operation], place: usize) -> &[Operation]
    ensures { result.now ≡ take place operations.now }
{
    &operations[..place.min(operations.len())]
}

/// The value of the transaction's last write at the key.
#[tactic(auto, unfolding(trace_rules::specs::Trace::last_of))]
fn last_of(operations: &[Operation], txn: usize, key: u64) -> Option<u64>
    ensures { result ≡ last_of operations.now txn key }
{
    let mut last = None;
    for operation in operations {
        last = written_by(txn, key, *operation).or(last);
    }
    last
}

/// The value that the operation writes for the transaction at the key.
fn written_by(txn: usize, key: u64, operation: Operation) -> Option<u64>
    ensures { result ≡ written_by txn key operation }
{
    match operation {
        Operation::Write {
            txn: writer,
            key: written,
            value,
        } if writer == txn && written == key => Some(value),
        _ => None,
    }
}

impl Wrong {
    /// What the field calls it.
    pub fn name(self) -> &'static str
        ensures { result.now ≡ wrong_name self }
    {
        match self {
            Wrong::Dirty => "dirty read (G1a)",
            Wrong::Intermediate => "intermediate read (G1b)",
            Wrong::NotOwn => "own write not read",
        }
    }
}
