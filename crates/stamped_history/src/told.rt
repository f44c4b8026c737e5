// What a history is told by.
ghost use Rattle.std.specs.Prelude.{◌≡◌, IfOk, length};
ghost use Rattle.stamped_history.specs.Order.{ArePlaced, HaveNodes};
ghost use Rattle.stamped_history.specs.Told.{Ascends};

use crate::keys::{ascend, keys_of};
use crate::limits::{Limit, NoHistory};
use crate::order::{nodes_of, ranks_of};
use crate::placed::{are_placed, have_nodes};
use crate::seats::seats_of;
use std::alloc::Global;
use trace_rules::{Level, Trace};

/// The nodes of a trace of so many transactions in the order of their stamps, each node's rank, each transaction's session, and the
/// keys.
#[derive(Drop)]
pub struct Told {
    /// How many transactions the trace has.
    pub count: usize,
    /// The nodes, in the order of their stamps.
    pub nodes: Vec<usize>,
    /// The rank of each node.
    pub ranks: Vec<usize>,
    /// The session of each transaction.
    pub seats: Vec<usize>,
    /// The numbers of the keys.
    pub keys: Vec<u64>,
}

/// What the history of the trace is told by, with stamps in the order of those that the numbers make. Past where a limit of
/// histories is not met; NoMemory where memory is refused.
pub fn told_of(
    alloc: Global,
    level: Level,
    trace: &Trace,
    numbers: &[usize],
) -> Result<Told, NoHistory>
    ensures count { IfOk result (λ told. told.count ≡ length trace.now.transactions) }
    ensures placed { IfOk result (λ told. ArePlaced level trace.now.transactions numbers.now told.nodes.items told.ranks.items (length told.nodes.items)) }
    ensures nodes { IfOk result (λ told. HaveNodes trace.now.transactions told.nodes.items (length trace.now.transactions)) }
    ensures keys { IfOk result (λ told. Ascends told.keys.items (length told.keys.items)) }
{
    let count = trace.transactions.len();
    let nodes = nodes_of(alloc, level, &trace.transactions, numbers)?;
    let ranks = ranks_of(alloc, count, &nodes)?;
    let keys = keys_of(alloc, &trace.operations)?;
    if !are_placed(level, &trace.transactions, numbers, &nodes, &ranks)
        || !have_nodes(&trace.transactions, &nodes, &ranks)
    {
        return Err(NoHistory::Past(Limit::Stamps));
    }
    if !ascend(&keys) {
        return Err(NoHistory::Past(Limit::Keys));
    }
    let seats = seats_of(alloc, count, &nodes)?;
    Ok(Told {
        count,
        nodes,
        ranks,
        seats,
        keys,
    })
}
