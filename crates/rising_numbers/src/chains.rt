// The edges to each node, one behind another.
ghost use Rattle.std.specs.Prelude.{◌≡◌, ◌+◌, ◌^◌, ◌<◌, length, IfOk, slice_index};
ghost use Rattle.rising_numbers.specs.Rises.{AreWithin};
ghost use Rattle.rising_numbers.specs.Walks.{Chained};

use crate::Edge;
use std::alloc::{AllocError, Global};

/// For each node the last edge that leads to it, and for each edge the one before it to the same node: places and one, 0 where
/// there is none.
#[derive(Drop)]
pub struct Chains {
    /// For each node, one more than the place of the last edge that leads to it; 0 where none does.
    pub heads: Vec<usize>,
    /// For each edge, one more than the place of the one before it to the same node; 0 where there is none.
    pub nexts: Vec<usize>,
}

/// The chains of these edges, whose ends are below `nodes`. AllocError where memory is refused.
pub fn chained(alloc: Global, nodes: usize, edges: &[Edge]) -> Result<Chains, AllocError>
    requires { AreWithin nodes edges.now }
    ensures chained { IfOk result (λ c. Chained edges.now c.heads.items c.nexts.items (length edges.now)) }
    ensures few { IfOk result (λ c. length edges.now < 2 ^ 63) }
    ensures heads { IfOk result (λ c. length c.heads.items ≡ nodes) }
    ensures nexts { IfOk result (λ c. length c.nexts.items ≡ length edges.now) }
{
    let mut heads = vec![in alloc; 0; nodes]?;
    let mut nexts = vec![in alloc; 0; edges.len()]?;
    for place in 0..edges.len() {
        link(&mut heads, &mut nexts, edges, place);
    }
    Ok(Chains { heads, nexts })
}

/// Puts the edge at the place before the earlier ones to its node.
fn link(heads: &mut [usize], nexts: &mut [usize], edges: &[Edge], place: usize)
    requires chained { Chained edges.now heads.old nexts.old place }
    requires within { AreWithin (length heads.old) edges.now }
    requires place { place < length edges.now }
    requires nexts { length nexts.old ≡ length edges.now }
    ensures chained { Chained edges.now heads.new nexts.new (place + 1) }
    ensures heads { length heads.new ≡ length heads.old }
    ensures nexts { length nexts.new ≡ length nexts.old }
{
    let node = edges[place].to;
    nexts[place] = heads[node];
    heads[node] = place + 1;
}
