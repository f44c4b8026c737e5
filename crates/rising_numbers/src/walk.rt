// A walk against the edges, which gives each node its number once all from which edges lead to it have theirs.
ghost use Rattle.std.specs.Prelude.{◌≡◌, ◌↔◌, ℕ, ◌+◌, ◌-◌, ◌^◌, ◌<◌, [], None, Some, IfOk, IsTrue, MatchOption, OnOk, length, slice_get, slice_index};
ghost use Rattle.rising_numbers.specs.declared.Edge.{Edge};
ghost use Rattle.rising_numbers.specs.Rises.{AreWithin, IsCycle};
ghost use Rattle.rising_numbers.specs.Walks.{AreAsMany, Chained, HasCome, HasLess, HasNumbered, HasPassed, IsLast, Meets, Waited, Walked};

use crate::Edge;
use crate::chains::Chains;
use std::alloc::{AllocError, Global};

/// How far the walk has come.
#[derive(Drop)]
pub struct Walk {
    /// How much of its chain is ahead of a node: 0 once it has its number, 1 at the end of the chain, above that two more than
    /// the place of its next edge; and two more than its head before the walk came to it.
    pub ahead: Vec<usize>,
    /// The number of each node that has one.
    pub numbers: Vec<usize>,
    /// The nodes that wait for a number, each for the next one.
    pub path: Vec<usize>,
    /// Those that have one, in the order of their numbers.
    pub sequence: Vec<usize>,
}

impl Walk {
    /// A walk that has come to no node yet. AllocError where memory is refused.
    pub fn new(
        alloc: Global,
        nodes: usize,
        edges: &[Edge],
        chains: &Chains,
    ) -> Result<Walk, AllocError>
        requires chained { Chained edges.now chains.now.heads.items chains.now.nexts.items (length edges.now) }
        requires within { AreWithin nodes edges.now }
        requires heads { length chains.now.heads.items ≡ nodes }
        requires few { length edges.now < 2 ^ 63 }
        ensures walked { IfOk result (λ w. Walked edges.now chains.now.heads.items w) }
        ensures nodes { IfOk result (λ w. length w.ahead.items ≡ nodes) }
        ensures path { IfOk result (λ w. w.path.items ≡ []) }
    {
        let mut ahead = vec![in alloc; 0; nodes]?;
        for node in 0..nodes {
            ahead[node] = chains.heads[node] + 2;
        }
        let numbers = vec![in alloc; 0; nodes]?;
        Ok(Walk {
            ahead,
            numbers,
            path: Vec::new(alloc),
            sequence: Vec::new(alloc),
        })
    }

    /// Gives a node its number, and with it all from which edges lead to it; or gives a node from which the last one of the path
    /// has its next edge, and which is on the path too. AllocError where memory is refused.
    pub fn visit(
        &mut self,
        edges: &[Edge],
        chains: &Chains,
        root: usize,
    ) -> Result<Option<usize>, AllocError>
        requires chained { Chained edges.now chains.now.heads.items chains.now.nexts.items (length edges.now) }
        requires walked { Walked edges.now chains.now.heads.items self.old }
        requires many { AreAsMany edges.now chains.now self.old }
        requires path { self.old.path.items ≡ [] }
        requires root { root < length self.old.ahead.items }
        ensures walked { IfOk result (λ met. MatchOption met (Waited edges.now chains.now.heads.items self.old self.new) (λ at. Meets edges.now chains.now.heads.items self.new at)) }
        ensures root { IfOk result (λ met. met ≡ None → slice_index self.new.ahead.items root ≡ 0) }
    {
        if self.is_new(chains, root) {
            self.come_to(chains, root)?;
            self.descend(edges, chains)
        } else {
            Ok(None)
        }
    }

    /// The edges from a node on the path to those before it, up to where the path came to it. AllocError where memory is refused.
    pub fn round(
        &self,
        alloc: Global,
        edges: &[Edge],
        chains: &Chains,
        met: usize,
    ) -> Result<Vec<usize>, AllocError>
        requires meets { Meets edges.now chains.now.heads.items self.now met }
        requires chained { Chained edges.now chains.now.heads.items chains.now.nexts.items (length edges.now) }
        ensures { IfOk result (λ places. IsCycle edges.now places.items) }
    {
        let mut places = Vec::new(alloc);
        for back in 0..self.path.len() {
            let node = self.path[self.path.len() - 1 - back];
            let left = self.ahead[node];
            places.push(left - 2)?;
            if node == met {
                return Ok(places);
            }
        }
        Ok(places)
    }

    fn is_new(&self, chains: &Chains, node: usize) -> bool
        requires ahead { node < length self.now.ahead.items }
        requires heads { length chains.now.heads.items ≡ length self.now.ahead.items }
        ensures { IsTrue result ↔ slice_index chains.now.heads.items node + 1 < slice_index self.now.ahead.items node }
    {
        self.ahead[node] >= 2 && self.ahead[node] - 2 >= chains.heads[node]
    }

    /// Puts a node that is new at the end of the path.
    fn come_to(&mut self, chains: &Chains, node: usize) -> Result<(), AllocError>
        requires ahead { node < length self.old.ahead.items }
        requires heads { length chains.now.heads.items ≡ length self.old.ahead.items }
        requires fits { slice_index chains.now.heads.items node + 1 < 2 ^ 64 }
        ensures { OnOk result (HasCome chains.now.heads.items self.old self.new node) }
    {
        self.path.push(node)?;
        self.ahead[node] = chains.heads[node] + 1;
        Ok(())
    }

    fn descend(&mut self, edges: &[Edge], chains: &Chains) -> Result<Option<usize>, AllocError>
        requires chained { Chained edges.now chains.now.heads.items chains.now.nexts.items (length edges.now) }
        requires walked { Walked edges.now chains.now.heads.items self.old }
        requires many { AreAsMany edges.now chains.now self.old }
        ensures { IfOk result (λ met. MatchOption met (Waited edges.now chains.now.heads.items self.old self.new) (λ at. Meets edges.now chains.now.heads.items self.new at)) }
    {
        'path: while !self.path.is_empty() {
            if let Some(met) = self.turn(edges, chains)? {
                return Ok(Some(met));
            }
        }
        Ok(None)
    }

    /// Looks at the next edge of the path's last node.
    fn turn(&mut self, edges: &[Edge], chains: &Chains) -> Result<Option<usize>, AllocError>
        requires chained { Chained edges.now chains.now.heads.items chains.now.nexts.items (length edges.now) }
        requires walked { Walked edges.now chains.now.heads.items self.old }
        requires many { AreAsMany edges.now chains.now self.old }
        requires some { 0 < length self.old.path.items }
        ensures walked { IfOk result (λ met. MatchOption met (Walked edges.now chains.now.heads.items self.new) (λ at. Meets edges.now chains.now.heads.items self.new at)) }
        ensures less { IfOk result (λ met. met ≡ None → HasLess self.old.ahead.items self.new.ahead.items) }
    {
        let node = self.last();
        let left = self.ahead[node];
        if left == 1 {
            self.number(node)?;
            Ok(None)
        } else {
            self.follow(edges, chains, node, left - 2)
        }
    }

    /// Passes the edge, comes to the node from which it leads, or finds this one on the path.
    fn follow(
        &mut self,
        edges: &[Edge],
        chains: &Chains,
        node: usize,
        place: usize,
    ) -> Result<Option<usize>, AllocError>
        requires chained { Chained edges.now chains.now.heads.items chains.now.nexts.items (length edges.now) }
        requires walked { Walked edges.now chains.now.heads.items self.old }
        requires many { AreAsMany edges.now chains.now self.old }
        requires last { IsLast self.old node }
        requires place { slice_index self.old.ahead.items node ≡ place + 2 }
        ensures walked { IfOk result (λ met. MatchOption met (Walked edges.now chains.now.heads.items self.new) (λ at. Meets edges.now chains.now.heads.items self.new at)) }
        ensures less { IfOk result (λ met. met ≡ None → HasLess self.old.ahead.items self.new.ahead.items) }
    {
        let from = start_of(edges, place);
        let there = self.ahead[from];
        if there == 0 {
            self.pass(chains, node, place);
            Ok(None)
        } else if self.is_new(chains, from) {
            self.come_to(chains, from)?;
            Ok(None)
        } else {
            Ok(Some(from))
        }
    }

    fn last(&self) -> usize
        requires { 0 < length self.now.path.items }
        ensures { IsLast self.now result }
    {
        self.path[self.path.len() - 1]
    }

    fn pass(&mut self, chains: &Chains, node: usize, place: usize)
        requires ahead { node < length self.old.ahead.items }
        requires place { place < length chains.now.nexts.items }
        requires fits { slice_index chains.now.nexts.items place + 1 < 2 ^ 64 }
        ensures { HasPassed chains.now.nexts.items self.old self.new node place }
    {
        self.ahead[node] = chains.nexts[place] + 1;
    }

    /// Gives the last node of the path its number.
    fn number(&mut self, node: usize) -> Result<(), AllocError>
        requires numbers { length self.old.numbers.items ≡ length self.old.ahead.items }
        requires node { node < length self.old.ahead.items }
        requires some { 0 < length self.old.path.items }
        ensures { OnOk result (HasNumbered self.old self.new node) }
    {
        self.sequence.push(node)?;
        self.path.truncate(self.path.len() - 1);
        self.ahead[node] = 0;
        self.numbers[node] = self.sequence.len();
        Ok(())
    }
}

fn start_of(edges: &[Edge], place: usize) -> usize
    requires { place < length edges.now }
    ensures { (edge : Edge) → slice_get edges.now place ≡ Some edge → result ≡ edge.from }
{
    edges[place].from
}
