// Paths of edges.
ghost use Rattle.std.specs.Prelude.{◌≡◌, true, IfOk};
ghost use Rattle.version_orders.specs.Orders.{IsStep, Lead};

use rising_numbers::Edge;
use std::alloc::{AllocError, Global};

/// To how many nodes a search comes.
const NODES: usize = 64;

/// At how many of the edges to a node it looks.
const EDGES: usize = 32;

/// Searches for paths, against the edges. What they find is tested.
#[derive(Drop)]
pub struct Paths {
    /// For each node the last edge that leads to it, and for each edge the one before it to the same node: places and one, 0 where
    /// there is none.
    heads: Vec<usize>,
    nexts: Vec<usize>,
    /// For each node the last search that came to it, and the place of the edge by which it did.
    searches: Vec<usize>,
    ways: Vec<usize>,
    search: usize,
    /// The nodes to which this search came, and the places of the edges that it found.
    came: Vec<usize>,
    path: Vec<usize>,
    /// At how many edges all searches may still look.
    left: usize,
}

impl Paths {
    /// Paths of these edges between so many nodes, where searches may look at `left` edges in all. AllocError where memory is
    /// refused.
    pub fn new(
        alloc: Global,
        nodes: usize,
        edges: &[Edge],
        left: usize,
    ) -> Result<Paths, AllocError> {
        let mut paths = Paths {
            heads: vec![in alloc; 0; nodes]?,
            nexts: vec![in alloc; 0; edges.len()]?,
            searches: vec![in alloc; 0; nodes]?,
            ways: vec![in alloc; 0; nodes]?,
            search: 0,
            came: Vec::new(alloc),
            path: Vec::new(alloc),
            left,
        };
        for place in 0..edges.len() {
            let node = edges[place].to;
            put(&mut paths.nexts, place, number_at(&paths.heads, node));
            put(&mut paths.heads, node, place.saturating_add(1));
        }
        Ok(paths)
    }

    /// Whether a path was found from one node to another, along which these numbers rise. AllocError where memory is refused.
    pub fn lead(
        &mut self,
        edges: &[Edge],
        numbers: &[usize],
        from: usize,
        to: usize,
    ) -> Result<bool, AllocError>
        ensures { IfOk result (λ found. found ≡ true → Lead edges.now from to) }
    {
        self.find(edges, numbers, from, to)?;
        Ok(is_path(edges, from, &self.path, to))
    }

    fn find(
        &mut self,
        edges: &[Edge],
        numbers: &[usize],
        from: usize,
        to: usize,
    ) -> Result<(), AllocError> {
        self.path.truncate(0);
        self.came.truncate(0);
        if number_at(numbers, from) >= number_at(numbers, to) {
            return Ok(());
        }
        self.search = self.search.saturating_add(1);
        self.came.push(to)?;
        for turn in 0..NODES {
            if turn >= self.came.len() {
                return Ok(());
            }
            let node = number_at(&self.came, turn);
            if self.look(edges, numbers, from, node)? {
                return self.note(edges, from, to);
            }
        }
        Ok(())
    }

    /// Looks at the edges to a node, and tells whether one comes from where the path is to begin.
    fn look(
        &mut self,
        edges: &[Edge],
        numbers: &[usize],
        from: usize,
        node: usize,
    ) -> Result<bool, AllocError> {
        let mut head = number_at(&self.heads, node);
        for turn in 0..EDGES {
            if head == 0 || self.left == 0 {
                return Ok(false);
            }
            self.left -= 1;
            let start = start_of(edges, head - 1);
            if number_at(numbers, from) <= number_at(numbers, start) {
                self.come_to(start, head - 1)?;
            }
            if start == from {
                return Ok(true);
            }
            head = number_at(&self.nexts, head - 1);
        }
        Ok(false)
    }

    fn come_to(&mut self, node: usize, way: usize) -> Result<(), AllocError> {
        if number_at(&self.searches, node) == self.search {
            return Ok(());
        }
        put(&mut self.searches, node, self.search);
        put(&mut self.ways, node, way);
        self.came.push(node)?;
        Ok(())
    }

    /// Notes the edges by which the search came from one node to the other.
    fn note(&mut self, edges: &[Edge], from: usize, to: usize) -> Result<(), AllocError> {
        let mut node = from;
        for turn in 0..NODES {
            if node == to {
                return Ok(());
            }
            let way = number_at(&self.ways, node);
            self.path.push(way)?;
            node = end_of(edges, way);
        }
        Ok(())
    }
}

/// Whether the edges at the places lead, one after another, from one node to another.
fn is_path(edges: &[Edge], from: usize, path: &[usize], to: usize) -> bool
    ensures { result ≡ true → Lead edges.now from to }
{
    let mut node = from;
    for i in 0..path.len() {
        let next = end_of(edges, path[i]);
        if !is_step(edges, path[i], node, next) {
            return false;
        }
        node = next;
    }
    path.len() > 0 && node == to
}

fn is_step(edges: &[Edge], place: usize, from: usize, to: usize) -> bool
    ensures { result ≡ true → IsStep edges.now place from to }
{
    match edges.get(place) {
        None => false,
        Some(edge) => edge.from == from && edge.to == to,
    }
}

fn start_of(edges: &[Edge], place: usize) -> usize {
    match edges.get(place) {
        None => 0,
        Some(edge) => edge.from,
    }
}

fn end_of(edges: &[Edge], place: usize) -> usize {
    match edges.get(place) {
        None => 0,
        Some(edge) => edge.to,
    }
}

/// The number at the place; 0 past the end.
pub fn number_at(numbers: &[usize], place: usize) -> usize {
    match numbers.get(place) {
        None => 0,
        Some(number) => *number,
    }
}

fn put(numbers: &mut [usize], place: usize, number: usize) {
    if place < numbers.len() {
        numbers[place] = number;
    }
}
