// The edges that follow of those that are sure.
ghost use Rattle.std.specs.Prelude.{◌≡◌, ℕ, List, IfOk, OnOk};
ghost use Rattle.rising_numbers.specs.declared.Edge.{Edge};
ghost use Rattle.outer_reads.specs.declared.readings.Reading.{Reading};
ghost use Rattle.outer_reads.specs.declared.writings.Writing.{Writing};
ghost use Rattle.trace_edges.specs.Edges.{MayLay};
ghost use Rattle.version_orders.specs.Orders.{AreSure, AreWriters, IsOther, IsUnread, Task};

use crate::candidates::{Other, Unread, Writers, other_at, unread_at, writers_at};
use crate::paths::{Paths, number_at};
use asked_orders::Nodes;
use outer_reads::{Reading, Writing};
use rising_numbers::Edge;
use std::alloc::{AllocError, Global};
use std::collections::HashMap;

/// At how many versions of a reading's key a round looks.
const LOOKS: usize = 6;

/// How many times all edges a round may look at, in search of paths, and how many more.
const SHARE: usize = 4;

const SPARE: usize = 65_536;

/// The edges that were added, by their ends.
#[derive(Drop)]
pub struct Laid {
    edges: HashMap<(usize, usize), ()>,
    /// Whether one was added that nobody was told of yet.
    news: bool,
    /// In how many rounds more edges may be added.
    rounds: usize,
}

impl Laid {
    /// None yet, of so many rounds to come.
    pub fn new(alloc: Global, rounds: usize) -> Laid {
        Laid {
            edges: HashMap::new(alloc),
            news: true,
            rounds,
        }
    }

    /// Begins a round, where one is left.
    fn begin(&mut self) -> bool {
        let left = self.rounds;
        self.rounds = left.saturating_sub(1);
        left > 0
    }

    /// Whether an edge was added since this was asked for the last time, or it is asked for the first time.
    pub fn take_news(&mut self) -> bool {
        let news = self.news;
        self.news = false;
        news
    }

    fn has(&self, edge: Edge) -> bool {
        self.edges.contains_key(&(edge.from, edge.to))
    }

    fn note(&mut self, edge: Edge) -> Result<(), AllocError> {
        self.edges.insert((edge.from, edge.to), ())?;
        self.news = true;
        Ok(())
    }
}

/// Adds edges that follow of those which are sure: between neighbours of the order that a path leads between, and between readers
/// and versions near what they read. The numbers rise along the edges; the order has the versions of each key by their writers'
/// numbers; and for each reading the place is given of what was read. Numbers, order and places are hints. It takes a time in
/// proportion to n log n, and leaves out what it does not find in it. Once the rounds are over it adds none. AllocError where
/// memory is refused.
pub fn add_orders(
    alloc: Global,
    readings: &[Reading],
    places: &[usize],
    order: &[Writing],
    numbers: &[usize],
    edges: &mut Vec<Edge>,
    laid: &mut Laid,
    nodes: Nodes,
) -> Result<(), AllocError>
    ensures { OnOk result ((task : Task) → AreSure task readings.now order.now nodes edges.old.items → AreSure task readings.now order.now nodes edges.new.items) }
{
    if !laid.begin() {
        return Ok(());
    }
    let left = edges.len().saturating_mul(SHARE).saturating_add(SPARE);
    let mut paths = Paths::new(alloc, nodes.all, edges, left)?;
    for place in 1..order.len() {
        order_versions(edges, &mut paths, laid, order, numbers, place, nodes)?;
    }
    for i in 0..readings.len() {
        let place = number_at(places, i);
        order_reading(
            edges, &mut paths, laid, readings, order, numbers, i, place, nodes,
        )?;
    }
    Ok(())
}

/// Orders the version at the place and the one before it, where a path does.
fn order_versions(
    edges: &mut Vec<Edge>,
    paths: &mut Paths,
    laid: &mut Laid,
    order: &[Writing],
    numbers: &[usize],
    place: usize,
    nodes: Nodes,
) -> Result<(), AllocError>
    ensures { OnOk result ((task : Task) (readings : List Reading) → AreSure task readings order.now nodes edges.old.items → AreSure task readings order.now nodes edges.new.items) }
{
    match writers_at(order, place.saturating_sub(1), place, nodes) {
        None => Ok(()),
        Some(writers) => lay_path(edges, paths, laid, numbers, nodes, writers),
    }
}

/// Orders the reader and versions near what it read.
fn order_reading(
    edges: &mut Vec<Edge>,
    paths: &mut Paths,
    laid: &mut Laid,
    readings: &[Reading],
    order: &[Writing],
    numbers: &[usize],
    i: usize,
    place: usize,
    nodes: Nodes,
) -> Result<(), AllocError>
    ensures { OnOk result ((task : Task) → AreSure task readings.now order.now nodes edges.old.items → AreSure task readings.now order.now nodes edges.new.items) }
{
    let behind = first_behind(readings, order, numbers, i);
    for look in 0..LOOKS {
        let j = looked_at(look, place, behind);
        order_none(edges, laid, readings, order, i, j, nodes)?;
        order_other(edges, paths, laid, readings, order, numbers, i, j, nodes)?;
    }
    Ok(())
}

fn order_none(
    edges: &mut Vec<Edge>,
    laid: &mut Laid,
    readings: &[Reading],
    order: &[Writing],
    i: usize,
    j: usize,
    nodes: Nodes,
) -> Result<(), AllocError>
    ensures { OnOk result ((task : Task) → AreSure task readings.now order.now nodes edges.old.items → AreSure task readings.now order.now nodes edges.new.items) }
{
    match unread_at(readings, order, i, j, nodes) {
        None => Ok(()),
        Some(unread) => lay_none(edges, laid, nodes, unread),
    }
}

fn order_other(
    edges: &mut Vec<Edge>,
    paths: &mut Paths,
    laid: &mut Laid,
    readings: &[Reading],
    order: &[Writing],
    numbers: &[usize],
    i: usize,
    j: usize,
    nodes: Nodes,
) -> Result<(), AllocError>
    ensures { OnOk result ((task : Task) → AreSure task readings.now order.now nodes edges.old.items → AreSure task readings.now order.now nodes edges.new.items) }
{
    match other_at(readings, order, i, j, nodes) {
        None => Ok(()),
        Some(other) => {
            lay_missed(edges, paths, laid, numbers, nodes, other)?;
            lay_seen(edges, paths, laid, numbers, nodes, other)
        }
    }
}

/// From the commit of the first writer to the start of the second, where a path leads from the first one's start to the
/// second one's commit.
fn lay_path(
    edges: &mut Vec<Edge>,
    paths: &mut Paths,
    laid: &mut Laid,
    numbers: &[usize],
    nodes: Nodes,
    writers: Writers,
) -> Result<(), AllocError>
    ensures { OnOk result ((task : Task) (readings : List Reading) (order : List Writing) → AreWriters order nodes writers.first writers.second →
        AreSure task readings order nodes edges.old.items → AreSure task readings order nodes edges.new.items) }
{
    let edge = Edge {
        from: writers.first.commit,
        to: writers.second.start,
    };
    if laid.has(edge) {
        return Ok(());
    }
    if paths.lead(edges, numbers, writers.first.start, writers.second.commit)? {
        lay(edges, laid, nodes.points, edge)
    } else {
        Ok(())
    }
}

/// From the reader to the commit of a writer whose version comes after what was read.
fn lay_missed(
    edges: &mut Vec<Edge>,
    paths: &mut Paths,
    laid: &mut Laid,
    numbers: &[usize],
    nodes: Nodes,
    other: Other,
) -> Result<(), AllocError>
    ensures { OnOk result ((task : Task) (readings : List Reading) (order : List Writing) → IsOther readings order nodes other.reader other.source other.writer →
        AreSure task readings order nodes edges.old.items → AreSure task readings order nodes edges.new.items) }
{
    let edge = Edge {
        from: other.reader,
        to: other.writer.commit,
    };
    if laid.has(edge) {
        return Ok(());
    }
    if paths.lead(edges, numbers, other.source.commit, other.writer.start)? {
        lay(edges, laid, nodes.points, edge)
    } else {
        Ok(())
    }
}

/// From the commit of a writer whose version was there for the reader to the start of the one that was read.
fn lay_seen(
    edges: &mut Vec<Edge>,
    paths: &mut Paths,
    laid: &mut Laid,
    numbers: &[usize],
    nodes: Nodes,
    other: Other,
) -> Result<(), AllocError>
    ensures { OnOk result ((task : Task) (readings : List Reading) (order : List Writing) → IsOther readings order nodes other.reader other.source other.writer →
        AreSure task readings order nodes edges.old.items → AreSure task readings order nodes edges.new.items) }
{
    let edge = Edge {
        from: other.writer.commit,
        to: other.source.start,
    };
    if laid.has(edge) {
        return Ok(());
    }
    if paths.lead(edges, numbers, other.writer.commit, other.reader)? {
        lay(edges, laid, nodes.points, edge)
    } else {
        Ok(())
    }
}

/// From a reader that found nothing to the commit of a writer of the key.
fn lay_none(
    edges: &mut Vec<Edge>,
    laid: &mut Laid,
    nodes: Nodes,
    unread: Unread,
) -> Result<(), AllocError>
    ensures { OnOk result ((task : Task) (readings : List Reading) (order : List Writing) → IsUnread readings order nodes unread.reader unread.writer →
        AreSure task readings order nodes edges.old.items → AreSure task readings order nodes edges.new.items) }
{
    let edge = Edge {
        from: unread.reader,
        to: unread.writer.commit,
    };
    if laid.has(edge) {
        return Ok(());
    }
    lay(edges, laid, nodes.points, edge)
}

/// Lays an edge, where it is between points.
fn lay(edges: &mut Vec<Edge>, laid: &mut Laid, points: usize, edge: Edge) -> Result<(), AllocError>
    ensures { OnOk result (MayLay points edge edges.old.items edges.new.items) }
{
    laid.note(edge)?;
    if edge.from < points && edge.to < points {
        edges.push(edge)?;
    }
    Ok(())
}

/// The versions at which is looked: those around what was read, and the last ones whose writers' numbers are below the reader's.
fn looked_at(look: usize, place: usize, behind: usize) -> usize {
    match look {
        0 => place,
        1 => place.saturating_add(1),
        2 => place.saturating_add(2),
        3 => place.saturating_sub(1),
        4 => behind.saturating_sub(1),
        _ => behind.saturating_sub(2),
    }
}

/// The place of the first version that does not stand before the reader, by key and number.
fn first_behind(readings: &[Reading], order: &[Writing], numbers: &[usize], i: usize) -> usize {
    match readings.get(i) {
        None => 0,
        Some(reading) => {
            first_above(order, numbers, reading.key, number_at(numbers, reading.txn))
        }
    }
}

fn first_above(order: &[Writing], numbers: &[usize], key: u64, number: usize) -> usize {
    let mut low = 0;
    let mut high = order.len();
    while low < high {
        let middle = low + (high - low) / 2;
        if is_before(order[middle], numbers, key, number) {
            low = middle + 1;
        } else {
            high = middle;
        }
    }
    low
}

fn is_before(version: Writing, numbers: &[usize], key: u64, number: usize) -> bool {
    version.key < key || version.key == key && number_at(numbers, version.txn) < number
}
