// The name of a cycle.
ghost use Rattle.std.specs.Prelude.{◌≡◌, count_by};
ghost use Rattle.std.specs.List.{list_any};
ghost use Rattle.trace_report.specs.Names.{anomaly_name, is_lost_update, is_missed, is_next, is_read, meet_from, misses_meet, name_of, of_none, of_one, of_several, way_behind};

use crate::step::{Step, Way};

/// A cycle that no stamps can undo, in the field's words.
#[derive(Clone, Copy, Debug, PartialEq, Eq)]
pub enum Anomaly {
    /// G0: writes alone go round.
    WriteCycle,
    /// G1c: writes and reads of them go round.
    CircularInformation,
    /// Two wrote a key, and one of them had not seen what the other wrote.
    LostUpdate,
    /// G-single: one read misses something, and the rest leads back to the reader.
    SingleMiss,
    /// Each of two misses what the other writes.
    WriteSkew,
    /// Reads that miss something, none just behind another: readers saw two writes in different orders.
    LongFork,
    /// G2-item: several reads miss something, one just behind another.
    ItemCycle,
}

/// The name of a cycle, each of whose steps leads to where the next begins, the last one to the first.
pub fn name_of(steps: &[Step]) -> Anomaly
    ensures { result ≡ name_of steps.now }
{
    let missed = missed(steps);
    if missed == 0 {
        of_none(steps)
    } else if missed == 1 {
        of_one(steps)
    } else {
        of_several(steps)
    }
}

/// How many steps are reads that missed something.
fn missed(steps: &[Step]) -> usize
    ensures { result ≡ count_by (λ step. is_missed step.way) steps.now }
{
    steps.iter().filter(|step| is_missed(step.way)).count()
}

fn is_missed(way: Way) -> bool
    ensures { result ≡ is_missed way }
{
    match way {
        Way::Missed => true,
        Way::Next | Way::Read | Way::Session | Way::Time => false,
    }
}

fn is_read(way: Way) -> bool
    ensures { result ≡ is_read way }
{
    match way {
        Way::Read => true,
        Way::Next | Way::Missed | Way::Session | Way::Time => false,
    }
}

fn of_none(steps: &[Step]) -> Anomaly
    ensures { result ≡ of_none steps.now }
{
    if has_read(steps) {
        Anomaly::CircularInformation
    } else {
        Anomaly::WriteCycle
    }
}

/// Whether a step is a read of what was written.
fn has_read(steps: &[Step]) -> bool
    ensures { result ≡ list_any (λ step. is_read step.way) steps.now }
{
    steps.iter().any(|step| is_read(step.way))
}

fn of_one(steps: &[Step]) -> Anomaly
    ensures { result ≡ of_one steps.now }
{
    if is_lost_update(steps) {
        Anomaly::LostUpdate
    } else {
        Anomaly::SingleMiss
    }
}

/// Whether two steps at one key go round, one of which leads to the next version.
fn is_lost_update(steps: &[Step]) -> bool
    ensures { result ≡ is_lost_update steps.now }
{
    match steps {
        [one, other] => one.key == other.key && (is_next(one.way) || is_next(other.way)),
        _ => false,
    }
}

fn is_next(way: Way) -> bool
    ensures { result ≡ is_next way }
{
    match way {
        Way::Next => true,
        Way::Read | Way::Missed | Way::Session | Way::Time => false,
    }
}

fn of_several(steps: &[Step]) -> Anomaly
    ensures { result ≡ of_several steps.now }
{
    if steps.len() == 2 {
        Anomaly::WriteSkew
    } else if misses_meet(steps) {
        Anomaly::ItemCycle
    } else {
        Anomaly::LongFork
    }
}

/// Whether a read that missed something stands just behind another.
fn misses_meet(steps: &[Step]) -> bool
    ensures { result ≡ misses_meet steps.now }
{
    match steps {
        [first, ..] => meet_from(first.way, steps),
        [] => false,
    }
}

/// Whether a read that missed something stands just behind another among the last steps of a cycle that begins with a step of
/// this way.
fn meet_from(first: Way, steps: &[Step]) -> bool
    ensures { result ≡ meet_from first steps.now }
{
    let mut left = steps;
    while let [one, rest @ ..] = left {
        if is_missed(one.way) && is_missed(way_behind(first, rest)) {
            return true;
        }
        left = rest;
    }
    false
}

/// The way of the first of these steps, or, where there is none, that of the cycle's first.
fn way_behind(first: Way, steps: &[Step]) -> Way
    ensures { result ≡ way_behind first steps.now }
{
    match steps {
        [next, ..] => next.way,
        [] => first,
    }
}

impl Anomaly {
    /// What the field calls it.
    pub fn name(self) -> &'static str
        ensures { result.now ≡ anomaly_name self }
    {
        match self {
            Anomaly::WriteCycle => "G0",
            Anomaly::CircularInformation => "G1c",
            Anomaly::LostUpdate => "lost update",
            Anomaly::SingleMiss => "G-single",
            Anomaly::WriteSkew => "write skew",
            Anomaly::LongFork => "long fork",
            Anomaly::ItemCycle => "G2-item",
        }
    }
}
