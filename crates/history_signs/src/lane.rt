// In which lane an item's sign stands, and which lanes there are.
ghost use Rattle.std.specs.Prelude.{◌≡◌, ◌<◌, ◌≤◌, suc, ltb, if◌then◌else◌, length, IfOk};
ghost use Rattle.history_signs.specs.Lanes.{actor_lane, lane_of, lanes_below, lanes_for, occurs, row_of};

use crate::chosen::Chosen;
use history_book::{Actor, Item};
use stamp_base::NoMemory;
use std::alloc::Global;

/// The number of lanes: the clock's, one for each node, the commit table's, one for each session, and the janitor's.
pub const LANES: usize = 27;

const CLOCK: usize = 0;

const FIRST_NODE: usize = 1;

const TABLE: usize = 9;

const FIRST_SESSION: usize = 10;

const JANITOR: usize = 26;

fn actor_lane(actor: Actor) -> usize
    ensures lane { result ≡ actor_lane actor }
    ensures within { result < 27 }
{
    match actor {
        Actor::Clock => CLOCK,
        Actor::Node(node) => FIRST_NODE + node.index(),
        Actor::Session(session) => FIRST_SESSION + session.index(),
        Actor::Janitor => JANITOR,
    }
}

/// The lane in which the item's sign stands.
pub fn lane_of(item: &Item) -> usize
    ensures lane { result ≡ lane_of item.now }
    ensures within { result < 27 }
{
    match *item {
        Item::Tick { .. } => CLOCK,
        Item::Placed { .. } => TABLE,
        Item::Take { node, .. }
        | Item::Renew { node, .. }
        | Item::Extend { node, .. }
        | Item::Accept { node, .. }
        | Item::Draw { node, .. }
        | Item::Crash { node, .. } => actor_lane(Actor::Node(node)),
        Item::AskBegin { session, .. }
        | Item::AskCommit { session, .. }
        | Item::Begin { session, .. }
        | Item::Write { session, .. }
        | Item::Read { session, .. }
        | Item::Committed { session, .. }
        | Item::End { session, .. }
        | Item::Vanish { session } => actor_lane(Actor::Session(session)),
        Item::Note { actor, .. }
        | Item::Mark { actor, .. }
        | Item::Step { actor, .. }
        | Item::Refused { actor, .. }
        | Item::Fault { actor, .. } => actor_lane(actor),
    }
}

/// The lanes in which signs stand, from top to bottom. NoMemory where memory is refused.
#[tactic(auto, unfolding(crate::specs::Lanes::lanes_below))]
pub fn lanes_of(alloc: Global, chosen: &[Chosen]) -> Result<Vec<usize>, NoMemory>
    ensures { IfOk result (λ lanes. lanes.items ≡ lanes_for chosen.now) }
{
    let mut lanes = Vec::new(alloc);
    for lane in 0..LANES {
        add_lane(&mut lanes, chosen, lane)?;
    }
    Ok(lanes)
}

/// Adds the lane where a sign stands in it.
#[tactic(auto, unfolding(crate::specs::Lanes::lanes_below))]
fn add_lane(lanes: &mut Vec<usize>, chosen: &[Chosen], lane: usize) -> Result<(), NoMemory>
    requires { lanes.old.items ≡ lanes_below lane chosen.now }
    ensures { IfOk result (λ _. lanes.new.items ≡ lanes_below (suc lane) chosen.now) }
{
    if occurs(chosen, lane) {
        lanes.push(lane)?;
    }
    Ok(())
}

#[tactic(auto, unfolding(crate::specs::Lanes::occurs))]
fn occurs(chosen: &[Chosen], lane: usize) -> bool
    ensures { result ≡ occurs lane chosen.now }
{
    for one in chosen {
        if lane_of(&one.item) == lane {
            return true;
        }
    }
    false
}

/// The row of a lane: so many of the lanes are above it.
#[tactic(auto, unfolding(crate::specs::Lanes::row_of))]
pub fn row_of(lane: usize, lanes: &[usize]) -> usize
    ensures row { result ≡ row_of lane lanes.now }
    ensures within { result ≤ length lanes.now }
{
    let mut row = 0;
    for other in lanes {
        row += above(*other, lane);
    }
    row
}

fn above(other: usize, lane: usize) -> usize
    ensures above { result ≡ (if ltb other lane then 1 else 0) }
    ensures few { result ≤ 1 }
{
    if other < lane { 1 } else { 0 }
}
