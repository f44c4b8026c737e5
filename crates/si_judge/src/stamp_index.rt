// An index of stamps, which finds the places where the rule on stamps may be broken.
ghost use Rattle.std.specs.Prelude.{◌≡◌, false, IfOk, OnOk};
ghost use Rattle.si_judge.specs.StampSets.{Has, HasAll};
ghost use Rattle.si_judge.specs.Suspects.{AreSuspects};

use history_book::Item;
use isolation_rules::Rule;
use stamp_base::{NoMemory, Stamp};
use std::alloc::Global;
use std::collections::HashSet;

/// Whether each place is a suspect. The items are taken from the last to the first, and the stamps of those behind are kept.
/// NoMemory where memory is refused.
#[tactic(auto, using(crate::proofs::StampIndexLemmas::behind_none, crate::proofs::SuspectLemmas::marked_pass))]
pub fn stamp_suspects(alloc: Global, items: &[Item]) -> Result<Vec<bool>, NoMemory>
    ensures { IfOk result (λ suspects. AreSuspects Rule.Stamped items.now suspects.items) }
{
    let mut suspects = vec![in alloc; true; items.len()]?;
    let mut later = Stamps::new(alloc);
    for place in (0..items.len()).rev() {
        suspects[place] = later.may_meet(&items[place]);
        later.add(&items[place])?;
    }
    Ok(suspects)
}

/// The stamps of some items.
#[derive(Drop)]
struct Stamps {
    /// The starts of placed items.
    placed: HashSet<u64>,
    /// The starts of begins, and the commits.
    drawn: HashSet<u64>,
}

impl Stamps {
    ghost use Rattle.si_judge.specs.StampIndex.{HasStamps, KeepsStamps, IsClear};

    fn new(alloc: Global) -> Stamps {
        Stamps {
            placed: HashSet::new(alloc),
            drawn: HashSet::new(alloc),
        }
    }

    /// Whether the item commits too low, or has a stamp that is kept here and that it may not share.
    fn may_meet(&self, item: &Item) -> bool
        ensures { result ≡ false → IsClear self.now item.now }
    {
        match item {
            Item::Begin { start, .. } => self.drawn.contains(&start.value()),
            Item::Placed { start, commit } => {
                *commit <= *start
                    || self.placed.contains(&start.value())
                    || self.drawn.contains(&commit.value())
            }
            _ => false,
        }
    }

    fn add(&mut self, item: &Item) -> Result<(), NoMemory>
        ensures added { OnOk result (HasStamps self.new item.now) }
        ensures kept { OnOk result (KeepsStamps self.old self.new) }
    {
        match item {
            Item::Begin { start, .. } => keep(&mut self.drawn, *start),
            Item::Placed { start, commit } => {
                keep(&mut self.placed, *start)?;
                keep(&mut self.drawn, *commit)
            }
            _ => Ok(()),
        }
    }
}

fn keep(stamps: &mut HashSet<u64>, stamp: Stamp) -> Result<(), NoMemory>
    ensures added { OnOk result (Has stamps.new stamp) }
    ensures kept { OnOk result (HasAll stamps.old stamps.new) }
{
    stamps.insert(stamp.value())?;
    Ok(())
}
