// An index of the asks for starts, which finds the places where the rule on starts may be broken.
ghost use Rattle.std.specs.Prelude.{◌≡◌, ◌<◌, ◌+◌, ℕ, false, length, vec_len, IfOk};
ghost use Rattle.si_judge.specs.AskStarts.{HasStarts, IsBelow, IsNotAbove};
ghost use Rattle.si_judge.specs.Suspects.{AreSuspects};

use history_book::Item;
use isolation_rules::Rule;
use stamp_base::{NoMemory, SessionNo, Stamp};
use std::alloc::Global;

/// Whether each place is a suspect. The places are taken from the last to the first, and the least start of the begins that were
/// asked for behind is kept. NoMemory where memory is refused.
pub fn start_suspects(alloc: Global, items: &[Item]) -> Result<Vec<bool>, NoMemory>
    ensures { IfOk result (λ suspects. AreSuspects Rule.Fresh items.now suspects.items) }
{
    let starts = asked_starts(alloc, items)?;
    let mut suspects = vec![in alloc; true; items.len()]?;
    let mut least = None;
    for place in (0..items.len()).rev() {
        suspects[place] = may_be_stale(&items[place], &least);
        least = earlier(&least, &starts[place]);
    }
    Ok(suspects)
}

/// At each place the least start of the begins that were asked for there.
fn asked_starts(alloc: Global, items: &[Item]) -> Result<Vec<Option<Stamp>>, NoMemory>
    ensures length { IfOk result (λ starts. vec_len starts ≡ length items.now) }
    ensures starts { IfOk result (λ starts. HasStarts items.now (length items.now) starts.items) }
{
    let mut asked = Asked::new(alloc, items)?;
    for place in 0..items.len() {
        asked.note(items, place);
    }
    Ok(asked.starts)
}

/// Whether the item is a commit that is not below the start.
fn may_be_stale(item: &Item, least: &Option<Stamp>) -> bool
    ensures { result ≡ false → IsBelow item.now least.now }
{
    match item {
        Item::Placed { commit, .. } => is_not_above(least, *commit),
        _ => false,
    }
}

fn is_not_above(bound: &Option<Stamp>, stamp: Stamp) -> bool
    ensures { result ≡ false → IsNotAbove bound.now stamp → ⊥ }
{
    match bound {
        None => false,
        Some(start) => *start <= stamp,
    }
}

/// The earlier of two stamps that may be missing.
fn earlier(first: &Option<Stamp>, second: &Option<Stamp>) -> Option<Stamp>
    ensures first { (stamp : ℕ) → IsNotAbove first.now stamp → IsNotAbove result stamp }
    ensures second { (stamp : ℕ) → IsNotAbove second.now stamp → IsNotAbove result stamp }
{
    match (first, second) {
        (None, _) => *second,
        (_, None) => *first,
        (Some(one), Some(other)) => { if one <= other { *first } else { *second } }
    }
}

/// What is known of the asks and the begins of some first items.
#[derive(Drop)]
struct Asked {
    /// At each place the least start of the begins that were asked for there.
    starts: Vec<Option<Stamp>>,
    /// The place of each session's last ask.
    asks: [Option<usize>; 16],
}

impl Asked {
    ghost use Rattle.si_judge.specs.AskIndex.{IsNoted};

    fn new(alloc: Global, items: &[Item]) -> Result<Asked, NoMemory>
        ensures { IfOk result (λ asked. IsNoted items.now 0 asked) }
    {
        Ok(Asked {
            starts: vec![in alloc; None; items.len()]?,
            asks: [None; 16],
        })
    }

    /// Notes the item at the place.
    fn note(&mut self, items: &[Item], place: usize)
        requires within { place < length items.now }
        requires noted { IsNoted items.now place self.old }
        ensures { IsNoted items.now (place + 1) self.new }
    {
        match &items[place] {
            Item::AskBegin { session, .. } => self.asks[place_of(*session)] = Some(place),
            Item::Begin { session, start } => {
                let ask = self.asks[place_of(*session)].unwrap_or(place);
                let least = earlier(&self.starts[ask], &Some(*start));
                self.starts[ask] = least;
            }
            _ => {}
        }
    }
}

/// The session's place in a table of all sessions, below 16.
pub fn place_of(session: SessionNo) -> usize
    ensures place { result ≡ session }
    ensures range { result < 16 }
{
    session.value() as usize
}
