//! The judge of histories: whether the items of a finished history are snapshot isolated.
#![tactic(auto)]

ghost use Rattle.std.specs.Prelude.{◌≡◌, ◌<◌, length, IfOk, IsOk, Ok};
ghost use Rattle.history_book.specs.Isolation.{Isolated};
ghost use Rattle.isolation_rules.specs.Judged.{AllRight, IsEarlierKept, IsJudged, IsKept, IsLeastPair};

mod ask_index;
mod commits;
mod listed;
mod marks;
mod overlap_index;
mod reach;
mod reads;
mod search;
mod second_begin;
mod second_commit;
mod sharers;
mod stamp_index;
#[cfg(test)]
mod tests;
mod turns;
mod versions;
mod writes;

use history_book::Item;
use isolation_rules::Pair;
pub use isolation_rules::{Rule, Verdict};
use search::first_pair;
use stamp_base::NoMemory;
use std::alloc::Global;

/// Judges the items of a finished history. Broken names the first rule that is broken, and of the pairs
/// of items that break it the one with the least first number and then the least second; items are
/// numbered from 1.
///
/// Each rule is judged over sets and maps, in about the time of a sort of the items and in memory for each
/// of them; the second item of a pair is found by one more walk over the items. Where that
/// memory is refused, a walk over all pairs is made in its place, in a time that grows with the square of the
/// number of items and more, so the answer is never NoMemory.
pub fn judge(alloc: Global, items: &[Item]) -> Result<Verdict, NoMemory>
    ensures always { IsOk result }
    ensures judged { IfOk result (λ verdict. IsJudged items.now verdict) }
    ensures isolated { IfOk result (λ verdict. verdict ≡ Verdict.Isolated → Isolated items.now) }
    ensures complete { Isolated items.now → result ≡ Ok Verdict.Isolated }
{
    Ok(judged(alloc, items))
}

fn judged(alloc: Global, items: &[Item]) -> Verdict
    ensures { IsJudged items.now result }
{
    match first_pair(alloc, Rule::Stamped, items) {
        Some(pair) => broken(Rule::Stamped, items, pair),
        None => after_stamped(alloc, items),
    }
}

fn after_stamped(alloc: Global, items: &[Item]) -> Verdict
    requires { IsKept Rule.Stamped items.now }
    ensures { IsJudged items.now result }
{
    match first_pair(alloc, Rule::Apart, items) {
        Some(pair) => broken(Rule::Apart, items, pair),
        None => after_apart(alloc, items),
    }
}

fn after_apart(alloc: Global, items: &[Item]) -> Verdict
    requires stamped { IsKept Rule.Stamped items.now }
    requires apart { IsKept Rule.Apart items.now }
    ensures { IsJudged items.now result }
{
    match first_pair(alloc, Rule::Read, items) {
        Some(pair) => broken(Rule::Read, items, pair),
        None => after_reads(alloc, items),
    }
}

fn after_reads(alloc: Global, items: &[Item]) -> Verdict
    requires stamped { IsKept Rule.Stamped items.now }
    requires apart { IsKept Rule.Apart items.now }
    requires reads { AllRight items.now }
    ensures { IsJudged items.now result }
{
    match first_pair(alloc, Rule::Fresh, items) {
        Some(pair) => broken(Rule::Fresh, items, pair),
        None => Verdict::Isolated,
    }
}

/// The verdict on the first pair that breaks the first broken rule.
fn broken(rule: Rule, items: &[Item], pair: Pair) -> Verdict
    requires pair { IsLeastPair rule items.now pair.first pair.second }
    requires earlier { IsEarlierKept rule items.now }
    requires within { pair.first < length items.now × pair.second < length items.now }
    ensures { IsJudged items.now result }
{
    Verdict::Broken {
        rule,
        first: pair.first + 1,
        second: pair.second + 1,
    }
}
