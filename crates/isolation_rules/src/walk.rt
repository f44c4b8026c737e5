// The walk over pairs of items, rule by rule.
ghost use Rattle.std.specs.Prelude.{◌≢◌, ◌≤◌, ◌<◌, ℕ, length, Decides, IfSome, MatchOption};
ghost use Rattle.isolation_rules.specs.Judged.{Breaks, IsLeastPair, IsSecond, Passes, Premise};

use crate::apart::breaks_apart;
use crate::fresh::breaks_fresh;
use crate::read::second_of_read;
use crate::stamped::breaks_stamped;
use crate::verdict::Rule;
use history_book::Item;

/// The places of two items, counted from 0.
#[derive(Clone, Copy)]
pub struct Pair {
    /// The place of the first.
    pub first: usize,
    /// The place of the second, behind it.
    pub second: usize,
}

/// The first pair of items that breaks the rule, by a walk over all places.
pub fn plain_pair(rule: Rule, items: &[Item]) -> Option<Pair>
    requires { Premise rule items.now }
    ensures pair { MatchOption result ((i : ℕ) → i < length items.now → Passes rule items.now i)
        (λ pair. IsLeastPair rule items.now pair.first pair.second) }
    ensures within { IfSome result (λ pair. pair.first < length items.now × pair.second < length items.now) }
{
    for first in 0..items.len() {
        if let Some(second) = second_of(rule, items, first) {
            return Some(Pair { first, second });
        }
    }
    None
}

/// The first place that breaks the rule together with the place `first`.
pub fn second_of(rule: Rule, items: &[Item], first: usize) -> Option<usize>
    requires premise { Premise rule items.now }
    requires within { first < length items.now }
    ensures second { IsSecond rule items.now first result }
    ensures within { IfSome result (λ place. place < length items.now) }
{
    match rule {
        Rule::Stamped => second_of_pair(Rule::Stamped, items, first),
        Rule::Apart => second_of_pair(Rule::Apart, items, first),
        Rule::Read => second_of_read(items, first),
        Rule::Fresh => second_of_pair(Rule::Fresh, items, first),
    }
}

fn second_of_pair(rule: Rule, items: &[Item], first: usize) -> Option<usize>
    requires pairs { rule ≢ Rule.Read }
    requires within { first < length items.now }
    ensures second { IsSecond rule items.now first result }
    ensures within { IfSome result (λ place. place < length items.now) }
{
    for second in first..items.len() {
        if breaks(rule, items, first, second) {
            return Some(second);
        }
    }
    None
}

/// Whether two items break a rule on pairs. Reads are not judged by pairs.
fn breaks(rule: Rule, items: &[Item], first: usize, second: usize) -> bool
    requires pairs { rule ≢ Rule.Read }
    requires order { first ≤ second }
    requires within { second < length items.now }
    ensures { Decides result (Breaks rule items.now first second) }
{
    match rule {
        Rule::Stamped => breaks_stamped(items, first, second),
        Rule::Apart => breaks_apart(items, first, second),
        Rule::Read => false,
        Rule::Fresh => breaks_fresh(items, first, second),
    }
}
