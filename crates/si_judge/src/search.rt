// The search for the first pair of items that breaks a rule.
ghost use Rattle.std.specs.Prelude.{◌<◌, ℕ, length, IfOk, IfSome, MatchOption};
ghost use Rattle.isolation_rules.specs.Judged.{IsLeastPair, IsSecond, Passes, Premise};
ghost use Rattle.si_judge.specs.Suspects.{AreSuspects};

use crate::ask_index::start_suspects;
use crate::overlap_index::overlap_suspects;
use crate::reads::first_wrong_read;
use crate::second_begin::second_begin;
use crate::second_commit::second_commit;
use crate::stamp_index::stamp_suspects;
use history_book::Item;
use isolation_rules::{Pair, Rule, plain_pair, second_of};
use stamp_base::NoMemory;
use std::alloc::Global;

/// The first pair of items that breaks the rule. An index finds it; where its memory is refused the plain
/// walk does.
pub fn first_pair(alloc: Global, rule: Rule, items: &[Item]) -> Option<Pair>
    requires { Premise rule items.now }
    ensures pair { MatchOption result ((i : ℕ) → i < length items.now → Passes rule items.now i)
        (λ pair. IsLeastPair rule items.now pair.first pair.second) }
    ensures within { IfSome result (λ pair. pair.first < length items.now × pair.second < length items.now) }
{
    match indexed_pair(alloc, rule, items) {
        Ok(found) => found,
        Err(_) => plain_pair(rule, items),
    }
}

/// The first pair of items that breaks the rule, by an index. NoMemory where its memory is refused.
fn indexed_pair(alloc: Global, rule: Rule, items: &[Item]) -> Result<Option<Pair>, NoMemory>
    requires { Premise rule items.now }
    ensures pair { IfOk result (λ found. MatchOption found
        ((i : ℕ) → i < length items.now → Passes rule items.now i)
        (λ pair. IsLeastPair rule items.now pair.first pair.second)) }
    ensures within { IfOk result (λ found. IfSome found
        (λ pair. pair.first < length items.now × pair.second < length items.now)) }
{
    match rule {
        Rule::Stamped => {
            let suspects = stamp_suspects(alloc, items)?;
            first_of(alloc, Rule::Stamped, items, &suspects)
        }
        Rule::Apart => {
            let suspects = overlap_suspects(alloc, items)?;
            first_of(alloc, Rule::Apart, items, &suspects)
        }
        Rule::Read => first_wrong_read(alloc, items),
        Rule::Fresh => {
            let suspects = start_suspects(alloc, items)?;
            first_of(alloc, Rule::Fresh, items, &suspects)
        }
    }
}

/// The first pair that begins at a suspect.
fn first_of(
    alloc: Global,
    rule: Rule,
    items: &[Item],
    suspects: &[bool],
) -> Result<Option<Pair>, NoMemory>
    requires premise { Premise rule items.now }
    requires suspects { AreSuspects rule items.now suspects.now }
    ensures pair { IfOk result (λ found. MatchOption found
        ((i : ℕ) → i < length items.now → Passes rule items.now i)
        (λ pair. IsLeastPair rule items.now pair.first pair.second)) }
    ensures within { IfOk result (λ found. IfSome found
        (λ pair. pair.first < length items.now × pair.second < length items.now)) }
{
    for first in 0..items.len() {
        if let Some(second) = second_at(alloc, rule, items, suspects, first)? {
            return Ok(Some(Pair { first, second }));
        }
    }
    Ok(None)
}

/// The first place that breaks the rule together with the place `first`, which is tried only where it is a suspect.
fn second_at(
    alloc: Global,
    rule: Rule,
    items: &[Item],
    suspects: &[bool],
    first: usize,
) -> Result<Option<usize>, NoMemory>
    requires premise { Premise rule items.now }
    requires suspects { AreSuspects rule items.now suspects.now }
    requires within { first < length items.now }
    ensures second { IfOk result (λ found. IsSecond rule items.now first found) }
    ensures within { IfOk result (λ found. IfSome found (λ place. place < length items.now)) }
{
    if suspects[first] {
        second_behind(alloc, rule, items, first)
    } else {
        Ok(None)
    }
}

/// The first place that breaks the rule together with this suspect. That two commits wrote one key is looked up in a set, and
/// where a begin was asked for in a table of the last asks; neither is looked for among all items for each pair.
fn second_behind(
    alloc: Global,
    rule: Rule,
    items: &[Item],
    first: usize,
) -> Result<Option<usize>, NoMemory>
    requires premise { Premise rule items.now }
    requires within { first < length items.now }
    ensures second { IfOk result (λ found. IsSecond rule items.now first found) }
    ensures within { IfOk result (λ found. IfSome found (λ place. place < length items.now)) }
{
    match rule {
        Rule::Apart => second_commit(alloc, items, first),
        Rule::Fresh => Ok(second_begin(items, first)),
        _ => Ok(second_of(rule, items, first)),
    }
}
