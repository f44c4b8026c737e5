// What a history is found to be.
ghost use Rattle.std.specs.Prelude.{◌≡◌, ◌++◌, ◌≤◌, true, IfOk, OnOk, codes, length};
ghost use Rattle.history_book.specs.Isolation.{Isolated};
ghost use Rattle.breach_reasons.specs.Findings.{IsFound, begins_in, broken_line, commits_in, crossed_line, finding_line, numbers_text, one_begin, one_commit, rule_name};

use history_book::Item;
use history_view::Text;
use read_sets::{SerialVerdict, judge_serial};
use si_judge::{Rule, Verdict, judge};
use stamp_base::NoMemory;
use std::alloc::Global;

/// What a history is found to be. Items are counted from 1.
#[derive(Clone, Copy)]
pub enum Finding {
    /// Isolated, and serial where that was asked too.
    Sound,
    /// The first rule of isolation that is broken, and the numbers of two items that break it, counted from 1.
    Broken {
        rule: Rule,
        first: usize,
        second: usize,
    },
    /// Isolated and not serial: the numbers of a read and of a placed commit that crosses it, counted from 1.
    Crossed {
        read: usize,
        placed: usize,
    },
}

/// Judges whether the items of a finished history are isolated and, where it is strict, serial too. As with the judges, the answer
/// is never NoMemory.
pub fn find(alloc: Global, items: &[Item], strict: bool) -> Result<Finding, NoMemory>
    ensures { IfOk result (λ found. IsFound strict items.now found) }
{
    match judge(alloc, items)? {
        Verdict::Isolated => find_crossing(alloc, items, strict),
        Verdict::Broken {
            rule,
            first,
            second,
        } => Ok(Finding::Broken {
            rule,
            first,
            second,
        }),
    }
}

fn find_crossing(alloc: Global, items: &[Item], strict: bool) -> Result<Finding, NoMemory>
    requires { Isolated items.now }
    ensures { IfOk result (λ found. IsFound strict items.now found) }
{
    if !strict {
        return Ok(Finding::Sound);
    }
    match judge_serial(alloc, items)? {
        SerialVerdict::Serial => Ok(Finding::Sound),
        SerialVerdict::Crossed { read, placed } => Ok(Finding::Crossed { read, placed }),
    }
}

/// Adds in a line, with no line feed, what was found. NoMemory where memory is refused.
#[tactic(auto, unfolding(crate::specs::Findings::finding_line))]
pub fn print_line(
    text: &mut Text,
    items: &[Item],
    strict: bool,
    found: &Finding,
) -> Result<(), NoMemory>
    ensures { OnOk result (text.new ≡ text.old ++ finding_line strict items.now found.now) }
{
    match found {
        Finding::Sound => print_sound(text, items, strict),
        Finding::Broken {
            rule,
            first,
            second,
        } => print_broken(text, name_of(*rule), *first, *second),
        Finding::Crossed { read, placed } => print_crossed(text, *read, *placed),
    }
}

#[tactic(auto, unfolding(crate::specs::Findings::finding_line))]
fn print_sound(text: &mut Text, items: &[Item], strict: bool) -> Result<(), NoMemory>
    ensures { OnOk result (text.new ≡ text.old ++ finding_line strict items.now Finding.Sound) }
{
    text.push(if strict { b"serial: " } else { b"isolated: " })?;
    text.push_number(begins_in(items))?;
    text.push_field(b" transactions began, ", commits_in(items))?;
    text.push(b" committed")
}

fn print_broken(text: &mut Text, name: &[u8], first: usize, second: usize) -> Result<(), NoMemory>
    ensures { OnOk result (text.new ≡ text.old ++ broken_line name.now first second) }
{
    text.push(b"not isolated: ")?;
    text.push(name)?;
    print_numbers(text, first as u64, second as u64)?;
    Ok(())
}

#[tactic(auto, unfolding(crate::specs::Findings::crossed_line))]
fn print_crossed(text: &mut Text, read: usize, placed: usize) -> Result<(), NoMemory>
    ensures { OnOk result (text.new ≡ text.old ++ crossed_line read placed) }
{
    print_broken(text, b"serial", read, placed)
}

fn print_numbers(text: &mut Text, first: u64, second: u64) -> Result<(), NoMemory>
    ensures { OnOk result (text.new ≡ text.old ++ numbers_text first second) }
{
    text.push_two(b" ", first, b" ", second)
}

fn name_of(rule: Rule) -> &'static [u8]
    ensures { result.now ≡ rule_name rule }
{
    match rule {
        Rule::Stamped => b"stamped",
        Rule::Apart => b"apart",
        Rule::Read => b"read",
        Rule::Fresh => b"fresh",
    }
}

/// How many begins there are.
#[tactic(auto, unfolding(crate::specs::Findings::begins_in))]
fn begins_in(items: &[Item]) -> u64
    ensures count { result ≡ begins_in items.now }
    ensures few { result ≤ length items.now }
{
    let mut count = 0;
    for item in items {
        count += one_begin(item);
    }
    count
}

fn one_begin(item: &Item) -> u64
    ensures one { result ≡ one_begin item.now }
    ensures few { result ≤ 1 }
{
    match item {
        Item::Begin { .. } => 1,
        _ => 0,
    }
}

/// How many commits there are.
#[tactic(auto, unfolding(crate::specs::Findings::commits_in))]
fn commits_in(items: &[Item]) -> u64
    ensures count { result ≡ commits_in items.now }
    ensures few { result ≤ length items.now }
{
    let mut count = 0;
    for item in items {
        count += one_commit(item);
    }
    count
}

fn one_commit(item: &Item) -> u64
    ensures one { result ≡ one_commit item.now }
    ensures few { result ≤ 1 }
{
    match item {
        Item::Placed { .. } => 1,
        _ => 0,
    }
}
