// What a command makes of items.
ghost use Rattle.std.specs.Prelude.{◌≡◌, ◌+◌, ◌-◌, ◌≤◌, ◌<◌, ◌^◌, ◌⊎◌, IfOk, false, length, min};
ghost use Rattle.breach_reasons.specs.Findings.{finding_status};
ghost use Rattle.history_signs.specs.Chosen.{chosen_in};
ghost use Rattle.history_page.specs.Pages.{page_text};
ghost use Rattle.omid_view.specs.Views.{Explains, IsBreachOf, IsInRange, IsPictureOf, IsSound, Makes, PagesHistory, PicturesBreach, PicturesPart, breach_frame, first_of, first_place, last_of, part_frame, shown_count, told_of};

use crate::command::Command;
use crate::status;
use breach_reasons::{Finding, breach_items, find, print_finding, print_line, ringed};
use history_book::Item;
use history_page::print_history_page;
use history_signs::{Chosen, choose_part, earlier_bars, lanes_of, signs_of};
use history_view::{Frame, Text, print_picture};
use refusal_reasons::explain_refusals;
use stamp_base::NoMemory;
use std::alloc::Global;

/// A text, and the status that goes with it.
#[derive(Drop)]
pub struct Made {
    /// The text.
    pub text: Text,
    /// The status of the call.
    pub code: u8,
}

/// What the command makes of the items. NoMemory where memory is refused.
pub fn made_of(alloc: Global, command: Command, items: &[Item]) -> Result<Made, NoMemory>
    requires { IsSound command }
    ensures made { IfOk result (λ made. Makes command items.now made.code made.text) }
    ensures codes { IfOk result (λ made. (made.code ≡ 0) ⊎ (made.code ≡ 7)) }
{
    match command {
        Command::Picture { from, to, brief } => pictured(alloc, items, from, to, brief),
        Command::Breach { strict } => breach_pictured(alloc, items, strict),
        Command::Explain { strict } => explained(alloc, items, strict),
        Command::Page { strict } => paged(alloc, items, strict),
    }
}

// ---- a part of a history

fn pictured(
    alloc: Global,
    items: &[Item],
    from: u64,
    to: u64,
    brief: bool,
) -> Result<Made, NoMemory>
    requires { IsInRange from to }
    ensures made { IfOk result (λ made. PicturesPart from (shown_count from to items.now) brief items.now made.text) }
    ensures code { IfOk result (λ made. made.code ≡ 0) }
{
    let count = count_of(from, to, items);
    let chosen = choose_part(alloc, items, first_place(from, items), count, brief)?;
    let text = picture_of(alloc, items, from, count, &chosen)?;
    Ok(Made {
        text,
        code: status::DONE,
    })
}

/// The picture of the items that were chosen from so many from one number on.
fn picture_of(
    alloc: Global,
    items: &[Item],
    from: u64,
    count: usize,
    chosen: &[Chosen],
) -> Result<Text, NoMemory>
    requires numbers { (1 ≤ from) × (from ≤ 16777216) × (count ≤ 2000) }
    ensures { IfOk result (λ text. IsPictureOf from count items.now chosen.now text) }
{
    let lanes = lanes_of(alloc, chosen)?;
    let earlier = earlier_bars(alloc, &lanes, chosen, items, first_place(from, items))?;
    let signs = signs_of(alloc, &lanes, &[], chosen)?;
    let frame = part_frame(from, count, items);
    print_picture(alloc, &frame, b"history", &lanes, &earlier, &signs)
}

fn part_frame(from: u64, count: usize, items: &[Item]) -> Frame
    requires { (1 ≤ from) × (from ≤ 16777216) × (count ≤ 2000) }
    ensures frame { result ≡ part_frame from count items.now }
    ensures numbers { (result.first < 2 ^ 63) × (result.last < 2 ^ 63) }
{
    Frame {
        wide: false,
        first: from,
        last: from + count as u64 - 1,
        total: items.len() as u64,
    }
}

/// Where the item of this number stands, counted from 0; behind the last item where there is none.
fn first_place(from: u64, items: &[Item]) -> usize
    requires { 1 ≤ from }
    ensures place { result ≡ first_place from items.now }
    ensures within { result ≤ length items.now }
{
    items.len().min((from - 1) as usize)
}

/// How many items a picture from one number to another is of: 2,000 at most.
fn count_of(from: u64, to: u64, items: &[Item]) -> usize
    requires { IsInRange from to }
    ensures count { result ≡ shown_count from to items.now }
    ensures few { result ≤ 2000 }
    ensures within { min (from - 1) (length items.now) + result ≤ length items.now }
{
    let most = (to + 1 - from).min(2_000) as usize;
    most.min(items.len().saturating_sub((from - 1) as usize))
}

// ---- what is broken

fn breach_pictured(alloc: Global, items: &[Item], strict: bool) -> Result<Made, NoMemory>
    ensures made { IfOk result (λ made. PicturesBreach strict items.now made.code made.text) }
    ensures codes { IfOk result (λ made. (made.code ≡ 0) ⊎ (made.code ≡ 7)) }
{
    let found = find(alloc, items, strict)?;
    let chosen = breach_items(alloc, items, &found)?;
    let text = breach_of(alloc, items, strict, &found, &chosen)?;
    Ok(Made {
        text,
        code: status_of(&found),
    })
}

/// The picture of these items, below what was found.
fn breach_of(
    alloc: Global,
    items: &[Item],
    strict: bool,
    found: &Finding,
    chosen: &[Chosen],
) -> Result<Text, NoMemory>
    ensures { IfOk result (λ text. IsBreachOf strict items.now found.now chosen.now text) }
{
    let mut caption = Text::new(alloc);
    print_line(&mut caption, items, strict, found)?;
    let lanes = lanes_of(alloc, chosen)?;
    let signs = signs_of(alloc, &lanes, &ringed(alloc, found)?, chosen)?;
    let frame = breach_frame(chosen, items);
    print_picture(alloc, &frame, caption.as_slice(), &lanes, &[], &signs)
}

fn breach_frame(chosen: &[Chosen], items: &[Item]) -> Frame
    ensures frame { result ≡ breach_frame chosen.now items.now }
    ensures numbers { result.last < 2 ^ 63 }
{
    Frame {
        wide: true,
        first: first_of(chosen),
        last: last_of(chosen, items.len() as u64).min(items.len() as u64),
        total: items.len() as u64,
    }
}

fn first_of(chosen: &[Chosen]) -> u64
    ensures { result ≡ first_of chosen.now }
{
    match chosen {
        [first, ..] => first.number,
        [] => 1,
    }
}

/// The number of the last of them, and this one where there is none.
#[tactic(auto, unfolding(crate::specs::Views::last_of))]
fn last_of(chosen: &[Chosen], before: u64) -> u64
    ensures { result ≡ last_of before chosen.now }
{
    let mut last = before;
    for one in chosen {
        last = one.number;
    }
    last
}

fn explained(alloc: Global, items: &[Item], strict: bool) -> Result<Made, NoMemory>
    ensures made { IfOk result (λ made. Explains strict items.now made.code made.text) }
    ensures codes { IfOk result (λ made. (made.code ≡ 0) ⊎ (made.code ≡ 7)) }
{
    let found = find(alloc, items, strict)?;
    let text = told_of(alloc, items, strict, &found)?;
    Ok(Made {
        text,
        code: status_of(&found),
    })
}

/// What was found, and each refusal explained.
fn told_of(alloc: Global, items: &[Item], strict: bool, found: &Finding) -> Result<Text, NoMemory>
    ensures { IfOk result (λ text. text ≡ told_of strict items.now found.now) }
{
    let mut text = Text::new(alloc);
    print_finding(&mut text, items, strict, found)?;
    let reasons = explain_refusals(alloc, items)?;
    text.push(reasons.as_slice())?;
    Ok(text)
}

fn paged(alloc: Global, items: &[Item], strict: bool) -> Result<Made, NoMemory>
    ensures made { IfOk result (λ made. PagesHistory strict items.now made.code made.text) }
    ensures codes { IfOk result (λ made. (made.code ≡ 0) ⊎ (made.code ≡ 7)) }
{
    let found = find(alloc, items, strict)?;
    let told = told_of(alloc, items, strict, &found)?;
    let text = page_of(alloc, items, told.as_slice())?;
    Ok(Made {
        text,
        code: status_of(&found),
    })
}

fn page_of(alloc: Global, items: &[Item], told: &[u8]) -> Result<Text, NoMemory>
    ensures { IfOk result (λ text. text ≡ page_text items.now (chosen_in false items.now 0 (length items.now)) told.now) }
{
    let chosen = choose_part(alloc, items, 0, items.len(), false)?;
    let mut text = Text::new(alloc);
    print_history_page(&mut text, items, &chosen, told)?;
    Ok(text)
}

fn status_of(found: &Finding) -> u8
    ensures status { result ≡ finding_status found.now }
    ensures codes { (result ≡ 0) ⊎ (result ≡ 7) }
{
    match found {
        Finding::Sound => status::DONE,
        _ => status::NOT_ISOLATED,
    }
}
