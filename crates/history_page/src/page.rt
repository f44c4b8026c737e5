// The page to explore a history.
ghost use Rattle.std.specs.Prelude.{◌≡◌, ◌++◌, OnOk};
ghost use Rattle.history_view.specs.Glyphs.{kind_text};
ghost use Rattle.history_view.specs.Words.{escaped};
ghost use Rattle.history_page.specs.Pages.{bar_line, bar_line_if, bar_lines, bars_head_text, bars_part, foot_text, head_text, item_line, item_lines, items_part, page_text, told_head_text, told_part};

use crate::html::{BARS, HEAD, SCRIPT, TOLD};
use history_book::Item;
use history_signs::{Bar, BarKind, Chosen};
use history_view::Text;
use stamp_base::NoMemory;

/// Adds the page of these items, with the bars of those that are chosen and what is told of them. NoMemory where memory is refused.
pub fn print_history_page(
    text: &mut Text,
    items: &[Item],
    chosen: &[Chosen],
    told: &[u8],
) -> Result<(), NoMemory>
    ensures { OnOk result (text.new ≡ text.old ++ page_text items.now chosen.now told.now) }
{
    print_items(text, items)?;
    print_bars(text, chosen)?;
    print_told(text, told)?;
    Ok(())
}

// ---- the items, behind the head of the page

fn print_items(text: &mut Text, items: &[Item]) -> Result<(), NoMemory>
    ensures { OnOk result (text.new ≡ text.old ++ items_part items.now) }
{
    text.push(head())?;
    print_item_lines(text, items)?;
    Ok(())
}

fn print_item_lines(text: &mut Text, items: &[Item]) -> Result<(), NoMemory>
    ensures { OnOk result (text.new ≡ text.old ++ item_lines items.now) }
{
    for item in items {
        print_item_line(text, item)?;
    }
    Ok(())
}

#[tactic(auto, unfolding(crate::specs::Pages::item_line))]
fn print_item_line(text: &mut Text, item: &Item) -> Result<(), NoMemory>
    ensures { OnOk result (text.new ≡ text.old ++ item_line item.now) }
{
    text.push_item(item)?;
    text.push(b"\n")
}

// ---- the bars

fn print_bars(text: &mut Text, chosen: &[Chosen]) -> Result<(), NoMemory>
    ensures { OnOk result (text.new ≡ text.old ++ bars_part chosen.now) }
{
    text.push(bars_head())?;
    print_bar_lines(text, chosen)?;
    Ok(())
}

fn print_bar_lines(text: &mut Text, chosen: &[Chosen]) -> Result<(), NoMemory>
    ensures { OnOk result (text.new ≡ text.old ++ bar_lines chosen.now) }
{
    for one in chosen {
        print_bar_if(text, one.number, one.bar)?;
    }
    Ok(())
}

fn print_bar_if(text: &mut Text, number: u64, bar: Option<Bar>) -> Result<(), NoMemory>
    ensures { OnOk result (text.new ≡ text.old ++ bar_line_if number bar) }
{
    match bar {
        Some(bar) => print_bar(text, number, bar),
        None => Ok(()),
    }
}

#[tactic(auto, unfolding(crate::specs::Pages::bar_line))]
fn print_bar(text: &mut Text, number: u64, bar: Bar) -> Result<(), NoMemory>
    ensures { OnOk result (text.new ≡ text.old ++ bar_line number bar) }
{
    text.push_number(number)?;
    text.push_field(b" ", bar.to as u64)?;
    text.push_between(b" ", word_of(bar.kind), b"\n")
}

fn word_of(kind: BarKind) -> &'static [u8]
    ensures { result.now ≡ kind_text kind }
{
    match kind {
        BarKind::Committed => b"committed",
        BarKind::Refused => b"refused",
        BarKind::Aborted => b"aborted",
        BarKind::Dead => b"dead",
        BarKind::Open => b"open",
        BarKind::Lease => b"lease",
    }
}

// ---- what is told of the items, and the foot of the page

fn print_told(text: &mut Text, told: &[u8]) -> Result<(), NoMemory>
    ensures { OnOk result (text.new ≡ text.old ++ told_part told.now) }
{
    text.push(told_head())?;
    text.push_escaped(told)?;
    text.push(foot())?;
    Ok(())
}

// ---- the pieces that are the same on each page, each seen above as one word

#[tactic(auto, unfolding(crate::specs::Pages::head_text))]
fn head() -> &'static [u8]
    ensures { result.now ≡ head_text }
{
    HEAD.as_bytes()
}

#[tactic(auto, unfolding(crate::specs::Pages::bars_head_text))]
fn bars_head() -> &'static [u8]
    ensures { result.now ≡ bars_head_text }
{
    BARS.as_bytes()
}

#[tactic(auto, unfolding(crate::specs::Pages::told_head_text))]
fn told_head() -> &'static [u8]
    ensures { result.now ≡ told_head_text }
{
    TOLD.as_bytes()
}

#[tactic(auto, unfolding(crate::specs::Pages::foot_text))]
fn foot() -> &'static [u8]
    ensures { result.now ≡ foot_text }
{
    SCRIPT.as_bytes()
}
