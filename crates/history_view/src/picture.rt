// The whole picture.
ghost use Rattle.std.specs.Prelude.{◌≡◌, ◌+◌, ◌-◌, ◌/◌, ◌^◌, ◌<◌, ◌++◌, IfOk, OnOk, length};
ghost use Rattle.history_view.specs.Marks.{row_y};
ghost use Rattle.history_view.specs.Page.{arrows_text, bars_text, body_text, earlier_text, legends_text, page_text, page_width, picture_text, signs_text};

use crate::glyph::{Key, keys_of};
use crate::lane_lines::print_lines;
use crate::marks::{print_any_arrow, print_any_bar, print_earlier_bar, print_sign, row_y};
use crate::page::{page_width, print_head, print_legends};
use crate::text::Text;
use history_signs::{EarlierBar, Sign};
use stamp_base::NoMemory;
use std::alloc::Global;

/// What a picture is of.
#[derive(Clone, Copy)]
pub struct Frame {
    /// Columns stand far apart, with room for values.
    pub wide: bool,
    /// The numbers of the first and the last item that it is of, counted from 1.
    pub first: u64,
    /// The number of the last item that it is of, counted from 1.
    pub last: u64,
    /// How many items the history has.
    pub total: u64,
}

/// The picture of the signs in these lanes, as one document of SVG, below its caption. Those items of the frame that have no sign
/// are counted as left out. The earlier bars go on from items before the first sign. NoMemory where memory is refused.
pub fn print_picture(
    alloc: Global,
    frame: &Frame,
    caption: &[u8],
    lanes: &[usize],
    earlier: &[EarlierBar],
    signs: &[Sign],
) -> Result<Text, NoMemory>
    requires { frame.now.last < 2 ^ 63 }
    ensures { IfOk result (λ text. text ≡ picture_text frame.now caption.now lanes.now earlier.now signs.now) }
{
    let keys = keys_of(alloc, earlier, signs)?;
    let mut text = Text::new(alloc);
    print_page(&mut text, frame, caption, lanes, earlier, signs, &keys)?;
    Ok(text)
}

fn print_page(
    text: &mut Text,
    frame: &Frame,
    caption: &[u8],
    lanes: &[usize],
    earlier: &[EarlierBar],
    signs: &[Sign],
    keys: &[Key],
) -> Result<(), NoMemory>
    requires { frame.now.last < 2 ^ 63 }
    ensures { OnOk result (text.new ≡ text.old ++ page_text frame.now caption.now lanes.now earlier.now signs.now keys.now) }
{
    print_head(text, frame, caption, signs.len(), lanes.len(), keys.len())?;
    print_body(text, frame, keys.len(), lanes, earlier, signs)?;
    print_foot(text, frame.wide, signs.len(), lanes.len(), keys)?;
    text.push(b"</svg>\n")?;
    Ok(())
}

/// Adds the legends below so many lanes, along so many signs: no further one where it would not fit.
fn print_foot(
    text: &mut Text,
    wide: bool,
    count: usize,
    rows: usize,
    keys: &[Key],
) -> Result<(), NoMemory>
    ensures { OnOk result (text.new ≡ text.old ++ legends_text wide (row_y rows + 16) keys.now ((count - 50) / 200 + 1)) }
{
    let times = count.saturating_sub(50) / 200 + 1;
    print_legends(text, wide, row_y(rows) + 16, keys, times)
}

/// Adds the lanes, and in three layers what stands in them.
fn print_body(
    text: &mut Text,
    frame: &Frame,
    keys: usize,
    lanes: &[usize],
    earlier: &[EarlierBar],
    signs: &[Sign],
) -> Result<(), NoMemory>
    ensures { OnOk result (text.new ≡ text.old ++ body_text frame.now (page_width frame.now.wide (length signs.now) keys) lanes.now earlier.now signs.now) }
{
    let wide = frame.wide;
    let width = page_width(wide, signs.len(), keys);
    print_lines(text, wide, width, signs.len(), lanes)?;
    print_earlier(text, wide, earlier)?;
    print_bars(text, wide, signs)?;
    print_arrows(text, wide, signs)?;
    print_signs(text, wide, signs)
}

fn print_earlier(text: &mut Text, wide: bool, bars: &[EarlierBar]) -> Result<(), NoMemory>
    ensures { OnOk result (text.new ≡ text.old ++ earlier_text wide bars.now) }
{
    for bar in bars {
        print_earlier_bar(text, wide, bar)?;
    }
    Ok(())
}

#[tactic(auto, unfolding(crate::specs::Words::each_text))]
fn print_bars(text: &mut Text, wide: bool, signs: &[Sign]) -> Result<(), NoMemory>
    ensures { OnOk result (text.new ≡ text.old ++ bars_text wide signs.now) }
{
    for column in 0..signs.len() {
        print_any_bar(text, wide, column, &signs[column])?;
    }
    Ok(())
}

#[tactic(auto, unfolding(crate::specs::Words::each_text))]
fn print_arrows(text: &mut Text, wide: bool, signs: &[Sign]) -> Result<(), NoMemory>
    ensures { OnOk result (text.new ≡ text.old ++ arrows_text wide signs.now) }
{
    for column in 0..signs.len() {
        print_any_arrow(text, wide, column, &signs[column])?;
    }
    Ok(())
}

#[tactic(auto, unfolding(crate::specs::Words::each_text))]
fn print_signs(text: &mut Text, wide: bool, signs: &[Sign]) -> Result<(), NoMemory>
    ensures { OnOk result (text.new ≡ text.old ++ signs_text wide signs.now) }
{
    for column in 0..signs.len() {
        print_sign(text, wide, column, &signs[column])?;
    }
    Ok(())
}
