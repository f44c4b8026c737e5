// The lines of the lanes.
ghost use Rattle.std.specs.Prelude.{◌≡◌, ◌+◌, ◌-◌, ◌<◌, ◌≤◌, ◌++◌, ◌*◌, ◌/◌, ◌^◌, ◌∷◌, [], codes, OnOk, length};
ghost use Rattle.history_view.specs.Page.{again_text, lane_text, line_text, lines_text, name_text, names_text, rule_text};

use crate::marks::{column_x, row_y};
use crate::text::Text;
use stamp_base::NoMemory;

/// Adds a line for each lane, from top to bottom, on a page that is so wide and has so many signs. NoMemory where memory is
/// refused.
#[tactic(auto, unfolding(crate::specs::Words::each_text))]
pub fn print_lines(
    text: &mut Text,
    wide: bool,
    width: u64,
    count: usize,
    lanes: &[usize],
) -> Result<(), NoMemory>
    ensures { OnOk result (text.new ≡ text.old ++ lines_text wide width count lanes.now) }
{
    for row in 0..lanes.len() {
        print_line(text, wide, width, count, row, lanes[row])?;
    }
    Ok(())
}

/// A line across the page, with the name of the lane at its left end, and again along it where signs go on behind the name.
fn print_line(
    text: &mut Text,
    wide: bool,
    width: u64,
    count: usize,
    row: usize,
    lane: usize,
) -> Result<(), NoMemory>
    ensures { OnOk result (text.new ≡ text.old ++ line_text wide width count row lane) }
{
    print_rule(text, width, row_y(row))?;
    print_caption(text, row_y(row), lane)?;
    print_names(text, wide, row_y(row), lane, count.saturating_sub(10) / 50)
}

/// The name of the lane at each fiftieth column, above the line: so many of them.
#[tactic(auto, unfolding(crate::specs::Page::names_text))]
fn print_names(
    text: &mut Text,
    wide: bool,
    y: u64,
    lane: usize,
    names: usize,
) -> Result<(), NoMemory>
    requires inside { (78 ≤ y) × (y ≤ 1274) }
    requires few { 50 * names ≤ 2 ^ 64 - 1 }
    ensures { OnOk result (text.new ≡ text.old ++ names_text wide y lane names) }
{
    for number in 0..names {
        print_again(text, column_x(wide, 50 * (number + 1)), y - 13, lane)?;
    }
    Ok(())
}

#[tactic(auto, unfolding(crate::specs::Page::again_text))]
fn print_again(text: &mut Text, x: u64, y: u64, lane: usize) -> Result<(), NoMemory>
    ensures { OnOk result (text.new ≡ text.old ++ again_text x y lane) }
{
    text.push_two(b"<text class='lane again' x='", x, b"' y='", y)?;
    text.push(b"'>")?;
    print_name(text, lane)?;
    text.push(b"</text>\n")
}

fn print_rule(text: &mut Text, width: u64, y: u64) -> Result<(), NoMemory>
    ensures { OnOk result (text.new ≡ text.old ++ rule_text width y) }
{
    text.push_field(b"<line x1='92' x2='", width)?;
    text.push_two(b"' y1='", y, b"' y2='", y)?;
    text.push(b"'/>")?;
    Ok(())
}

#[tactic(auto, unfolding(crate::specs::Page::name_text))]
fn print_caption(text: &mut Text, y: u64, lane: usize) -> Result<(), NoMemory>
    requires { y ≤ 1274 }
    ensures { OnOk result (text.new ≡ text.old ++ name_text y lane) }
{
    text.push_field(b"<text class='lane' x='6' y='", y + 4)?;
    text.push(b"'>")?;
    print_name(text, lane)?;
    text.push(b"</text>\n")
}

/// The name of a lane.
fn print_name(text: &mut Text, lane: usize) -> Result<(), NoMemory>
    ensures { OnOk result (text.new ≡ text.old ++ lane_text lane) }
{
    match lane {
        0 => text.push(b"clock"),
        1..=8 => print_node(text, b'a' + (lane - 1) as u8),
        9 => text.push(b"commit table"),
        10..=25 => text.push_field(b"session ", (lane - 10) as u64),
        _ => text.push(b"janitor"),
    }
}

fn print_node(text: &mut Text, letter: u8) -> Result<(), NoMemory>
    ensures { OnOk result (text.new ≡ text.old ++ codes "node " ++ letter ∷ []) }
{
    text.push(b"node ")?;
    text.push(&[letter])
}
