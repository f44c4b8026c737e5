// The text of one sign, in three layers.
ghost use Rattle.std.specs.Prelude.{◌≡◌, ◌≤◌, ◌++◌, Some, None, OnOk, codes, decimal};
ghost use Rattle.history_view.specs.Marks.{any_arrow_text, any_bar_text, any_ring_text, arrow_class, arrow_text, bar_text, bent_text, beside, circle_text, column_x, curve_text, dot_text, earlier_bar_text, found_text, is_bad, label, label_text, letter_text, number_text, opener_text, pitch, rect_text, ring_text, row_y, sign_text, stamp_text, title_text, value_text};

use crate::glyph::{Glyph, class_of, glyph_of, kind_word, letter};
use crate::text::Text;
use history_book::{Found, Item};
use history_signs::{Bar, EarlierBar, Link, Sign};
use stamp_base::{NoMemory, Stamp, Value};

/// How far apart columns stand: a wide picture has room for values.
fn pitch(wide: bool) -> u64
    ensures pitch { result ≡ pitch wide }
    ensures few { result ≤ 64 }
{
    if wide { 64 } else { 16 }
}

/// Where a column stands. What is past the last column stands at the edge.
pub fn column_x(wide: bool, column: usize) -> u64
    ensures x { result ≡ column_x wide column }
    ensures within { (96 ≤ result) × (result ≤ 32096) }
{
    96 + (pitch(wide) * column.min(2_000) as u64).min(32_000)
}

/// Where a row stands.
pub fn row_y(row: usize) -> u64
    ensures y { result ≡ row_y row }
    ensures within { (78 ≤ result) × (result ≤ 1274) }
{
    78 + 46 * row.min(26) as u64
}

// ---- bars

/// Adds the bar that the sign in the column opens. NoMemory where memory is refused.
pub fn print_any_bar(
    text: &mut Text,
    wide: bool,
    column: usize,
    sign: &Sign,
) -> Result<(), NoMemory>
    ensures { OnOk result (text.new ≡ text.old ++ any_bar_text wide column sign.now sign.now.bar) }
{
    match sign.bar {
        Some(bar) => print_bar(text, wide, column, sign, bar),
        None => Ok(()),
    }
}

#[tactic(auto, unfolding(crate::specs::Marks::bar_text))]
fn print_bar(
    text: &mut Text,
    wide: bool,
    column: usize,
    sign: &Sign,
    bar: Bar,
) -> Result<(), NoMemory>
    ensures { OnOk result (text.new ≡ text.old ++ bar_text wide column sign.now bar) }
{
    let x = column_x(wide, column);
    let width = column_x(wide, bar.to).saturating_sub(x) + 14;
    print_title(text, kind_word(bar.kind), sign.number, &sign.item)?;
    print_rect(text, x - 7, row_y(sign.row) - 11, width)?;
    text.push(b"</g>\n")
}

/// Adds a bar that goes on from before the first sign, with the words of the item that opened it. NoMemory where memory is refused.
#[tactic(auto, unfolding(crate::specs::Marks::earlier_bar_text))]
pub fn print_earlier_bar(text: &mut Text, wide: bool, earlier: &EarlierBar) -> Result<(), NoMemory>
    ensures { OnOk result (text.new ≡ text.old ++ earlier_bar_text wide earlier.now) }
{
    print_opener(text, kind_word(earlier.bar.kind), &earlier.opener)?;
    print_rect(
        text,
        82,
        row_y(earlier.row) - 11,
        column_x(wide, earlier.bar.to) - 75,
    )?;
    text.push(b"</g>\n")
}

#[tactic(auto, unfolding(crate::specs::Marks::opener_text))]
fn print_opener(text: &mut Text, class: &[u8], opener: &Item) -> Result<(), NoMemory>
    ensures { OnOk result (text.new ≡ text.old ++ opener_text class.now opener.now) }
{
    text.push_between(b"<g class='", class, b"'><title>before: ")?;
    text.push_item(opener)?;
    text.push(b"</title>")
}

/// Adds the start of a group of that class, with the number and the words of its item.
#[tactic(auto, unfolding(crate::specs::Marks::title_text))]
fn print_title(text: &mut Text, class: &[u8], number: u64, item: &Item) -> Result<(), NoMemory>
    ensures { OnOk result (text.new ≡ text.old ++ title_text class.now number item.now) }
{
    text.push_between(b"<g class='", class, b"'><title>")?;
    text.push_number(number)?;
    text.push(b": ")?;
    text.push_item(item)?;
    text.push(b"</title>")
}

fn print_rect(text: &mut Text, x: u64, y: u64, width: u64) -> Result<(), NoMemory>
    ensures { OnOk result (text.new ≡ text.old ++ rect_text x y width) }
{
    text.push_two(b"<rect x='", x, b"' y='", y)?;
    text.push_field(b"' width='", width)?;
    text.push(b"' height='22' rx='7'/>")?;
    Ok(())
}

// ---- arrows

/// Adds the arrow to the sign in the column from the one that shows it. NoMemory where memory is refused.
pub fn print_any_arrow(
    text: &mut Text,
    wide: bool,
    column: usize,
    sign: &Sign,
) -> Result<(), NoMemory>
    ensures { OnOk result (text.new ≡ text.old ++ any_arrow_text wide column sign.now sign.now.link) }
{
    match sign.link {
        Some(link) => print_arrow(text, wide, column, sign, link),
        None => Ok(()),
    }
}

#[tactic(auto, unfolding(crate::specs::Marks::arrow_text))]
fn print_arrow(
    text: &mut Text,
    wide: bool,
    column: usize,
    sign: &Sign,
    link: Link,
) -> Result<(), NoMemory>
    ensures { OnOk result (text.new ≡ text.old ++ arrow_text wide column sign.now link) }
{
    let far = 100 < column.saturating_sub(link.column);
    text.push_between(
        b"<path class='",
        arrow_class(is_bad(glyph_of(&sign.item)), far),
        b"' d='",
    )?;
    print_curve(
        text,
        column_x(wide, link.column),
        row_y(link.row),
        column_x(wide, column),
        row_y(sign.row),
    )?;
    text.push(b"'/>\n")
}

fn is_bad(glyph: Glyph) -> bool
    ensures { result ≡ is_bad glyph }
{
    match glyph {
        Glyph::Refused => true,
        _ => false,
    }
}

/// To a refusal an arrow is red. One over more than a hundred columns is faint.
fn arrow_class(bad: bool, far: bool) -> &'static [u8]
    ensures { result.now ≡ arrow_class bad far }
{
    match (bad, far) {
        (true, true) => b"bad far",
        (true, false) => b"bad",
        (false, true) => b"link far",
        (false, false) => b"link",
    }
}

/// A curve that leaves its sign across the lane, goes along beside the other lane, and comes to its sign across that. The point of
/// its arrow stands on the straight part at the end.
fn print_curve(text: &mut Text, x: u64, y: u64, to_x: u64, to_y: u64) -> Result<(), NoMemory>
    requires lane { (78 ≤ to_y) × (to_y ≤ 1274) }
    ensures { OnOk result (text.new ≡ text.old ++ curve_text x y to_x to_y) }
{
    print_bent(
        text,
        x,
        y,
        beside(22, y, to_y),
        beside(14, y, to_y),
        to_x,
        to_y,
    )
}

#[tactic(auto, unfolding(crate::specs::Marks::bent_text))]
fn print_bent(
    text: &mut Text,
    x: u64,
    y: u64,
    along: u64,
    near: u64,
    to_x: u64,
    to_y: u64,
) -> Result<(), NoMemory>
    ensures { OnOk result (text.new ≡ text.old ++ bent_text x y along near to_x to_y) }
{
    text.push_two(b"M", x, b" ", y)?;
    text.push_two(b"C", x, b" ", along)?;
    text.push_two(b" ", to_x, b" ", along)?;
    text.push_two(b" ", to_x, b" ", near)?;
    text.push_field(b"V", to_y)
}

/// Beside the lane to which a curve goes, so far from it.
fn beside(gap: u64, y: u64, to_y: u64) -> u64
    requires { (gap ≤ 66) × (78 ≤ to_y) × (to_y ≤ 1274) }
    ensures { result ≡ beside gap y to_y }
{
    if to_y < y { to_y + gap } else { to_y - gap }
}

// ---- signs

/// Adds the sign in the column, over bars and arrows. NoMemory where memory is refused.
#[tactic(auto, unfolding(crate::specs::Marks::sign_text))]
pub fn print_sign(text: &mut Text, wide: bool, column: usize, sign: &Sign) -> Result<(), NoMemory>
    ensures { OnOk result (text.new ≡ text.old ++ sign_text wide column sign.now) }
{
    let glyph = glyph_of(&sign.item);
    let x = column_x(wide, column);
    let y = row_y(sign.row);
    print_title(text, class_of(glyph), sign.number, &sign.item)?;
    print_ring(text, x, y, sign.ringed)?;
    print_dot(text, x, y, glyph)?;
    print_label(text, wide, x, y, &sign.item)?;
    print_number(text, wide, x, sign.number)?;
    text.push(b"</g>\n")
}

/// Adds a circle with a letter in it, or a dot. NoMemory where memory is refused.
pub fn print_dot(text: &mut Text, x: u64, y: u64, glyph: Glyph) -> Result<(), NoMemory>
    requires { y ≤ 2000 }
    ensures { OnOk result (text.new ≡ text.old ++ dot_text x y glyph) }
{
    match glyph {
        Glyph::Dot => print_circle(text, x, y, 3),
        _ => print_letter(text, x, y, letter(glyph)),
    }
}

#[tactic(auto, unfolding(crate::specs::Marks::letter_text))]
fn print_letter(text: &mut Text, x: u64, y: u64, letter: &[u8]) -> Result<(), NoMemory>
    requires { y ≤ 2000 }
    ensures { OnOk result (text.new ≡ text.old ++ letter_text x y letter.now) }
{
    print_circle(text, x, y, 7)?;
    text.push_two(b"<text x='", x, b"' y='", y + 4)?;
    text.push_between(b"'>", letter, b"</text>")
}

fn print_ring(text: &mut Text, x: u64, y: u64, ringed: bool) -> Result<(), NoMemory>
    ensures { OnOk result (text.new ≡ text.old ++ any_ring_text x y ringed) }
{
    match ringed {
        true => print_ring_at(text, x, y),
        false => Ok(()),
    }
}

fn print_ring_at(text: &mut Text, x: u64, y: u64) -> Result<(), NoMemory>
    ensures { OnOk result (text.new ≡ text.old ++ ring_text x y) }
{
    text.push(b"<g class='ring'>")?;
    print_circle(text, x, y, 13)?;
    text.push(b"</g>")?;
    Ok(())
}

fn print_circle(text: &mut Text, x: u64, y: u64, radius: u64) -> Result<(), NoMemory>
    ensures { OnOk result (text.new ≡ text.old ++ circle_text x y radius) }
{
    text.push_two(b"<circle cx='", x, b"' cy='", y)?;
    text.push_field(b"' r='", radius)?;
    text.push(b"'/>")?;
    Ok(())
}

/// The label below a sign.
#[tactic(auto, unfolding(crate::specs::Marks::label_text))]
fn print_label(text: &mut Text, wide: bool, x: u64, y: u64, item: &Item) -> Result<(), NoMemory>
    requires { y ≤ 1274 }
    ensures { OnOk result (text.new ≡ text.old ++ label_text wide x y item.now) }
{
    text.push_two(b"<text class='n' x='", x, b"' y='", y + 21)?;
    text.push(b"'>")?;
    print_words(text, wide, item)?;
    text.push(b"</text>")
}

/// Each tenth item has its number at the top, in a wide picture each.
#[tactic(auto, unfolding(crate::specs::Marks::number_text))]
fn print_number(text: &mut Text, wide: bool, x: u64, number: u64) -> Result<(), NoMemory>
    ensures { OnOk result (text.new ≡ text.old ++ number_text wide x number) }
{
    if !(wide || number % 10 == 0) {
        return Ok(());
    }
    text.push_two(b"<text class='n' x='", x, b"' y='56'>", number)?;
    text.push(b"</text>")
}

/// The words below a sign: a clock's time, a term, a stamp or a key, and in a wide picture a value besides.
fn print_words(text: &mut Text, wide: bool, item: &Item) -> Result<(), NoMemory>
    ensures { OnOk result (text.new ≡ text.old ++ label wide item.now) }
{
    match item {
        Item::Tick { to } => text.push_number(*to),
        Item::Take { term, .. } => text.push_field(b"t", term.value()),
        Item::Draw { start, commit, .. } => text.push_number(drawn(*start, *commit)),
        Item::Begin { start, .. } => text.push_number(start.value()),
        Item::Placed { commit, .. } => text.push_number(commit.value()),
        Item::Write { key, value, .. } => print_written(text, wide, key.value(), value),
        Item::Read { key, answer, .. } => print_answer(text, wide, key.value(), answer),
        _ => Ok(()),
    }
}

fn print_written(text: &mut Text, wide: bool, key: u64, value: &Value) -> Result<(), NoMemory>
    ensures { OnOk result (text.new ≡ text.old ++ codes "k" ++ decimal key ++ value_text wide value.now) }
{
    text.push_field(b"k", key)?;
    print_value(text, wide, value)
}

fn print_answer(
    text: &mut Text,
    wide: bool,
    key: u64,
    answer: &Option<Found>,
) -> Result<(), NoMemory>
    ensures { OnOk result (text.new ≡ text.old ++ codes "k" ++ decimal key ++ found_text wide answer.now) }
{
    text.push_field(b"k", key)?;
    match answer {
        Some(found) => print_value(text, wide, &found.value),
        None => print_none(text, wide),
    }
}

fn print_value(text: &mut Text, wide: bool, value: &Value) -> Result<(), NoMemory>
    ensures { OnOk result (text.new ≡ text.old ++ value_text wide value.now) }
{
    if !wide {
        return Ok(());
    }
    let bytes = value.as_slice();
    let front = &bytes[..bytes.len().min(8)];
    text.push(b" ")?;
    text.push_escaped(front)
}

fn print_none(text: &mut Text, wide: bool) -> Result<(), NoMemory>
    ensures { OnOk result (text.new ≡ text.old ++ found_text wide None) }
{
    if wide { text.push(b" none") } else { Ok(()) }
}

/// The stamp that was drawn: a start, or the commit of one.
fn drawn(start: Stamp, commit: Option<Stamp>) -> u64
    ensures { decimal result ≡ stamp_text start commit }
{
    match commit {
        Some(commit) => commit.value(),
        None => start.value(),
    }
}
