// The page of a picture: its head and caption, and its legend.
ghost use Rattle.std.specs.Prelude.{◌≡◌, ◌+◌, ◌-◌, ◌≤◌, ◌<◌, ◌++◌, ◌^◌, ◌*◌, OnOk};
ghost use Rattle.history_view.specs.Page.{bar_key_text, caption_text, frame_text, ground_text, head_text, key_sign_text, key_text, key_words, key_x, key_y, left_out, left_text, legend_text, legends_text, open_text, page_height, page_width, sign_key_text, sized_head_text, words_text};
ghost use Rattle.history_view.specs.Style.{style_text};

use crate::glyph::{Glyph, Key, class_of, kind_word, meaning};
use crate::marks::{column_x, print_dot, row_y};
use crate::picture::Frame;
use crate::style::STYLE;
use crate::text::Text;
use stamp_base::NoMemory;

/// How wide the page of so many signs is, with so many keys in its legend.
pub fn page_width(wide: bool, count: usize, keys: usize) -> u64
    ensures { result ≡ page_width wide count keys }
{
    (column_x(wide, count) + 30)
        .max(480)
        .max(24 + 104 * keys.min(8) as u64)
}

/// How high the page of so many lanes is, with so many keys in its legend.
pub fn page_height(rows: usize, keys: usize) -> u64
    ensures { result ≡ page_height rows keys }
{
    row_y(rows) + 22 + 18 * ((keys.min(64) + 7) / 8) as u64
}

/// Adds what stands before the lanes, on a page of so many signs, lanes and keys in its legend. NoMemory where memory is refused.
pub fn print_head(
    text: &mut Text,
    frame: &Frame,
    caption: &[u8],
    shown: usize,
    rows: usize,
    keys: usize,
) -> Result<(), NoMemory>
    requires { frame.now.last < 2 ^ 63 }
    ensures { OnOk result (text.new ≡ text.old ++ head_text frame.now caption.now shown rows keys) }
{
    let width = page_width(frame.wide, shown, keys);
    print_sized_head(text, frame, caption, width, page_height(rows, keys), shown)
}

fn print_sized_head(
    text: &mut Text,
    frame: &Frame,
    caption: &[u8],
    width: u64,
    height: u64,
    shown: usize,
) -> Result<(), NoMemory>
    requires { frame.now.last < 2 ^ 63 }
    ensures { OnOk result (text.new ≡ text.old ++ sized_head_text frame.now caption.now width height shown) }
{
    print_open(text, width, height)?;
    text.push(STYLE.as_bytes())?;
    print_ground(text, width, height)?;
    print_caption(text, caption)?;
    print_frame(text, frame, left_out(frame, shown))
}

fn print_open(text: &mut Text, width: u64, height: u64) -> Result<(), NoMemory>
    ensures { OnOk result (text.new ≡ text.old ++ open_text width height) }
{
    text.push_two(
        b"<svg xmlns='http://www.w3.org/2000/svg' width='",
        width,
        b"' height='",
        height,
    )?;
    text.push_two(b"' viewBox='0 0 ", width, b" ", height)?;
    text.push(b"' font-family='sans-serif' font-size='11' text-anchor='middle'>\n")?;
    Ok(())
}

#[tactic(auto, unfolding(crate::specs::Page::ground_text))]
fn print_ground(text: &mut Text, width: u64, height: u64) -> Result<(), NoMemory>
    ensures { OnOk result (text.new ≡ text.old ++ ground_text width height) }
{
    text.push_two(b"<rect class='page' width='", width, b"' height='", height)?;
    text.push(b"'/>\n")
}

#[tactic(auto, unfolding(crate::specs::Page::caption_text))]
fn print_caption(text: &mut Text, caption: &[u8]) -> Result<(), NoMemory>
    ensures { OnOk result (text.new ≡ text.old ++ caption_text caption.now) }
{
    text.push(b"<text class='caption' x='12' y='20'>")?;
    text.push_escaped(caption)?;
    text.push(b"</text>\n")
}

/// Which items the picture shows, and how many of them it leaves out.
fn print_frame(text: &mut Text, frame: &Frame, left: u64) -> Result<(), NoMemory>
    ensures { OnOk result (text.new ≡ text.old ++ frame_text frame.now left) }
{
    text.push_field(b"<text class='lane n' x='12' y='36'>items ", frame.first)?;
    text.push_two(b" to ", frame.last, b" of ", frame.total)?;
    print_left(text, left)?;
    text.push(b"</text>\n")?;
    Ok(())
}

fn left_out(frame: &Frame, shown: usize) -> u64
    requires { frame.now.last < 2 ^ 63 }
    ensures { result ≡ left_out frame.now shown }
{
    (frame.last + 1)
        .saturating_sub(frame.first)
        .saturating_sub(shown as u64)
}

#[tactic(auto, unfolding(crate::specs::Page::left_text))]
fn print_left(text: &mut Text, left: u64) -> Result<(), NoMemory>
    ensures { OnOk result (text.new ≡ text.old ++ left_text left) }
{
    if left == 0 {
        return Ok(());
    }
    text.push_field(b", ", left)?;
    text.push(b" of them left out")
}

// ---- the legend

/// Adds the legend at that height: at the left, and again behind each two hundred columns, so many times. NoMemory where memory is
/// refused.
#[tactic(auto, unfolding(crate::specs::Page::legends_text))]
pub fn print_legends(
    text: &mut Text,
    wide: bool,
    y: u64,
    keys: &[Key],
    times: usize,
) -> Result<(), NoMemory>
    requires height { (7 ≤ y) × (y ≤ 1500) }
    requires few { 200 * times ≤ 2 ^ 64 + 199 }
    ensures { OnOk result (text.new ≡ text.old ++ legends_text wide y keys.now times) }
{
    for number in 0..times {
        print_legend(text, column_x(wide, 200 * number) - 72, y, keys)?;
    }
    Ok(())
}

#[tactic(auto, unfolding(crate::specs::Words::each_text))]
fn print_legend(text: &mut Text, base: u64, y: u64, keys: &[Key]) -> Result<(), NoMemory>
    requires left { (24 ≤ base) × (base ≤ 40000) }
    requires height { (7 ≤ y) × (y ≤ 1500) }
    ensures { OnOk result (text.new ≡ text.old ++ legend_text base y keys.now) }
{
    for number in 0..keys.len() {
        print_key(text, base, y, number, &keys[number])?;
    }
    Ok(())
}

/// The sign and the words of a key, in its place: eight stand in a line.
fn print_key(text: &mut Text, base: u64, y: u64, number: usize, key: &Key) -> Result<(), NoMemory>
    requires left { (24 ≤ base) × (base ≤ 40000) }
    requires height { (7 ≤ y) × (y ≤ 1500) }
    ensures { OnOk result (text.new ≡ text.old ++ key_text base y number key.now) }
{
    let x = key_x(base, number);
    let line = key_y(y, number);
    print_key_sign(text, x, line, *key)?;
    print_key_words(text, x, line, words_of(*key))
}

fn key_x(base: u64, number: usize) -> u64
    requires { base ≤ 40000 }
    ensures x { result ≡ key_x base number }
    ensures within { (base ≤ result) × (result ≤ 150000) }
{
    base + 104 * (number % 8) as u64
}

fn key_y(y: u64, number: usize) -> u64
    requires { (7 ≤ y) × (y ≤ 1500) }
    ensures y { result ≡ key_y y number }
    ensures within { (7 ≤ result) × (result ≤ 1700) }
{
    y + 18 * (number.min(63) / 8) as u64
}

fn print_key_sign(text: &mut Text, x: u64, y: u64, key: Key) -> Result<(), NoMemory>
    requires { (9 ≤ x) × (7 ≤ y) × (y ≤ 1700) }
    ensures { OnOk result (text.new ≡ text.old ++ key_sign_text x y key) }
{
    match key {
        Key::Bar(kind) => print_bar_key(text, x, y, kind_word(kind)),
        Key::Sign(glyph) => print_sign_key(text, x, y, glyph),
    }
}

fn print_bar_key(text: &mut Text, x: u64, y: u64, class: &[u8]) -> Result<(), NoMemory>
    requires { (9 ≤ x) × (7 ≤ y) }
    ensures { OnOk result (text.new ≡ text.old ++ bar_key_text x y class.now) }
{
    text.push_between(b"<g class='", class, b"'>")?;
    text.push_two(b"<rect x='", x - 9, b"' y='", y - 7)?;
    text.push(b"' width='18' height='14' rx='5'/></g>")?;
    Ok(())
}

#[tactic(auto, unfolding(crate::specs::Page::sign_key_text))]
fn print_sign_key(text: &mut Text, x: u64, y: u64, glyph: Glyph) -> Result<(), NoMemory>
    requires { y ≤ 1700 }
    ensures { OnOk result (text.new ≡ text.old ++ key_sign_text x y (Key.Sign glyph)) }
{
    text.push_between(b"<g class='", class_of(glyph), b"'>")?;
    print_dot(text, x, y, glyph)?;
    text.push(b"</g>")
}

fn print_key_words(text: &mut Text, x: u64, y: u64, words: &[u8]) -> Result<(), NoMemory>
    requires { (x ≤ 150000) × (y ≤ 1700) }
    ensures { OnOk result (text.new ≡ text.old ++ words_text x y words.now) }
{
    text.push_two(b"<text class='lane n' x='", x + 13, b"' y='", y + 4)?;
    text.push_between(b"'>", words, b"</text>\n")?;
    Ok(())
}

/// What the legend says of a key.
fn words_of(key: Key) -> &'static [u8]
    ensures { result.now ≡ key_words key }
{
    match key {
        Key::Bar(kind) => kind_word(kind),
        Key::Sign(glyph) => meaning(glyph),
    }
}
