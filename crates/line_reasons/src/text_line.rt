// What is wrong with a line of text.
ghost use Rattle.std.specs.Prelude.{◌≡◌, ◌≤◌, true, length, IfOk, is_some};
ghost use Rattle.std.specs.List.{list_all};
ghost use Rattle.std.specs.Option.{option_map};
ghost use Rattle.history_reading.specs.ReadWords.{after_text, first_word, word_len};
ghost use Rattle.line_reasons.specs.TextLines.{TellsText, ends_in_return, has_loose_blank, has_text, is_object, is_seen};

use crate::broken::broken;
use crate::fault::LineFault;
use history_json::row_of;
use stamp_base::NoMemory;
use std::alloc::Global;

/// What is wrong with a line of text that is no item. NoMemory where memory is refused.
pub fn text_fault(alloc: Global, line: &[u8]) -> Result<LineFault, NoMemory>
    ensures { IfOk result (TellsText line.now) }
{
    if ends_in_return(line) {
        Ok(LineFault::CarriageReturn)
    } else if is_object(line) {
        Ok(LineFault::Mixed)
    } else if !is_seen(line) {
        Ok(LineFault::Unseen)
    } else if has_loose_blank(line) {
        Ok(LineFault::LooseBlank)
    } else {
        member_fault(alloc, line)
    }
}

fn member_fault(alloc: Global, line: &[u8]) -> Result<LineFault, NoMemory>
    ensures { IfOk result (TellsText line.now) }
{
    let kind = first_word(line);
    match row_of(kind, has_text(b" commit=", line), has_text(b" from=", line)) {
        Some(row) => broken(alloc, kind, b"", row, line),
        None => Ok(LineFault::UnknownKind),
    }
}

fn ends_in_return(line: &[u8]) -> bool
    ensures { result ≡ ends_in_return line.now }
{
    match line.last() {
        Some(byte) => *byte == b'\r',
        None => false,
    }
}

fn is_object(line: &[u8]) -> bool
    ensures { result ≡ is_object line.now }
{
    match line {
        [byte, ..] => *byte == b'{',
        [] => false,
    }
}

/// Whether all bytes are visible or blanks.
fn is_seen(line: &[u8]) -> bool
    ensures { result ≡ list_all is_seen line.now }
{
    for byte in line {
        if !(b' '..=b'~').contains(byte) {
            return false;
        }
    }
    true
}

/// Whether a blank stands at the front or the end, or behind another.
#[tactic(auto, unfolding(crate::specs::TextLines::has_loose_blank))]
fn has_loose_blank(line: &[u8]) -> bool
    ensures { result ≡ has_loose_blank true line.now }
{
    let mut before = true;
    let mut rest = line;
    while let [byte, more @ ..] = rest {
        let blank = *byte == b' ';
        if before && blank {
            return true;
        }
        before = blank;
        rest = more;
    }
    before
}

#[tactic(auto, unfolding(crate::specs::TextLines::has_text))]
fn has_text(text: &[u8], bytes: &[u8]) -> bool
    ensures { result ≡ has_text text.now bytes.now }
{
    let mut rest = bytes;
    while let [_, more @ ..] = rest {
        if after(text, rest).is_some() {
            return true;
        }
        rest = more;
    }
    false
}

/// The bytes behind a text.
#[tactic(auto, unfolding(history_reading::specs::ReadWords::after_text))]
pub fn after<'a>(text: &[u8], bytes: &'a [u8]) -> Option<&'a [u8]>
    ensures { option_map (λ rest. rest.now) result ≡ after_text text.now bytes.now }
{
    let mut left = text;
    let mut rest = bytes;
    while let [t, more @ ..] = left {
        match rest {
            [b, after @ ..] if t == b => rest = after,
            _ => return None,
        }
        left = more;
    }
    Some(rest)
}

/// The bytes before the first blank.
#[tactic(auto, unfolding(history_reading::specs::ReadWords::first_word))]
pub fn first_word(bytes: &[u8]) -> &[u8]
    ensures { result.now ≡ first_word bytes.now }
{
    &bytes[..word_len(bytes)]
}

/// How many bytes stand before the first blank: all of them where there is none.
#[tactic(auto, unfolding(history_reading::specs::ReadWords::word_len))]
pub fn word_len(bytes: &[u8]) -> usize
    ensures len { result ≡ word_len bytes.now }
    ensures within { result ≤ length bytes.now }
{
    let mut rest = bytes;
    let mut len = 0;
    while let [b, more @ ..] = rest {
        if *b == b' ' {
            return len;
        }
        len += 1;
        rest = more;
    }
    len
}
