// The lines of what sessions do and are told.
ghost use Rattle.std.specs.Prelude.{◌≡◌, ◌+◌, ◌*◌, ◌≤◌, ◌++◌, length, None, Some};
ghost use Rattle.json.specs.Print.{escape, escape_byte};
ghost use Rattle.stamp_base.specs.Words.{IsValue, IsVisible};
ghost use Rattle.history_book.specs.declared.item.Item.TheVariants as item;
ghost use Rattle.history_text.specs.Fits.{FitsItem};
ghost use Rattle.history_json.specs.Object.{json_line};

use history_book::{Ending, Found};
use history_text::{LineBuf, push_ending, push_key, push_session};
use stamp_base::{KeyNo, SessionNo, Stamp, Value};

/// Leaves the line of an item `begin`, without its line feed, in the buffer, and nothing else.
pub fn print_begin(session: SessionNo, start: Stamp, line: &mut LineBuf)
    ensures text { line.new ≡ json_line (item.Begin session start) }
    ensures fits { FitsItem (item.Begin session start) }
    ensures len { length line.new ≤ 255 }
{
    line.set_text(b"{\"kind\":\"begin\",\"session\":\"");
    push_session(session, line);
    line.push_field(b"\",\"start\":", start.value());
    line.push_text(b"}");
}

/// Leaves the line of an item `write`, without its line feed, in the buffer, and nothing else.
pub fn print_write(session: SessionNo, start: Stamp, key: KeyNo, value: Value, line: &mut LineBuf)
    ensures text { line.new ≡ json_line (item.Write session start key value) }
    ensures fits { FitsItem (item.Write session start key value) }
    ensures len { length line.new ≤ 255 }
{
    line.set_text(b"{\"key\":\"");
    push_key(key, line);
    line.push_text(b"\",\"kind\":\"write\",\"session\":\"");
    push_session(session, line);
    line.push_field(b"\",\"start\":", start.value());
    line.push_text(b",\"value\":\"");
    push_value(value, line);
    line.push_text(b"\"}");
}

/// Leaves the line of an item `read` that found nothing, without its line feed, in the buffer, and nothing else.
pub fn print_read_none(session: SessionNo, start: Stamp, key: KeyNo, line: &mut LineBuf)
    ensures text { line.new ≡ json_line (item.Read session start key None) }
    ensures fits { FitsItem (item.Read session start key None) }
    ensures len { length line.new ≤ 255 }
{
    line.set_text(b"{\"key\":\"");
    push_key(key, line);
    line.push_text(b"\",\"kind\":\"read\",\"session\":\"");
    push_session(session, line);
    line.push_field(b"\",\"start\":", start.value());
    line.push_text(b"}");
}

/// Leaves the line of an item `read` that found a value, without its line feed, in the buffer, and nothing else.
pub fn print_read_some(
    session: SessionNo,
    start: Stamp,
    key: KeyNo,
    answer: Found,
    line: &mut LineBuf,
)
    ensures text { line.new ≡ json_line (item.Read session start key (Some answer)) }
    ensures fits { FitsItem (item.Read session start key (Some answer)) }
    ensures len { length line.new ≤ 255 }
{
    line.set_text(b"{\"from\":");
    line.push_number(answer.from.value());
    line.push_text(b",\"key\":\"");
    push_key(key, line);
    line.push_text(b"\",\"kind\":\"read\",\"session\":\"");
    push_session(session, line);
    line.push_field(b"\",\"start\":", start.value());
    line.push_text(b",\"value\":\"");
    push_value(answer.value, line);
    line.push_text(b"\"}");
}

/// Leaves the line of an item `committed`, without its line feed, in the buffer, and nothing else.
pub fn print_committed(session: SessionNo, start: Stamp, commit: Stamp, line: &mut LineBuf)
    ensures text { line.new ≡ json_line (item.Committed session start commit) }
    ensures fits { FitsItem (item.Committed session start commit) }
    ensures len { length line.new ≤ 255 }
{
    line.set_text(b"{\"commit\":");
    line.push_number(commit.value());
    line.push_text(b",\"kind\":\"committed\",\"session\":\"");
    push_session(session, line);
    line.push_field(b"\",\"start\":", start.value());
    line.push_text(b"}");
}

/// Leaves the line of an item `end`, without its line feed, in the buffer, and nothing else.
pub fn print_end(session: SessionNo, start: Stamp, how: Ending, line: &mut LineBuf)
    ensures text { line.new ≡ json_line (item.End session start how) }
    ensures fits { FitsItem (item.End session start how) }
    ensures len { length line.new ≤ 255 }
{
    line.set_text(b"{\"how\":\"");
    push_ending(how, line);
    line.push_text(b"\",\"kind\":\"end\",\"session\":\"");
    push_session(session, line);
    line.push_field(b"\",\"start\":", start.value());
    line.push_text(b"}");
}

/// Leaves the line of an item `vanish`, without its line feed, in the buffer, and nothing else.
pub fn print_vanish(session: SessionNo, line: &mut LineBuf)
    ensures text { line.new ≡ json_line (item.Vanish session) }
    ensures fits { FitsItem (item.Vanish session) }
    ensures len { length line.new ≤ 255 }
{
    line.set_text(b"{\"kind\":\"vanish\",\"session\":\"");
    push_session(session, line);
    line.push_text(b"\"}");
}

/// Adds the value as it stands between quotes.
fn push_value(value: Value, line: &mut LineBuf)
    requires { length line.old + 128 ≤ 256 }
    ensures text { line.new ≡ line.old ++ escape value }
    ensures fits { IsValue value }
    ensures len { length line.new ≤ length line.old + 128 }
{
    push_escaped(value.as_slice(), line);
}

/// Adds the bytes as they stand between quotes.
fn push_escaped(bytes: &[u8], line: &mut LineBuf)
    requires visible { IsValue bytes.now }
    requires room { length line.old + 128 ≤ 256 }
    ensures text { line.new ≡ line.old ++ escape bytes.now }
    ensures len { length line.new ≤ length line.old + 128 }
{
    for byte in bytes {
        push_byte(*byte, line);
    }
}

/// Adds the byte as it stands between quotes: behind a backslash, where it is one or a quote.
fn push_byte(byte: u8, line: &mut LineBuf)
    requires visible { IsVisible byte }
    requires room { length line.old + 2 ≤ 256 }
    ensures text { line.new ≡ line.old ++ escape_byte byte }
    ensures len { length line.new ≤ length line.old + 2 }
{
    match byte {
        b'"' => line.push_text(b"\\\""),
        b'\\' => line.push_text(b"\\\\"),
        _ => line.push_text(&[byte]),
    }
}
