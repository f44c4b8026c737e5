// The lines of what the clock and the nodes do.
ghost use Rattle.std.specs.Prelude.{◌≡◌, ◌≤◌, length};
ghost use Rattle.history_book.specs.declared.item.Item.TheVariants as item;
ghost use Rattle.history_text.specs.Fits.{FitsItem};
ghost use Rattle.history_json.specs.Object.{json_line};

use history_text::{LineBuf, push_node};
use stamp_base::{NodeNo, Term};

/// Leaves the line of an item `tick`, without its line feed, in the buffer, and nothing else.
pub fn print_tick(to: u64, line: &mut LineBuf)
    ensures text { line.new ≡ json_line (item.Tick to) }
    ensures fits { FitsItem (item.Tick to) }
    ensures len { length line.new ≤ 255 }
{
    line.set_text(b"{\"kind\":\"tick\",\"to\":");
    line.push_number(to);
    line.push_text(b"}");
}

/// Leaves the line of an item `take`, without its line feed, in the buffer, and nothing else.
pub fn print_take(
    node: NodeNo,
    reading: u64,
    term: Term,
    epoch: u64,
    until: u64,
    ceiling: u64,
    line: &mut LineBuf,
)
    ensures text { line.new ≡ json_line (item.Take node reading term epoch until ceiling) }
    ensures fits { FitsItem (item.Take node reading term epoch until ceiling) }
    ensures len { length line.new ≤ 255 }
{
    line.set_text(b"{\"ceiling\":");
    line.push_number(ceiling);
    line.push_field(b",\"epoch\":", epoch);
    line.push_text(b",\"kind\":\"take\",\"node\":\"");
    push_node(node, line);
    line.push_field(b"\",\"reading\":", reading);
    line.push_field(b",\"term\":", term.value());
    line.push_field(b",\"until\":", until);
    line.push_text(b"}");
}

/// Leaves the line of an item `renew`, without its line feed, in the buffer, and nothing else.
pub fn print_renew(node: NodeNo, reading: u64, term: Term, until: u64, line: &mut LineBuf)
    ensures text { line.new ≡ json_line (item.Renew node reading term until) }
    ensures fits { FitsItem (item.Renew node reading term until) }
    ensures len { length line.new ≤ 255 }
{
    line.set_text(b"{\"kind\":\"renew\",\"node\":\"");
    push_node(node, line);
    line.push_field(b"\",\"reading\":", reading);
    line.push_field(b",\"term\":", term.value());
    line.push_field(b",\"until\":", until);
    line.push_text(b"}");
}

/// Leaves the line of an item `extend`, without its line feed, in the buffer, and nothing else.
pub fn print_extend(node: NodeNo, term: Term, ceiling: u64, line: &mut LineBuf)
    ensures text { line.new ≡ json_line (item.Extend node term ceiling) }
    ensures fits { FitsItem (item.Extend node term ceiling) }
    ensures len { length line.new ≤ 255 }
{
    line.set_text(b"{\"ceiling\":");
    line.push_number(ceiling);
    line.push_text(b",\"kind\":\"extend\",\"node\":\"");
    push_node(node, line);
    line.push_field(b"\",\"term\":", term.value());
    line.push_text(b"}");
}

/// Leaves the line of an item `crash`, without its line feed, in the buffer, and nothing else.
pub fn print_crash(node: NodeNo, term: Term, line: &mut LineBuf)
    ensures text { line.new ≡ json_line (item.Crash node term) }
    ensures fits { FitsItem (item.Crash node term) }
    ensures len { length line.new ≤ 255 }
{
    line.set_text(b"{\"kind\":\"crash\",\"node\":\"");
    push_node(node, line);
    line.push_field(b"\",\"term\":", term.value());
    line.push_text(b"}");
}
