// The lines of what requests go through.
ghost use Rattle.std.specs.Prelude.{◌≡◌, ◌≤◌, length, None, Some};
ghost use Rattle.history_book.specs.declared.item.Item.TheVariants as item;
ghost use Rattle.history_text.specs.Fits.{FitsItem};
ghost use Rattle.history_json.specs.Object.{json_line};

use history_text::{LineBuf, push_node, push_session};
use stamp_base::{NodeNo, SessionNo, Stamp, Term};

/// Leaves the line of an item `ask-begin`, without its line feed, in the buffer, and nothing else.
pub fn print_ask_begin(session: SessionNo, node: NodeNo, line: &mut LineBuf)
    ensures text { line.new ≡ json_line (item.AskBegin session node) }
    ensures fits { FitsItem (item.AskBegin session node) }
    ensures len { length line.new ≤ 255 }
{
    line.set_text(b"{\"kind\":\"ask-begin\",\"node\":\"");
    push_node(node, line);
    line.push_text(b"\",\"session\":\"");
    push_session(session, line);
    line.push_text(b"\"}");
}

/// Leaves the line of an item `ask-commit`, without its line feed, in the buffer, and nothing else.
pub fn print_ask_commit(session: SessionNo, node: NodeNo, start: Stamp, line: &mut LineBuf)
    ensures text { line.new ≡ json_line (item.AskCommit session node start) }
    ensures fits { FitsItem (item.AskCommit session node start) }
    ensures len { length line.new ≤ 255 }
{
    line.set_text(b"{\"kind\":\"ask-commit\",\"node\":\"");
    push_node(node, line);
    line.push_text(b"\",\"session\":\"");
    push_session(session, line);
    line.push_field(b"\",\"start\":", start.value());
    line.push_text(b"}");
}

/// Leaves the line of an item `accept`, without its line feed, in the buffer, and nothing else.
pub fn print_accept(session: SessionNo, node: NodeNo, term: Term, reading: u64, line: &mut LineBuf)
    ensures text { line.new ≡ json_line (item.Accept session node term reading) }
    ensures fits { FitsItem (item.Accept session node term reading) }
    ensures len { length line.new ≤ 255 }
{
    line.set_text(b"{\"kind\":\"accept\",\"node\":\"");
    push_node(node, line);
    line.push_field(b"\",\"reading\":", reading);
    line.push_text(b",\"session\":\"");
    push_session(session, line);
    line.push_field(b"\",\"term\":", term.value());
    line.push_text(b"}");
}

/// Leaves the line of an item `draw` of a begin, without its line feed, in the buffer, and nothing else.
pub fn print_begin_draw(
    session: SessionNo,
    node: NodeNo,
    term: Term,
    start: Stamp,
    line: &mut LineBuf,
)
    ensures text { line.new ≡ json_line (item.Draw session node term start None) }
    ensures fits { FitsItem (item.Draw session node term start None) }
    ensures len { length line.new ≤ 255 }
{
    line.set_text(b"{\"kind\":\"draw\",\"node\":\"");
    push_node(node, line);
    line.push_text(b"\",\"session\":\"");
    push_session(session, line);
    line.push_field(b"\",\"start\":", start.value());
    line.push_field(b",\"term\":", term.value());
    line.push_text(b"}");
}

/// Leaves the line of an item `draw` of a commit, without its line feed, in the buffer, and nothing else.
pub fn print_commit_draw(
    session: SessionNo,
    node: NodeNo,
    term: Term,
    start: Stamp,
    commit: Stamp,
    line: &mut LineBuf,
)
    ensures text { line.new ≡ json_line (item.Draw session node term start (Some commit)) }
    ensures fits { FitsItem (item.Draw session node term start (Some commit)) }
    ensures len { length line.new ≤ 255 }
{
    line.set_text(b"{\"commit\":");
    line.push_number(commit.value());
    line.push_text(b",\"kind\":\"draw\",\"node\":\"");
    push_node(node, line);
    line.push_text(b"\",\"session\":\"");
    push_session(session, line);
    line.push_field(b"\",\"start\":", start.value());
    line.push_field(b",\"term\":", term.value());
    line.push_text(b"}");
}

/// Leaves the line of an item `placed`, without its line feed, in the buffer, and nothing else.
pub fn print_placed(start: Stamp, commit: Stamp, line: &mut LineBuf)
    ensures text { line.new ≡ json_line (item.Placed start commit) }
    ensures fits { FitsItem (item.Placed start commit) }
    ensures len { length line.new ≤ 255 }
{
    line.set_text(b"{\"commit\":");
    line.push_number(commit.value());
    line.push_field(b",\"kind\":\"placed\",\"start\":", start.value());
    line.push_text(b"}");
}
