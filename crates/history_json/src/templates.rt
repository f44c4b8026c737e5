// The line of each kind of item: texts that stand in every such line, and between them what the item says. It takes no memory.
ghost use Rattle.std.specs.Prelude.{◌≡◌, ◌≤◌, length};
ghost use Rattle.history_text.specs.Fits.{FitsItem};
ghost use Rattle.history_json.specs.Object.{json_line};

mod actors;
mod nodes;
mod requests;
mod sessions;

use actors::{print_fault, print_mark, print_note, print_refused, print_step};
use history_book::Item;
use history_text::LineBuf;
use nodes::{print_crash, print_extend, print_renew, print_take, print_tick};
use requests::{
    print_accept, print_ask_begin, print_ask_commit, print_begin_draw, print_commit_draw,
    print_placed,
};
use sessions::{
    print_begin, print_committed, print_end, print_read_none, print_read_some, print_vanish,
    print_write,
};

/// Leaves the item's line of JSON, without its line feed, in the buffer, and nothing else.
pub fn print_object(item: &Item, line: &mut LineBuf)
    ensures text { line.new ≡ json_line item.now }
    ensures fits { FitsItem item.now }
    ensures len { length line.new ≤ 255 }
{
    match *item {
        Item::Tick { to } => print_tick(to, line),
        Item::Note { actor, note } => print_note(actor, &note, line),
        Item::Take {
            node,
            reading,
            term,
            epoch,
            until,
            ceiling,
        } => print_take(node, reading, term, epoch, until, ceiling, line),
        Item::Renew {
            node,
            reading,
            term,
            until,
        } => print_renew(node, reading, term, until, line),
        Item::Extend {
            node,
            term,
            ceiling,
        } => print_extend(node, term, ceiling, line),
        Item::AskBegin { session, node } => print_ask_begin(session, node, line),
        Item::AskCommit {
            session,
            node,
            start,
        } => print_ask_commit(session, node, start, line),
        Item::Accept {
            session,
            node,
            term,
            reading,
        } => print_accept(session, node, term, reading, line),
        Item::Draw {
            session,
            node,
            term,
            start,
            commit: None,
        } => print_begin_draw(session, node, term, start, line),
        Item::Draw {
            session,
            node,
            term,
            start,
            commit: Some(commit),
        } => print_commit_draw(session, node, term, start, commit, line),
        Item::Begin { session, start } => print_begin(session, start, line),
        Item::Write {
            session,
            start,
            key,
            value,
        } => print_write(session, start, key, value, line),
        Item::Read {
            session,
            start,
            key,
            answer: None,
        } => print_read_none(session, start, key, line),
        Item::Read {
            session,
            start,
            key,
            answer: Some(answer),
        } => print_read_some(session, start, key, answer, line),
        Item::Placed { start, commit } => print_placed(start, commit, line),
        Item::Committed {
            session,
            start,
            commit,
        } => print_committed(session, start, commit, line),
        Item::Mark { actor, start } => print_mark(actor, start, line),
        Item::Step { actor, what } => print_step(actor, what, line),
        Item::End {
            session,
            start,
            how,
        } => print_end(session, start, how, line),
        Item::Refused { actor, cause } => print_refused(actor, cause, line),
        Item::Fault { actor, store } => print_fault(actor, store, line),
        Item::Crash { node, term } => print_crash(node, term, line),
        Item::Vanish { session } => print_vanish(session, line),
    }
}
