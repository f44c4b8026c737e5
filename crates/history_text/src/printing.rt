ghost use Rattle.std.specs.Prelude.{◌≡◌, ◌≤◌, length};
ghost use Rattle.history_text.specs.Text.{body_of, text_of};
ghost use Rattle.history_text.specs.Fits.{FitsItem};

mod causes;
mod kinds;
mod steps;
mod words;

use crate::line::LineBuf;
use causes::print_refused;
pub use causes::push_cause;
use history_book::Item;
pub use kinds::push_ending;
use kinds::{
    print_accept, print_ask_begin, print_ask_commit, print_begin, print_committed, print_crash,
    print_draw, print_end, print_extend, print_fault, print_mark, print_note, print_placed,
    print_read, print_renew, print_take, print_vanish, print_write,
};
use steps::print_step;
pub use steps::push_step;
pub use words::{push_actor, push_key, push_node, push_session, push_stage, push_store};

/// Leaves the item's line in the buffer, and nothing else.
pub fn print_item(item: &Item, line: &mut LineBuf)
    ensures text { line.new ≡ text_of item.now }
    ensures fits { FitsItem item.now }
    ensures room { length (text_of item.now) ≤ 256 }
{
    print_body(item, line);
    line.push_text(b"\n");
}

/// Leaves the item's line without its line feed in the buffer, and nothing else: at most 200 bytes.
pub fn print_body(item: &Item, line: &mut LineBuf)
    ensures text { line.new ≡ body_of item.now }
    ensures fits { FitsItem item.now }
    ensures len { length line.new ≤ 200 }
{
    match *item {
        Item::Tick { to } => {
            line.set_text(b"tick ");
            line.push_number(to);
        }
        Item::Note { actor, note } => print_note(actor, note, line),
        Item::Take {
            node,
            reading,
            term,
            epoch,
            until,
            ceiling,
        } => print_take(node, reading, term, epoch, until, ceiling, line),
        Item::Renew {
            node,
            reading,
            term,
            until,
        } => print_renew(node, reading, term, until, line),
        Item::Extend {
            node,
            term,
            ceiling,
        } => print_extend(node, term, ceiling, line),
        Item::AskBegin { session, node } => print_ask_begin(session, node, line),
        Item::AskCommit {
            session,
            node,
            start,
        } => print_ask_commit(session, node, start, line),
        Item::Accept {
            session,
            node,
            term,
            reading,
        } => print_accept(session, node, term, reading, line),
        Item::Draw {
            session,
            node,
            term,
            start,
            commit,
        } => print_draw(session, node, term, start, commit, line),
        Item::Begin { session, start } => print_begin(session, start, line),
        Item::Write {
            session,
            start,
            key,
            value,
        } => print_write(session, start, key, value, line),
        Item::Read {
            session,
            start,
            key,
            answer,
        } => print_read(session, start, key, answer, line),
        Item::Placed { start, commit } => print_placed(start, commit, line),
        Item::Committed {
            session,
            start,
            commit,
        } => print_committed(session, start, commit, line),
        Item::Mark { actor, start } => print_mark(actor, start, line),
        Item::Step { actor, what } => print_step(actor, what, line),
        Item::End {
            session,
            start,
            how,
        } => print_end(session, start, how, line),
        Item::Refused { actor, cause } => print_refused(actor, cause, line),
        Item::Fault { actor, store } => print_fault(actor, store, line),
        Item::Crash { node, term } => print_crash(node, term, line),
        Item::Vanish { session } => print_vanish(session, line),
    }
}
