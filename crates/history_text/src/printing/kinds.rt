// A function for each kind of item: it leaves the item's words in the line, and nothing else.
ghost use Rattle.std.specs.Prelude.{◌≡◌, ◌+◌, ◌≤◌, ◌++◌, length};
ghost use Rattle.history_text.specs.Text.{body_of, note_text, answer_text, commit_text, ending_text};
ghost use Rattle.history_book.specs.declared.item.Item.TheVariants as item;
ghost use Rattle.history_text.specs.Fits.{FitsAnswer, FitsCommit, FitsItem, FitsNote};

use super::words::{
    print_one, push_actor, push_key, push_node, push_session, push_stage, push_store,
};
use crate::line::LineBuf;
use history_book::{Actor, Ending, Found, Note};
use stamp_base::{KeyNo, NodeNo, SessionNo, Stamp, Store, Term, Value};

/// Leaves the words of an item `note`, without its line feed, in the buffer, and nothing else.
pub fn print_note(actor: Actor, note: Note, line: &mut LineBuf)
    ensures text { line.new ≡ body_of (item.Note actor note) }
    ensures fits { FitsItem (item.Note actor note) }
    ensures len { length line.new ≤ 200 }
{
    line.set_text(b"note ");
    push_actor(actor, line);
    line.push_text(b" ");
    print_note_text(note, line);
}

fn print_note_text(note: Note, line: &mut LineBuf)
    requires { length line.old + 30 ≤ 256 }
    ensures text { line.new ≡ line.old ++ note_text note }
    ensures fits { FitsNote note }
    ensures len { length line.new ≤ length line.old + 30 }
{
    match note {
        Note::Post(name) => {
            line.push_text(b"post ");
            line.push_text(name.as_slice());
        }
        Note::Await(name) => {
            line.push_text(b"await ");
            line.push_text(name.as_slice());
        }
        Note::Hold(stage) => {
            line.push_text(b"hold ");
            push_stage(stage, line);
        }
        Note::Free(stage) => {
            line.push_text(b"free ");
            push_stage(stage, line);
        }
    }
}

/// Leaves the words of an item `take`, without its line feed, in the buffer, and nothing else.
pub fn print_take(
    node: NodeNo,
    reading: u64,
    term: Term,
    epoch: u64,
    until: u64,
    ceiling: u64,
    line: &mut LineBuf,
)
    ensures text { line.new ≡ body_of (item.Take node reading term epoch until ceiling) }
    ensures fits { FitsItem (item.Take node reading term epoch until ceiling) }
    ensures len { length line.new ≤ 200 }
{
    line.set_text(b"take ");
    push_node(node, line);
    line.push_field(b" reading=", reading);
    line.push_field(b" term=", term.value());
    line.push_field(b" epoch=", epoch);
    line.push_field(b" until=", until);
    line.push_field(b" ceiling=", ceiling);
}

/// Leaves the words of an item `renew`, without its line feed, in the buffer, and nothing else.
pub fn print_renew(node: NodeNo, reading: u64, term: Term, until: u64, line: &mut LineBuf)
    ensures text { line.new ≡ body_of (item.Renew node reading term until) }
    ensures fits { FitsItem (item.Renew node reading term until) }
    ensures len { length line.new ≤ 200 }
{
    line.set_text(b"renew ");
    push_node(node, line);
    line.push_field(b" reading=", reading);
    line.push_field(b" term=", term.value());
    line.push_field(b" until=", until);
}

/// Leaves the words of an item `extend`, without its line feed, in the buffer, and nothing else.
pub fn print_extend(node: NodeNo, term: Term, ceiling: u64, line: &mut LineBuf)
    ensures text { line.new ≡ body_of (item.Extend node term ceiling) }
    ensures fits { FitsItem (item.Extend node term ceiling) }
    ensures len { length line.new ≤ 200 }
{
    line.set_text(b"extend ");
    push_node(node, line);
    line.push_field(b" term=", term.value());
    line.push_field(b" ceiling=", ceiling);
}

/// Leaves the words of an item `ask-begin`, without its line feed, in the buffer, and nothing else.
pub fn print_ask_begin(session: SessionNo, node: NodeNo, line: &mut LineBuf)
    ensures text { line.new ≡ body_of (item.AskBegin session node) }
    ensures fits { FitsItem (item.AskBegin session node) }
    ensures len { length line.new ≤ 200 }
{
    line.set_text(b"ask-begin ");
    push_session(session, line);
    line.push_text(b" ");
    push_node(node, line);
}

/// Leaves the words of an item `ask-commit`, without its line feed, in the buffer, and nothing else.
pub fn print_ask_commit(session: SessionNo, node: NodeNo, start: Stamp, line: &mut LineBuf)
    ensures text { line.new ≡ body_of (item.AskCommit session node start) }
    ensures fits { FitsItem (item.AskCommit session node start) }
    ensures len { length line.new ≤ 200 }
{
    line.set_text(b"ask-commit ");
    push_session(session, line);
    line.push_text(b" ");
    push_node(node, line);
    line.push_field(b" start=", start.value());
}

/// Leaves the words of an item `accept`, without its line feed, in the buffer, and nothing else.
pub fn print_accept(session: SessionNo, node: NodeNo, term: Term, reading: u64, line: &mut LineBuf)
    ensures text { line.new ≡ body_of (item.Accept session node term reading) }
    ensures fits { FitsItem (item.Accept session node term reading) }
    ensures len { length line.new ≤ 200 }
{
    line.set_text(b"accept ");
    push_session(session, line);
    line.push_text(b" ");
    push_node(node, line);
    line.push_field(b" term=", term.value());
    line.push_field(b" reading=", reading);
}

/// Leaves the words of an item `draw`, without its line feed, in the buffer, and nothing else.
pub fn print_draw(
    session: SessionNo,
    node: NodeNo,
    term: Term,
    start: Stamp,
    commit: Option<Stamp>,
    line: &mut LineBuf,
)
    ensures text { line.new ≡ body_of (item.Draw session node term start commit) }
    ensures fits { FitsItem (item.Draw session node term start commit) }
    ensures len { length line.new ≤ 200 }
{
    line.set_text(b"draw ");
    push_session(session, line);
    line.push_text(b" ");
    push_node(node, line);
    line.push_field(b" term=", term.value());
    line.push_field(b" start=", start.value());
    print_commit(commit, line);
}

fn print_commit(commit: Option<Stamp>, line: &mut LineBuf)
    requires { length line.old + 30 ≤ 256 }
    ensures text { line.new ≡ line.old ++ commit_text commit }
    ensures fits { FitsCommit commit }
    ensures len { length line.new ≤ length line.old + 30 }
{
    match commit {
        None => line.push_text(b""),
        Some(commit) => print_one(b" commit=", commit.value(), line),
    }
}

/// Leaves the words of an item `begin`, without its line feed, in the buffer, and nothing else.
pub fn print_begin(session: SessionNo, start: Stamp, line: &mut LineBuf)
    ensures text { line.new ≡ body_of (item.Begin session start) }
    ensures fits { FitsItem (item.Begin session start) }
    ensures len { length line.new ≤ 200 }
{
    line.set_text(b"begin ");
    push_session(session, line);
    line.push_field(b" start=", start.value());
}

/// Leaves the words of an item `write`, without its line feed, in the buffer, and nothing else.
pub fn print_write(session: SessionNo, start: Stamp, key: KeyNo, value: Value, line: &mut LineBuf)
    ensures text { line.new ≡ body_of (item.Write session start key value) }
    ensures fits { FitsItem (item.Write session start key value) }
    ensures len { length line.new ≤ 200 }
{
    line.set_text(b"write ");
    push_session(session, line);
    line.push_field(b" start=", start.value());
    line.push_text(b" ");
    push_key(key, line);
    line.push_text(b" ");
    line.push_text(value.as_slice());
}

/// Leaves the words of an item `read`, without its line feed, in the buffer, and nothing else.
pub fn print_read(
    session: SessionNo,
    start: Stamp,
    key: KeyNo,
    answer: Option<Found>,
    line: &mut LineBuf,
)
    ensures text { line.new ≡ body_of (item.Read session start key answer) }
    ensures fits { FitsItem (item.Read session start key answer) }
    ensures len { length line.new ≤ 200 }
{
    line.set_text(b"read ");
    push_session(session, line);
    line.push_field(b" start=", start.value());
    line.push_text(b" ");
    push_key(key, line);
    line.push_text(b" ");
    print_answer(answer, line);
}

fn print_answer(answer: Option<Found>, line: &mut LineBuf)
    requires { length line.old + 100 ≤ 256 }
    ensures text { line.new ≡ line.old ++ answer_text answer }
    ensures fits { FitsAnswer answer }
    ensures len { length line.new ≤ length line.old + 100 }
{
    match answer {
        None => line.push_text(b"none"),
        Some(found) => print_found(found, line),
    }
}

fn print_found(found: Found, line: &mut LineBuf)
    requires { length line.old + 100 ≤ 256 }
    ensures text { line.new ≡ line.old ++ answer_text (Some found) }
    ensures fits { FitsAnswer (Some found) }
    ensures len { length line.new ≤ length line.old + 100 }
{
    line.push_field(b"from=", found.from.value());
    line.push_text(b" ");
    line.push_text(found.value.as_slice());
}

/// Leaves the words of an item `placed`, without its line feed, in the buffer, and nothing else.
pub fn print_placed(start: Stamp, commit: Stamp, line: &mut LineBuf)
    ensures text { line.new ≡ body_of (item.Placed start commit) }
    ensures fits { FitsItem (item.Placed start commit) }
    ensures len { length line.new ≤ 200 }
{
    line.set_text(b"placed start=");
    line.push_number(start.value());
    line.push_field(b" commit=", commit.value());
}

/// Leaves the words of an item `committed`, without its line feed, in the buffer, and nothing else.
pub fn print_committed(session: SessionNo, start: Stamp, commit: Stamp, line: &mut LineBuf)
    ensures text { line.new ≡ body_of (item.Committed session start commit) }
    ensures fits { FitsItem (item.Committed session start commit) }
    ensures len { length line.new ≤ 200 }
{
    line.set_text(b"committed ");
    push_session(session, line);
    line.push_field(b" start=", start.value());
    line.push_field(b" commit=", commit.value());
}

/// Leaves the words of an item `mark`, without its line feed, in the buffer, and nothing else.
pub fn print_mark(actor: Actor, start: Stamp, line: &mut LineBuf)
    ensures text { line.new ≡ body_of (item.Mark actor start) }
    ensures fits { FitsItem (item.Mark actor start) }
    ensures len { length line.new ≤ 200 }
{
    line.set_text(b"mark ");
    push_actor(actor, line);
    line.push_field(b" start=", start.value());
}

/// Leaves the words of an item `end`, without its line feed, in the buffer, and nothing else.
pub fn print_end(session: SessionNo, start: Stamp, how: Ending, line: &mut LineBuf)
    ensures text { line.new ≡ body_of (item.End session start how) }
    ensures fits { FitsItem (item.End session start how) }
    ensures len { length line.new ≤ 200 }
{
    line.set_text(b"end ");
    push_session(session, line);
    line.push_field(b" start=", start.value());
    line.push_text(b" ");
    push_ending(how, line);
}

/// Adds the word for how a transaction ended.
pub fn push_ending(how: Ending, line: &mut LineBuf)
    requires { length line.old + 9 ≤ 256 }
    ensures text { line.new ≡ line.old ++ ending_text how }
    ensures len { length line.new ≤ length line.old + 9 }
{
    match how {
        Ending::ReadOnly => line.push_text(b"read-only"),
        Ending::Aborted => line.push_text(b"aborted"),
        Ending::Dead => line.push_text(b"dead"),
    }
}

/// Leaves the words of an item `fault`, without its line feed, in the buffer, and nothing else.
pub fn print_fault(actor: Actor, store: Store, line: &mut LineBuf)
    ensures text { line.new ≡ body_of (item.Fault actor store) }
    ensures fits { FitsItem (item.Fault actor store) }
    ensures len { length line.new ≤ 200 }
{
    line.set_text(b"fault ");
    push_actor(actor, line);
    line.push_text(b" ");
    push_store(store, line);
}

/// Leaves the words of an item `crash`, without its line feed, in the buffer, and nothing else.
pub fn print_crash(node: NodeNo, term: Term, line: &mut LineBuf)
    ensures text { line.new ≡ body_of (item.Crash node term) }
    ensures fits { FitsItem (item.Crash node term) }
    ensures len { length line.new ≤ 200 }
{
    line.set_text(b"crash ");
    push_node(node, line);
    line.push_field(b" term=", term.value());
}

/// Leaves the words of an item `vanish`, without its line feed, in the buffer, and nothing else.
pub fn print_vanish(session: SessionNo, line: &mut LineBuf)
    ensures text { line.new ≡ body_of (item.Vanish session) }
    ensures fits { FitsItem (item.Vanish session) }
    ensures len { length line.new ≤ 200 }
{
    line.set_text(b"vanish ");
    push_session(session, line);
}
