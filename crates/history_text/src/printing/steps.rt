ghost use Rattle.std.specs.Prelude.{◌≡◌, ◌+◌, ◌≤◌, ◌++◌, length};
ghost use Rattle.history_text.specs.Text.{body_of};
ghost use Rattle.history_text.specs.StepText.{mark_text, entry_text, seen_text, step_text};
ghost use Rattle.history_book.specs.declared.item.Item.TheVariants.{Step};
ghost use Rattle.history_book.specs.declared.item.StoreStep.TheVariants.{Get, MarkFound, Look, Shadow, PutFound};
ghost use Rattle.history_text.specs.Fits.{FitsEntry, FitsItem, FitsMark, FitsSeen, FitsStep};

use super::words::{print_one, print_two, push_actor, push_key};
use crate::line::LineBuf;
use history_book::{Actor, Seen, StoreStep};
use stamp_base::{KeyNo, Mark, Stamp, TxnId};

/// Leaves the words of an item `step`, without its line feed, in the buffer, and nothing else.
pub fn print_step(actor: Actor, what: StoreStep, line: &mut LineBuf)
    ensures text { line.new ≡ body_of (Step actor what) }
    ensures fits { FitsItem (Step actor what) }
    ensures len { length line.new ≤ 200 }
{
    line.set_text(b"step ");
    push_actor(actor, line);
    line.push_text(b" ");
    push_step(what, line);
}

/// Adds the step's text.
pub fn push_step(what: StoreStep, line: &mut LineBuf)
    requires { length line.old + 100 ≤ 256 }
    ensures text { line.new ≡ line.old ++ step_text what }
    ensures fits { FitsStep what }
    ensures len { length line.new ≤ length line.old + 100 }
{
    match what {
        StoreStep::Fetch { key, cells } => {
            print_two(b"fetch k", key.value(), b" cells=", cells, line)
        }
        StoreStep::Get { txn, answer } => print_get(txn, answer, line),
        StoreStep::MarkFound { txn, mark } => print_mark_found(txn, mark, line),
        StoreStep::Look { key, txn, answer } => print_look(key, txn, answer, line),
        StoreStep::Shadow { key, txn, commit } => print_shadow(key, txn, commit, line),
        StoreStep::Remove { txn } => print_one(b"remove ", txn.value(), line),
        StoreStep::Erase { key, txn } => {
            print_two(b"erase k", key.value(), b" ", txn.value(), line)
        }
        StoreStep::Keys { txn, count } => {
            print_two(b"keys ", txn.value(), b" count=", count, line)
        }
        StoreStep::PutFound { txn } => print_put_found(txn, line),
        StoreStep::Handed { txn, commit } => {
            print_two(b"handed ", txn.value(), b" ", commit.value(), line)
        }
    }
}

fn print_get(txn: TxnId, answer: Option<Mark>, line: &mut LineBuf)
    requires { length line.old + 60 ≤ 256 }
    ensures text { line.new ≡ line.old ++ step_text (Get txn answer) }
    ensures fits { FitsStep (Get txn answer) }
    ensures len { length line.new ≤ length line.old + 60 }
{
    line.push_field(b"get ", txn.value());
    line.push_text(b" ");
    print_entry(answer, line);
}

fn print_mark_found(txn: TxnId, mark: Mark, line: &mut LineBuf)
    requires { length line.old + 60 ≤ 256 }
    ensures text { line.new ≡ line.old ++ step_text (MarkFound txn mark) }
    ensures fits { FitsStep (MarkFound txn mark) }
    ensures len { length line.new ≤ length line.old + 60 }
{
    line.push_field(b"mark ", txn.value());
    line.push_text(b" ");
    print_mark_text(mark, line);
}

fn print_look(key: KeyNo, txn: TxnId, answer: Seen, line: &mut LineBuf)
    requires { length line.old + 80 ≤ 256 }
    ensures text { line.new ≡ line.old ++ step_text (Look key txn answer) }
    ensures fits { FitsStep (Look key txn answer) }
    ensures len { length line.new ≤ length line.old + 80 }
{
    line.push_field(b"look k", key.value());
    line.push_field(b" ", txn.value());
    line.push_text(b" ");
    print_seen(answer, line);
}

fn print_shadow(key: KeyNo, txn: TxnId, commit: Stamp, line: &mut LineBuf)
    requires { length line.old + 80 ≤ 256 }
    ensures text { line.new ≡ line.old ++ step_text (Shadow key txn commit) }
    ensures fits { FitsStep (Shadow key txn commit) }
    ensures len { length line.new ≤ length line.old + 80 }
{
    line.push_field(b"shadow k", key.value());
    line.push_field(b" ", txn.value());
    line.push_field(b" ", commit.value());
}

fn print_put_found(txn: TxnId, line: &mut LineBuf)
    requires { length line.old + 60 ≤ 256 }
    ensures text { line.new ≡ line.old ++ step_text (PutFound txn) }
    ensures fits { FitsStep (PutFound txn) }
    ensures len { length line.new ≤ length line.old + 60 }
{
    line.push_field(b"put ", txn.value());
    line.push_text(b" invalid");
}

fn print_mark_text(mark: Mark, line: &mut LineBuf)
    requires { length line.old + 30 ≤ 256 }
    ensures text { line.new ≡ line.old ++ mark_text mark }
    ensures fits { FitsMark mark }
    ensures len { length line.new ≤ length line.old + 30 }
{
    match mark {
        Mark::Committed(commit) => print_one(b"committed=", commit.value(), line),
        Mark::Invalid => line.push_text(b"invalid"),
    }
}

fn print_entry(answer: Option<Mark>, line: &mut LineBuf)
    requires { length line.old + 30 ≤ 256 }
    ensures text { line.new ≡ line.old ++ entry_text answer }
    ensures fits { FitsEntry answer }
    ensures len { length line.new ≤ length line.old + 30 }
{
    match answer {
        None => line.push_text(b"absent"),
        Some(mark) => print_mark_text(mark, line),
    }
}

fn print_seen(answer: Seen, line: &mut LineBuf)
    requires { length line.old + 30 ≤ 256 }
    ensures text { line.new ≡ line.old ++ seen_text answer }
    ensures fits { FitsSeen answer }
    ensures len { length line.new ≤ length line.old + 30 }
{
    match answer {
        Seen::Bare => line.push_text(b"none"),
        Seen::Gone => line.push_text(b"gone"),
        Seen::Commit(commit) => print_one(b"commit=", commit.value(), line),
    }
}
