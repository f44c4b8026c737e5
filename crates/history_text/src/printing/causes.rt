ghost use Rattle.std.specs.Prelude.{◌≡◌, ◌+◌, ◌≤◌, ◌++◌, length};
ghost use Rattle.history_text.specs.Text.{body_of};
ghost use Rattle.history_text.specs.CauseText.{cause_text};
ghost use Rattle.history_book.specs.declared.item.Item.TheVariants.{Refused};
ghost use Rattle.history_text.specs.Fits.{FitsCause, FitsItem};

use super::words::{print_one, print_two, push_actor, push_node};
use crate::line::LineBuf;
use history_book::{Actor, Cause};
use stamp_base::{NodeNo, Term};

/// Leaves the words of an item `refused`, without its line feed, in the buffer, and nothing else.
pub fn print_refused(actor: Actor, cause: Cause, line: &mut LineBuf)
    ensures text { line.new ≡ body_of (Refused actor cause) }
    ensures fits { FitsItem (Refused actor cause) }
    ensures len { length line.new ≤ 200 }
{
    line.set_text(b"refused ");
    push_actor(actor, line);
    line.push_text(b" ");
    push_cause(cause, line);
}

/// Adds the cause's text.
pub fn push_cause(cause: Cause, line: &mut LineBuf)
    requires { length line.old + 100 ≤ 256 }
    ensures text { line.new ≡ line.old ++ cause_text cause }
    ensures fits { FitsCause cause }
    ensures len { length line.new ≤ length line.old + 100 }
{
    match cause {
        Cause::Conflict { key, by } => {
            print_two(b"conflict key=k", key.value(), b" by=", by.value(), line)
        }
        Cause::Hidden { key, water } => {
            print_two(b"hidden key=k", key.value(), b" water=", water, line)
        }
        Cause::OldEpoch { start, epoch } => {
            print_two(b"old-epoch start=", start.value(), b" epoch=", epoch, line)
        }
        Cause::Expired { reading, until } => {
            print_two(b"expired reading=", reading, b" until=", until, line)
        }
        Cause::Replaced { found } => print_one(b"replaced found=", found, line),
        Cause::Spent { ceiling } => print_one(b"spent ceiling=", ceiling, line),
        Cause::NoStamp { last } => print_one(b"no-stamp last=", last, line),
        Cause::Invalid { start } => print_one(b"invalid start=", start.value(), line),
        Cause::Open { start } => print_one(b"open start=", start.value(), line),
        Cause::Crashed { node, term } => print_crashed(node, term, line),
        Cause::NotYet { commit } => print_one(b"not-yet commit=", commit.value(), line),
        Cause::NoRequest { session } => print_one(b"no-request session=s", session.value(), line),
        Cause::NoOracle { node } => print_no_oracle(node, line),
        Cause::Full { in_flight } => print_one(b"full in-flight=", in_flight, line),
        Cause::Early { reading, until } => {
            print_two(b"early reading=", reading, b" until=", until, line)
        }
        Cause::Holding { term } => print_one(b"holding term=", term.value(), line),
        Cause::NoTransaction => line.push_text(b"no-transaction"),
        Cause::Busy => line.push_text(b"busy"),
        Cause::TooManyKeys => line.push_text(b"too-many-keys"),
        Cause::Gone => line.push_text(b"gone"),
        Cause::Idle => line.push_text(b"idle"),
        Cause::Undecided { start, epoch } => {
            print_two(b"undecided start=", start.value(), b" epoch=", epoch, line)
        }
    }
}

fn print_crashed(node: NodeNo, term: Term, line: &mut LineBuf)
    requires { length line.old + 40 ≤ 256 }
    ensures text { line.new ≡ line.old ++ cause_text (Cause.Crashed node term) }
    ensures fits { FitsCause (Cause.Crashed node term) }
    ensures len { length line.new ≤ length line.old + 40 }
{
    line.push_text(b"crashed node=");
    push_node(node, line);
    print_one(b" term=", term.value(), line);
}

fn print_no_oracle(node: NodeNo, line: &mut LineBuf)
    requires { length line.old + 16 ≤ 256 }
    ensures text { line.new ≡ line.old ++ cause_text (Cause.NoOracle node) }
    ensures fits { FitsCause (Cause.NoOracle node) }
    ensures len { length line.new ≤ length line.old + 16 }
{
    line.push_text(b"no-oracle node=");
    push_node(node, line);
}
