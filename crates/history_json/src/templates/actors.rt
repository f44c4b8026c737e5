// The lines of what any actor does.
ghost use Rattle.std.specs.Prelude.{◌≡◌, ◌+◌, ◌≤◌, ◌++◌, codes, length};
ghost use Rattle.history_book.specs.declared.item.Item.TheVariants as item;
ghost use Rattle.history_text.specs.Fits.{FitsItem, FitsNote};
ghost use Rattle.history_json.specs.Members.{note_members};
ghost use Rattle.history_json.specs.Object.{json_line};

use history_book::{Actor, Cause, Note, StoreStep};
use history_text::{LineBuf, push_actor, push_cause, push_stage, push_step, push_store};
use stamp_base::{Stamp, Store};

/// Leaves the line of an item `note`, without its line feed, in the buffer, and nothing else.
pub fn print_note(actor: Actor, note: &Note, line: &mut LineBuf)
    ensures text { line.new ≡ json_line (item.Note actor note.now) }
    ensures fits { FitsItem (item.Note actor note.now) }
    ensures len { length line.new ≤ 255 }
{
    line.set_text(b"{\"actor\":\"");
    push_actor(actor, line);
    line.push_text(b"\",\"kind\":\"note\",\"name\":\"");
    push_noted(note, line);
    line.push_text(b"\",\"note\":\"");
    push_note_word(note, line);
    line.push_text(b"\"}");
}

/// Adds the name or the stage that is noted.
fn push_noted(note: &Note, line: &mut LineBuf)
    requires { length line.old + 16 ≤ 256 }
    ensures text { line.new ≡ line.old ++ (note_members note.now).1 }
    ensures fits { FitsNote note.now }
    ensures len { length line.new ≤ length line.old + 16 }
{
    match note {
        Note::Post(name) | Note::Await(name) => line.push_text(name.as_slice()),
        Note::Hold(stage) | Note::Free(stage) => push_stage(*stage, line),
    }
}

/// Adds what is noted of it.
fn push_note_word(note: &Note, line: &mut LineBuf)
    requires { length line.old + 5 ≤ 256 }
    ensures text { line.new ≡ line.old ++ (note_members note.now).0 }
    ensures len { length line.new ≤ length line.old + 5 }
{
    match note {
        Note::Post(_) => line.push_text(b"post"),
        Note::Await(_) => line.push_text(b"await"),
        Note::Hold(_) => line.push_text(b"hold"),
        Note::Free(_) => line.push_text(b"free"),
    }
}

/// Leaves the line of an item `mark`, without its line feed, in the buffer, and nothing else.
pub fn print_mark(actor: Actor, start: Stamp, line: &mut LineBuf)
    ensures text { line.new ≡ json_line (item.Mark actor start) }
    ensures fits { FitsItem (item.Mark actor start) }
    ensures len { length line.new ≤ 255 }
{
    line.set_text(b"{\"actor\":\"");
    push_actor(actor, line);
    line.push_field(b"\",\"kind\":\"mark\",\"start\":", start.value());
    line.push_text(b"}");
}

/// Leaves the line of an item `step`, without its line feed, in the buffer, and nothing else.
pub fn print_step(actor: Actor, what: StoreStep, line: &mut LineBuf)
    ensures text { line.new ≡ json_line (item.Step actor what) }
    ensures fits { FitsItem (item.Step actor what) }
    ensures len { length line.new ≤ 255 }
{
    line.set_text(b"{\"actor\":\"");
    push_actor(actor, line);
    line.push_text(b"\",\"kind\":\"step\",\"text\":\"");
    push_step(what, line);
    line.push_text(b"\"}");
}

/// Leaves the line of an item `refused`, without its line feed, in the buffer, and nothing else.
pub fn print_refused(actor: Actor, cause: Cause, line: &mut LineBuf)
    ensures text { line.new ≡ json_line (item.Refused actor cause) }
    ensures fits { FitsItem (item.Refused actor cause) }
    ensures len { length line.new ≤ 255 }
{
    line.set_text(b"{\"actor\":\"");
    push_actor(actor, line);
    line.push_text(b"\",\"kind\":\"refused\",\"text\":\"");
    push_cause(cause, line);
    line.push_text(b"\"}");
}

/// Leaves the line of an item `fault`, without its line feed, in the buffer, and nothing else.
pub fn print_fault(actor: Actor, store: Store, line: &mut LineBuf)
    ensures text { line.new ≡ json_line (item.Fault actor store) }
    ensures fits { FitsItem (item.Fault actor store) }
    ensures len { length line.new ≤ 255 }
{
    line.set_text(b"{\"actor\":\"");
    push_actor(actor, line);
    line.push_text(b"\",\"kind\":\"fault\",\"store\":\"");
    push_store(store, line);
    line.push_text(b"\"}");
}
