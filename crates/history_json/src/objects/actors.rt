// The members of what any actor does.
ghost use Rattle.std.specs.Prelude.{◌≡◌};
ghost use Rattle.history_book.specs.declared.item.Item.TheVariants as item;
ghost use Rattle.history_json.specs.Expected.{expected_members};
ghost use Rattle.history_json.specs.Members.{members_of, note_members};

use crate::members::{Member, actor_member, cause_member, kind, step_member, text, whole};
use crate::texts::{name_text, stage_name, store_name};
use history_book::{Actor, Cause, Note, StoreStep};
use stamp_base::{Stamp, Store};

/// The members of an item `note`, in the order of their names.
pub fn note(actor: Actor, note: &Note) -> [Member<'_>; 4]
    ensures { expected_members result ≡ members_of (item.Note actor note.now) }
{
    [
        actor_member(actor),
        kind("note"),
        text("name", noted_of(note)),
        text("note", note_word(note)),
    ]
}

/// What is noted.
fn note_word(note: &Note) -> &'static str
    ensures { result.now ≡ (note_members note.now).0 }
{
    match note {
        Note::Post(_) => "post",
        Note::Await(_) => "await",
        Note::Hold(_) => "hold",
        Note::Free(_) => "free",
    }
}

/// The name or the stage that it is noted of.
fn noted_of(note: &Note) -> &str
    ensures { result.now ≡ (note_members note.now).1 }
{
    match note {
        Note::Post(name) | Note::Await(name) => name_text(name),
        Note::Hold(stage) | Note::Free(stage) => stage_name(*stage),
    }
}

/// The members of an item `mark`, in the order of their names.
pub fn mark(actor: Actor, start: Stamp) -> [Member<'static>; 3]
    ensures { expected_members result ≡ members_of (item.Mark actor start) }
{
    [
        actor_member(actor),
        kind("mark"),
        whole("start", start.value()),
    ]
}

/// The members of an item `step`, in the order of their names.
pub fn step(actor: Actor, what: &StoreStep) -> [Member<'_>; 3]
    ensures { expected_members result ≡ members_of (item.Step actor what.now) }
{
    [actor_member(actor), kind("step"), step_member(what)]
}

/// The members of an item `refused`, in the order of their names.
pub fn refused(actor: Actor, cause: &Cause) -> [Member<'_>; 3]
    ensures { expected_members result ≡ members_of (item.Refused actor cause.now) }
{
    [actor_member(actor), kind("refused"), cause_member(cause)]
}

/// The members of an item `fault`, in the order of their names.
pub fn fault(actor: Actor, store: Store) -> [Member<'static>; 3]
    ensures { expected_members result ≡ members_of (item.Fault actor store) }
{
    [
        actor_member(actor),
        kind("fault"),
        text("store", store_name(store)),
    ]
}
