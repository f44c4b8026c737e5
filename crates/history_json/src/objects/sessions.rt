// The members of what sessions do and are told.
ghost use Rattle.std.specs.Prelude.{◌≡◌, None, Some};
ghost use Rattle.history_book.specs.declared.item.Item.TheVariants as item;
ghost use Rattle.history_json.specs.Expected.{expected_members};
ghost use Rattle.history_json.specs.Members.{members_of};

use crate::members::{Member, key_member, kind, session_member, text, whole};
use crate::texts::{ending_name, value_text};
use history_book::{Ending, Found};
use stamp_base::{KeyNo, SessionNo, Stamp, Value};

/// The members of an item `begin`, in the order of their names.
pub fn begin(session: SessionNo, start: Stamp) -> [Member<'static>; 3]
    ensures { expected_members result ≡ members_of (item.Begin session start) }
{
    [
        kind("begin"),
        session_member(session),
        whole("start", start.value()),
    ]
}

/// The members of an item `write`, in the order of their names.
pub fn write(session: SessionNo, start: Stamp, key: KeyNo, value: &Value) -> [Member<'_>; 5]
    ensures { expected_members result ≡ members_of (item.Write session start key value.now) }
{
    [
        key_member(key),
        kind("write"),
        session_member(session),
        whole("start", start.value()),
        text("value", value_text(value)),
    ]
}

/// The members of an item `read` that found nothing, in the order of their names.
pub fn read_none(session: SessionNo, start: Stamp, key: KeyNo) -> [Member<'static>; 4]
    ensures { expected_members result ≡ members_of (item.Read session start key None) }
{
    [
        key_member(key),
        kind("read"),
        session_member(session),
        whole("start", start.value()),
    ]
}

/// The members of an item `read` that found a value, in the order of their names.
pub fn read_some(session: SessionNo, start: Stamp, key: KeyNo, answer: &Found) -> [Member<'_>; 6]
    ensures { expected_members result ≡ members_of (item.Read session start key (Some answer.now)) }
{
    [
        whole("from", answer.from.value()),
        key_member(key),
        kind("read"),
        session_member(session),
        whole("start", start.value()),
        text("value", value_text(&answer.value)),
    ]
}

/// The members of an item `committed`, in the order of their names.
pub fn committed(session: SessionNo, start: Stamp, commit: Stamp) -> [Member<'static>; 4]
    ensures { expected_members result ≡ members_of (item.Committed session start commit) }
{
    [
        whole("commit", commit.value()),
        kind("committed"),
        session_member(session),
        whole("start", start.value()),
    ]
}

/// The members of an item `end`, in the order of their names.
pub fn end(session: SessionNo, start: Stamp, how: Ending) -> [Member<'static>; 4]
    ensures { expected_members result ≡ members_of (item.End session start how) }
{
    [
        text("how", ending_name(how)),
        kind("end"),
        session_member(session),
        whole("start", start.value()),
    ]
}

/// The members of an item `vanish`, in the order of their names.
pub fn vanish(session: SessionNo) -> [Member<'static>; 2]
    ensures { expected_members result ≡ members_of (item.Vanish session) }
{
    [kind("vanish"), session_member(session)]
}
