// The members of what requests go through.
ghost use Rattle.std.specs.Prelude.{◌≡◌, None, Some};
ghost use Rattle.history_book.specs.declared.item.Item.TheVariants as item;
ghost use Rattle.history_json.specs.Expected.{expected_members};
ghost use Rattle.history_json.specs.Members.{members_of};

use crate::members::{Member, kind, node_member, session_member, whole};
use stamp_base::{NodeNo, SessionNo, Stamp, Term};

/// The members of an item `ask-begin`, in the order of their names.
pub fn ask_begin(session: SessionNo, node: NodeNo) -> [Member<'static>; 3]
    ensures { expected_members result ≡ members_of (item.AskBegin session node) }
{
    [
        kind("ask-begin"),
        node_member(node),
        session_member(session),
    ]
}

/// The members of an item `ask-commit`, in the order of their names.
pub fn ask_commit(session: SessionNo, node: NodeNo, start: Stamp) -> [Member<'static>; 4]
    ensures { expected_members result ≡ members_of (item.AskCommit session node start) }
{
    [
        kind("ask-commit"),
        node_member(node),
        session_member(session),
        whole("start", start.value()),
    ]
}

/// The members of an item `accept`, in the order of their names.
pub fn accept(session: SessionNo, node: NodeNo, term: Term, reading: u64) -> [Member<'static>; 5]
    ensures { expected_members result ≡ members_of (item.Accept session node term reading) }
{
    [
        kind("accept"),
        node_member(node),
        whole("reading", reading),
        session_member(session),
        whole("term", term.value()),
    ]
}

/// The members of an item `draw` of a begin, in the order of their names.
pub fn begin_draw(
    session: SessionNo,
    node: NodeNo,
    term: Term,
    start: Stamp,
) -> [Member<'static>; 5]
    ensures { expected_members result ≡ members_of (item.Draw session node term start None) }
{
    [
        kind("draw"),
        node_member(node),
        session_member(session),
        whole("start", start.value()),
        whole("term", term.value()),
    ]
}

/// The members of an item `draw` of a commit, in the order of their names.
pub fn commit_draw(
    session: SessionNo,
    node: NodeNo,
    term: Term,
    start: Stamp,
    commit: Stamp,
) -> [Member<'static>; 6]
    ensures { expected_members result ≡ members_of (item.Draw session node term start (Some commit)) }
{
    [
        whole("commit", commit.value()),
        kind("draw"),
        node_member(node),
        session_member(session),
        whole("start", start.value()),
        whole("term", term.value()),
    ]
}

/// The members of an item `placed`, in the order of their names.
pub fn placed(start: Stamp, commit: Stamp) -> [Member<'static>; 3]
    ensures { expected_members result ≡ members_of (item.Placed start commit) }
{
    [
        whole("commit", commit.value()),
        kind("placed"),
        whole("start", start.value()),
    ]
}
