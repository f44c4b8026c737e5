// The members of what the clock and the nodes do.
ghost use Rattle.std.specs.Prelude.{◌≡◌};
ghost use Rattle.history_book.specs.declared.item.Item.TheVariants as item;
ghost use Rattle.history_json.specs.Expected.{expected_members};
ghost use Rattle.history_json.specs.Members.{members_of};

use crate::members::{Member, kind, node_member, whole};
use stamp_base::{NodeNo, Term};

/// The members of an item `tick`, in the order of their names.
pub fn tick(to: u64) -> [Member<'static>; 2]
    ensures { expected_members result ≡ members_of (item.Tick to) }
{
    [kind("tick"), whole("to", to)]
}

/// The members of an item `take`, in the order of their names.
pub fn take(
    node: NodeNo,
    reading: u64,
    term: Term,
    epoch: u64,
    until: u64,
    ceiling: u64,
) -> [Member<'static>; 7]
    ensures { expected_members result ≡ members_of (item.Take node reading term epoch until ceiling) }
{
    [
        whole("ceiling", ceiling),
        whole("epoch", epoch),
        kind("take"),
        node_member(node),
        whole("reading", reading),
        whole("term", term.value()),
        whole("until", until),
    ]
}

/// The members of an item `renew`, in the order of their names.
pub fn renew(node: NodeNo, reading: u64, term: Term, until: u64) -> [Member<'static>; 5]
    ensures { expected_members result ≡ members_of (item.Renew node reading term until) }
{
    [
        kind("renew"),
        node_member(node),
        whole("reading", reading),
        whole("term", term.value()),
        whole("until", until),
    ]
}

/// The members of an item `extend`, in the order of their names.
pub fn extend(node: NodeNo, term: Term, ceiling: u64) -> [Member<'static>; 4]
    ensures { expected_members result ≡ members_of (item.Extend node term ceiling) }
{
    [
        whole("ceiling", ceiling),
        kind("extend"),
        node_member(node),
        whole("term", term.value()),
    ]
}

/// The members of an item `crash`, in the order of their names.
pub fn crash(node: NodeNo, term: Term) -> [Member<'static>; 3]
    ensures { expected_members result ≡ members_of (item.Crash node term) }
{
    [
        kind("crash"),
        node_member(node),
        whole("term", term.value()),
    ]
}
