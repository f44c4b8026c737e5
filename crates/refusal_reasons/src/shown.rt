// Where the items stand that show a refusal.
ghost use Rattle.std.specs.Prelude.{◌≡◌, ◌<◌, ◌≤◌, IfSome, Some, true, length, slice_get};
ghost use Rattle.cause_rules.specs.Asks as asks;
ghost use Rattle.cause_rules.specs.OwnKeys as own_keys;
ghost use Rattle.refusal_reasons.specs.declared.clue.Clue.TheVariants as clue;
ghost use Rattle.refusal_reasons.specs.Sought as sought;
ghost use Rattle.refusal_reasons.specs.Showing as showing;

use crate::clue::{Clue, fits};
use crate::request::{
    ask_from, begin_from, begun_of, draw_from, draws_its, node_of, start_of, term_of,
};
use crate::sought::{behind, last_take_at, rival, seek};
use history_book::{Actor, Cause, Item};
use stamp_base::{KeyNo, NodeNo, SessionNo, TxnId};

/// The places of the items that show a refusal, at most three.
#[derive(Clone, Copy, Debug, PartialEq, Eq)]
pub struct Places {
    /// The place of the first, counted from 0.
    pub first: Option<usize>,
    /// The place of the second.
    pub second: Option<usize>,
    /// The place of the third.
    pub third: Option<usize>,
}

/// Where the items stand that show what the actor was refused, in the history before the refusal. None where it is not shown.
pub fn shown_by(items: &[Item], actor: &Actor, cause: &Cause) -> Option<Places>
    ensures { result ≡ showing.shown_by items.now actor.now cause.now }
{
    match *actor {
        Actor::Session(session) => shown_to_session(items, session, cause),
        Actor::Node(node) => shown_to_node(items, node, cause),
        Actor::Janitor => shown_to_janitor(items, cause),
        Actor::Clock => None,
    }
}

fn shown_to_session(items: &[Item], session: SessionNo, cause: &Cause) -> Option<Places>
    ensures { result ≡ showing.shown_to_session items.now session cause.now }
{
    match *cause {
        Cause::Conflict { key, by } => conflict(items, session, key, by.value()),
        Cause::Hidden { key, water } => hidden(items, session, key, water),
        Cause::OldEpoch { start, epoch } => old_epoch(items, session, start.value(), epoch),
        Cause::Expired { reading, until } => expired(items, session, reading, until),
        Cause::Replaced { found } => replaced(items, session, found),
        Cause::Spent { ceiling } => asked_and_spent(items, session, ceiling),
        Cause::NoStamp { last } => no_stamp(items, session, last),
        Cause::Invalid { start } => invalid(items, session, start.value()),
        Cause::Open { start } => open(items, session, start.value()),
        Cause::Crashed { node, term } => crashed(items, session, node, term.value()),
        Cause::NotYet { commit } => not_yet(items, session, commit.value()),
        Cause::NoOracle { node } => no_oracle(items, node),
        Cause::Gone => one_place(true, seek(items, 0, &Clue::Vanished { session })),
        Cause::Full { .. }
        | Cause::Busy
        | Cause::Idle
        | Cause::NoTransaction
        | Cause::TooManyKeys => no_places(),
        _ => None,
    }
}

fn shown_to_node(items: &[Item], own: NodeNo, cause: &Cause) -> Option<Places>
    ensures { result ≡ showing.shown_to_node items.now own cause.now }
{
    match *cause {
        Cause::Early { until, .. } => one_place(true, seek(items, 0, &Clue::Lease { until })),
        Cause::Spent { ceiling } => spent(items, ceiling),
        Cause::Replaced { found } => overtaken(items, own, found),
        Cause::Holding { term } => holding(items, own, term.value()),
        Cause::NoOracle { node } => own_oracle(items, own, node),
        Cause::NoRequest { .. } => no_places(),
        _ => None,
    }
}

/// A node is told of itself alone that there is no oracle.
fn own_oracle(items: &[Item], own: NodeNo, node: NodeNo) -> Option<Places>
    ensures { result ≡ showing.own_oracle items.now own node }
{
    if node == own {
        no_oracle(items, node)
    } else {
        None
    }
}

fn shown_to_janitor(items: &[Item], cause: &Cause) -> Option<Places>
    ensures { result ≡ showing.shown_to_janitor items.now cause.now }
{
    match *cause {
        Cause::NoOracle { node } => no_oracle(items, node),
        Cause::Busy | Cause::Idle | Cause::Undecided { .. } => no_places(),
        _ => None,
    }
}

// ---- all of some places

fn no_places() -> Option<Places>
    ensures { result ≡ showing.no_places true }
{
    Some(Places {
        first: None,
        second: None,
        third: None,
    })
}

fn one_place(agrees: bool, place: Option<usize>) -> Option<Places>
    ensures { result ≡ showing.one_place agrees place }
{
    if agrees && place.is_some() {
        Some(Places {
            first: place,
            second: None,
            third: None,
        })
    } else {
        None
    }
}

fn two_places(agrees: bool, first: Option<usize>, second: Option<usize>) -> Option<Places>
    ensures { result ≡ showing.two_places agrees first second }
{
    if agrees && first.is_some() && second.is_some() {
        Some(Places {
            first,
            second,
            third: None,
        })
    } else {
        None
    }
}

fn three_places(
    agrees: bool,
    first: Option<usize>,
    second: Option<usize>,
    third: Option<usize>,
) -> Option<Places>
    ensures { result ≡ showing.three_places agrees first second third }
{
    if agrees && first.is_some() && second.is_some() && third.is_some() {
        Some(Places {
            first,
            second,
            third,
        })
    } else {
        None
    }
}

fn is_same(number: Option<u64>, other: u64) -> bool
    ensures { result ≡ showing.same number other }
{
    match number {
        Some(number) => number == other,
        None => false,
    }
}

// ---- what a request is told

/// Where the session wrote the key in the transaction, and else where it fetched it last since the transaction began.
fn own_place(items: &[Item], session: SessionNo, start: u64, key: KeyNo) -> Option<usize>
    ensures { result ≡ showing.own_place items.now session start key }
{
    match seek(items, 0, &Clue::Wrote { start, key }) {
        Some(write) => Some(write),
        None => fetch_place(items, session, start, key),
    }
}

fn fetch_place(items: &[Item], session: SessionNo, start: u64, key: KeyNo) -> Option<usize>
    ensures { result ≡ showing.fetch_place items.now session start key (own_keys.last_begun items.now session) }
{
    if is_same(begun_of(items, session), start) {
        seek(
            items,
            begin_from(items, session),
            &Clue::Fetched { session, key },
        )
    } else {
        None
    }
}

fn conflict(items: &[Item], session: SessionNo, key: KeyNo, by: u64) -> Option<Places>
    ensures { result ≡ showing.conflict items.now session key by (asks.its_node items.now session) (asks.its_start items.now session) (asks.its_term items.now session) }
{
    let _node = node_of(items, session)?;
    let start = start_of(items, session)?;
    let term = term_of(items, session)?;
    let place = rival(items, term, key, by)?;
    let own = own_place(items, session, start, key);
    conflict_with(items, own, start, key, by, place)
}

fn conflict_with(
    items: &[Item],
    own: Option<usize>,
    start: u64,
    key: KeyNo,
    by: u64,
    place: usize,
) -> Option<Places>
    requires { place < length items.now }
    ensures { result ≡ showing.conflict_with items.now own start key by place (slice_get items.now place) }
{
    match items[place] {
        Item::Draw { start: writer, .. } => three_places(
            start < by,
            own,
            Some(place),
            write_of(items, writer, key),
        ),
        _ => None,
    }
}

fn write_of(items: &[Item], writer: TxnId, key: KeyNo) -> Option<usize>
    ensures { result ≡ sought.seek items.now 0 (clue.Wrote writer key) }
{
    let start = writer.value();
    seek(items, 0, &Clue::Wrote { start, key })
}

fn hidden(items: &[Item], session: SessionNo, key: KeyNo, water: u64) -> Option<Places>
    ensures { result ≡ showing.hidden items.now session key water (asks.its_node items.now session) (asks.its_start items.now session) (asks.its_term items.now session) }
{
    let _node = node_of(items, session)?;
    let start = start_of(items, session)?;
    let term = term_of(items, session)?;
    let own = own_place(items, session, start, key);
    let commit = water;
    let draw = seek(items, 0, &Clue::Commit { term, commit });
    two_places(start < water, own, draw)
}

fn old_epoch(items: &[Item], session: SessionNo, start: u64, epoch: u64) -> Option<Places>
    ensures { result ≡ showing.old_epoch items.now start epoch (asks.its_node items.now session) (asks.its_start items.now session) }
{
    let node = node_of(items, session)?;
    let its = start_of(items, session);
    let place = last_take_at(items, take_place(items, node), &Clue::Epoch { node, epoch });
    one_place(is_same(its, start) && start <= epoch, place)
}

fn expired(items: &[Item], session: SessionNo, reading: u64, until: u64) -> Option<Places>
    ensures { result ≡ showing.expired items.now reading until (asks.its_node items.now session) }
{
    let node = node_of(items, session)?;
    one_place(until <= reading, lease_of(items, node, until))
}

/// Where the node got a lease with this end: by its last take, or by a renewal since.
fn lease_of(items: &[Item], node: NodeNo, until: u64) -> Option<usize>
    ensures { result ≡ showing.lease_of items.now node until }
{
    match take_place(items, node) {
        Some(place) => lease_from(items, node, until, place),
        None => None,
    }
}

fn lease_from(items: &[Item], node: NodeNo, until: u64, place: usize) -> Option<usize>
    requires { place < length items.now }
    ensures { result ≡ showing.lease_from items.now node until (Some place) }
{
    match last_take_at(items, Some(place), &Clue::LeaseTaken { node, until }) {
        Some(taken) => Some(taken),
        None => seek(items, place + 1, &Clue::LeaseRenewed { node, until }),
    }
}

fn replaced(items: &[Item], session: SessionNo, found: u64) -> Option<Places>
    ensures { result ≡ showing.replaced items.now found (asks.its_node items.now session) (asks.its_term items.now session) }
{
    let _node = node_of(items, session)?;
    let term = term_of(items, session)?;
    one_place(
        term < found,
        seek(items, 0, &Clue::TermTaken { term: found }),
    )
}

fn no_stamp(items: &[Item], session: SessionNo, last: u64) -> Option<Places>
    ensures { result ≡ showing.no_stamp items.now last (asks.its_node items.now session) (asks.its_term items.now session) }
{
    let _node = node_of(items, session)?;
    let term = term_of(items, session)?;
    let ceiling = last;
    let stamp = last;
    two_places(
        true,
        seek(items, 0, &Clue::CeilingIn { term, ceiling }),
        seek(items, 0, &Clue::StampIn { term, stamp }),
    )
}

fn invalid(items: &[Item], session: SessionNo, start: u64) -> Option<Places>
    ensures { result ≡ showing.invalid items.now start (asks.its_node items.now session) (asks.its_start items.now session) }
{
    let _node = node_of(items, session)?;
    let its = start_of(items, session);
    one_place(is_same(its, start), seek(items, 0, &Clue::Marked { start }))
}

fn open(items: &[Item], session: SessionNo, start: u64) -> Option<Places>
    ensures { result ≡ showing.lost items.now session start (asks.its_node items.now session) (asks.its_start items.now session) }
{
    let node = node_of(items, session)?;
    let its = start_of(items, session);
    one_place(is_same(its, start), lost_by(items, session, start, node))
}

/// Where the outcome got lost: by a fault of the node or of the session after the draw, or by the node's crash after the ask.
fn lost_by(items: &[Item], session: SessionNo, start: u64, node: NodeNo) -> Option<usize>
    ensures { result ≡ showing.lost_by items.now session start node }
{
    match lost_by_fault(items, session, start, node) {
        Some(fault) => Some(fault),
        None => seek(items, ask_from(items, session), &Clue::Crashed { node }),
    }
}

fn lost_by_fault(items: &[Item], session: SessionNo, start: u64, node: NodeNo) -> Option<usize>
    ensures { result ≡ showing.lost_by_fault items.now session start node }
{
    if draws_its(items, session, start) {
        seek(
            items,
            draw_from(items, session),
            &Clue::TableFault { node, session },
        )
    } else {
        None
    }
}

fn crashed(items: &[Item], session: SessionNo, own: NodeNo, term: u64) -> Option<Places>
    ensures { result ≡ showing.crashed items.now session own term (asks.its_node items.now session) }
{
    let node = own;
    let crash = seek(
        items,
        ask_from(items, session),
        &Clue::CrashedIn { node, term },
    );
    one_place(is_node(node_of(items, session), own), crash)
}

fn is_node(node: Option<NodeNo>, other: NodeNo) -> bool
    ensures { result ≡ showing.same node other }
{
    match node {
        Some(node) => node == other,
        None => false,
    }
}

fn not_yet(items: &[Item], session: SessionNo, commit: u64) -> Option<Places>
    ensures { result ≡ showing.not_yet items.now commit (asks.its_node items.now session) (asks.its_start items.now session) (asks.its_term items.now session) }
{
    let _node = node_of(items, session)?;
    let start = start_of(items, session)?;
    let term = term_of(items, session)?;
    let placed = seek(items, 0, &Clue::Placed { commit });
    let drawn = seek(items, 0, &Clue::Commit { term, commit });
    one_place(commit < start && placed.is_none(), drawn)
}

fn asked_and_spent(items: &[Item], session: SessionNo, ceiling: u64) -> Option<Places>
    ensures { result ≡ showing.asked_and_spent items.now ceiling (asks.its_node items.now session) }
{
    let _node = node_of(items, session)?;
    spent(items, ceiling)
}

fn spent(items: &[Item], ceiling: u64) -> Option<Places>
    ensures { result ≡ showing.spent items.now ceiling }
{
    one_place(true, seek(items, 0, &Clue::Ceiling { ceiling }))
}

// ---- what is told of a node

fn take_place(items: &[Item], node: NodeNo) -> Option<usize>
    ensures place { result ≡ showing.take_place items.now node }
    ensures within { IfSome result (λ place. place < length items.now) }
{
    seek(items, 0, &Clue::Took { node })
}

fn take_from(items: &[Item], node: NodeNo) -> usize
    ensures place { result ≡ showing.take_from items.now node }
    ensures within { result ≤ length items.now }
{
    behind(take_place(items, node))
}

fn no_oracle(items: &[Item], node: NodeNo) -> Option<Places>
    ensures { result ≡ showing.no_oracle items.now node }
{
    if failed_at_once(items, node) {
        Some(Places {
            first: take_place(items, node),
            second: Some(take_from(items, node)),
            third: None,
        })
    } else {
        after_crash(items, node, seek(items, 0, &Clue::Crashed { node }))
    }
}

/// Whether a fault of the node stands right behind its last take.
fn failed_at_once(items: &[Item], node: NodeNo) -> bool
    ensures { result ≡ showing.failed_at_once items.now node }
{
    match items.get(take_from(items, node)) {
        Some(item) => fits(&Clue::NodeFault { node }, item),
        None => false,
    }
}

fn after_crash(items: &[Item], node: NodeNo, crash: Option<usize>) -> Option<Places>
    requires { IfSome crash (λ place. place < length items.now) }
    ensures { result ≡ showing.after_crash items.now node crash }
{
    match seek(items, behind(crash), &Clue::Took { node }) {
        Some(_) => None,
        None => Some(Places {
            first: crash,
            second: None,
            third: None,
        }),
    }
}

fn overtaken(items: &[Item], node: NodeNo, found: u64) -> Option<Places>
    ensures { result ≡ showing.overtaken items.now node found }
{
    let place = take_place(items, node);
    let own = last_take_at(items, place, &Clue::EarlierTerm { node, than: found });
    two_places(true, own, seek(items, 0, &Clue::TermTaken { term: found }))
}

fn holding(items: &[Item], node: NodeNo, term: u64) -> Option<Places>
    ensures { result ≡ showing.holding items.now node term }
{
    let place = take_place(items, node);
    let own = last_take_at(items, place, &Clue::OwnTerm { node, term });
    let crash = seek(items, take_from(items, node), &Clue::Crashed { node });
    one_place(crash.is_none(), own)
}
