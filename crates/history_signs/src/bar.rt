// The bars that items open.
ghost use Rattle.std.specs.Prelude.{◌≡◌, ◌+◌, ◌<◌, ◌≤◌, ◌^◌, Some, IfSome, length, drop, slice_get};
ghost use Rattle.history_signs.specs.Bars.{bar_of, bar_to, closing, ended, ends_for, ends_lease, ends_transaction, goes_to, is_of_session, is_own, kind_of, left_to, onward, own_to, places};

use history_book::{Actor, Cause, Ending, Item};
use stamp_base::{NodeNo, SessionNo, TxnId};

/// How a bar is drawn: how its transaction ended, or as a lease.
#[derive(Clone, Copy)]
pub enum BarKind {
    /// It committed.
    Committed,
    /// Its commit was refused.
    Refused,
    /// Its session gave it up.
    Aborted,
    /// It can't commit any more.
    Dead,
    /// Nothing tells its end.
    Open,
    /// The bar is a lease, not a transaction.
    Lease,
}

/// A bar, from the item that opens it to the place where it ends.
#[derive(Clone, Copy)]
pub struct Bar {
    /// The place where it ends.
    pub to: usize,
    /// How it is drawn.
    pub kind: BarKind,
}

/// The bar that the item at the place opens.
pub fn bar_of(items: &[Item], place: usize, item: &Item) -> Option<Bar>
    requires { place < length items.now }
    ensures bar { result ≡ bar_of items.now place item.now }
    ensures within { IfSome result (λ bar. bar.to ≤ length items.now) }
{
    match item {
        Item::Begin { .. } => Some(bar_from(items, place, item, BarKind::Open)),
        Item::Take { .. } => Some(bar_from(items, place, item, BarKind::Lease)),
        Item::Renew { .. } => Some(bar_from(items, place, item, BarKind::Lease)),
        _ => None,
    }
}

/// The bar that the item at the place opens, over those behind it.
#[tactic(auto, unfolding(crate::specs::Bars::bar_to))]
fn bar_from(items: &[Item], opened: usize, opener: &Item, kind: BarKind) -> Bar
    requires { opened < length items.now }
    ensures bar { result ≡ bar_to opener.now (record { to = opened; kind = kind }) (opened + 1) (drop (opened + 1) items.now) }
    ensures within { result.to ≤ length items.now }
{
    let mut bar = Bar { to: opened, kind };
    let mut place = opened + 1;
    while place < items.len() {
        if let Some(kind) = closing(opener, &items[place]) {
            return ended(items, opener, kind, place, bar);
        }
        bar = onward(opener, &items[place], place, bar);
        place += 1;
    }
    bar
}

/// The item at the place ends the bar, or tells that another transaction has the session.
fn ended(items: &[Item], opener: &Item, kind: BarKind, place: usize, bar: Bar) -> Bar
    requires { place < length items.now }
    ensures bar { result ≡ ended opener.now kind place bar (drop (place + 1) items.now) }
    ensures within { (bar.to ≤ place) → (result.to ≤ length items.now) }
{
    match kind {
        BarKind::Open => left_to(items, opener, place + 1, bar),
        _ => Bar { to: place, kind },
    }
}

/// The bar of a transaction whose session has begun another before the place.
fn left_to(items: &[Item], opener: &Item, from: usize, bar: Bar) -> Bar
    requires { from ≤ length items.now }
    ensures bar { result ≡ left_to opener.now bar from (drop from items.now) }
    ensures within { (bar.to ≤ from) → (result.to ≤ length items.now) }
{
    match *opener {
        Item::Begin { session, start } => own_to(items, session, start, from, bar),
        _ => bar,
    }
}

/// The bar on over a transaction's own items and its commit, from a place on. Only the next 2,000 items are looked at, as many as a
/// picture shows: a transaction that never ends would have all of a long history looked at.
#[tactic(auto, unfolding(crate::specs::Bars::own_to))]
fn own_to(items: &[Item], session: SessionNo, start: TxnId, from: usize, bar: Bar) -> Bar
    requires { from ≤ length items.now }
    ensures bar { result ≡ own_to 2000 session start bar from (drop from items.now) }
    ensures within { (bar.to ≤ from) → (result.to ≤ length items.now) }
{
    let mut reached = bar;
    let mut left = 2_000_usize;
    let mut place = from;
    while left > 0 && place < items.len() {
        reached = goes_to(session, start, &items[place], place, reached);
        place += 1;
        left -= 1;
    }
    reached
}

/// The bar so far, behind one more item that does not end it.
fn onward(opener: &Item, item: &Item, place: usize, bar: Bar) -> Bar
    requires { place < 2 ^ 63 }
    ensures bar { result ≡ onward opener.now item.now place bar }
    ensures within { (bar.to ≤ place) → (result.to ≤ place + 1) }
{
    match *opener {
        Item::Begin { session, start } => goes_to(session, start, item, place, bar),
        _ => Bar {
            to: place + 1,
            kind: bar.kind,
        },
    }
}

/// A transaction whose end is not told is committed where its commit was placed, and else open up to its own last item.
fn goes_to(session: SessionNo, start: TxnId, item: &Item, place: usize, bar: Bar) -> Bar
    ensures bar { result ≡ goes_to session start item.now place bar }
    ensures within { (bar.to ≤ place) → (result.to ≤ place) }
{
    match bar.kind {
        BarKind::Open if places(start, item) => Bar {
            to: place,
            kind: BarKind::Committed,
        },
        BarKind::Open if is_own(session, start, item) => Bar {
            to: place,
            kind: BarKind::Open,
        },
        _ => bar,
    }
}

fn places(own: TxnId, item: &Item) -> bool
    ensures { result ≡ places own item.now }
{
    match *item {
        Item::Placed { start, .. } => start == own,
        _ => false,
    }
}

/// Whether the item is one of the transaction's own, behind its begin.
fn is_own(own: SessionNo, its: TxnId, item: &Item) -> bool
    ensures { result ≡ is_own own its item.now }
{
    match *item {
        Item::Write { session, start, .. }
        | Item::Read { session, start, .. }
        | Item::AskCommit { session, start, .. } => session == own && start == its,
        _ => false,
    }
}

/// How the item ends the bar that the opener opens.
fn closing(opener: &Item, item: &Item) -> Option<BarKind>
    ensures { result ≡ closing opener.now item.now }
{
    match *opener {
        Item::Begin { session, .. } => ends_for(session, item),
        Item::Take { node, until, .. } => ends_lease(node, until, item),
        Item::Renew { node, until, .. } => ends_lease(node, until, item),
        _ => None,
    }
}

/// How the item ends the transaction that the session has.
fn ends_for(own: SessionNo, item: &Item) -> Option<BarKind>
    ensures { result ≡ ends_for own item.now }
{
    match *item {
        Item::Committed { session, .. } if session == own => Some(BarKind::Committed),
        Item::End { session, how, .. } if session == own => Some(kind_of(how)),
        Item::Refused { actor, cause } if is_of_session(own, actor) && ends_transaction(cause) => {
            Some(BarKind::Refused)
        }
        Item::Begin { session, .. } if session == own => Some(BarKind::Open),
        _ => None,
    }
}

fn kind_of(how: Ending) -> BarKind
    ensures { result ≡ kind_of how }
{
    match how {
        Ending::ReadOnly => BarKind::Committed,
        Ending::Aborted => BarKind::Aborted,
        Ending::Dead => BarKind::Dead,
    }
}

pub(crate) fn is_of_session(own: SessionNo, actor: Actor) -> bool
    ensures { result ≡ is_of_session own actor }
{
    match actor {
        Actor::Session(session) => session == own,
        _ => false,
    }
}

/// Whether a commit that is refused by this cause ends its transaction.
fn ends_transaction(cause: Cause) -> bool
    ensures { result ≡ ends_transaction cause }
{
    match cause {
        Cause::Conflict { .. }
        | Cause::Hidden { .. }
        | Cause::OldEpoch { .. }
        | Cause::Expired { .. }
        | Cause::Replaced { .. }
        | Cause::Spent { .. }
        | Cause::Invalid { .. } => true,
        _ => false,
    }
}

/// How the item ends the lease that the node has until then.
fn ends_lease(own: NodeNo, until: u64, item: &Item) -> Option<BarKind>
    ensures { result ≡ ends_lease own until item.now }
{
    match *item {
        Item::Take { node, .. } if node == own => Some(BarKind::Lease),
        Item::Renew { node, .. } if node == own => Some(BarKind::Lease),
        Item::Crash { node, .. } if node == own => Some(BarKind::Lease),
        Item::Tick { to } if until <= to => Some(BarKind::Lease),
        _ => None,
    }
}
