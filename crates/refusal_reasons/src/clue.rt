// What an earlier item may have to be, so that it shows a refusal.
ghost use Rattle.std.specs.Prelude.{◌≡◌, Some, None};
ghost use Rattle.refusal_reasons.specs.Clues as clues;

use history_book::{Actor, Item, StoreStep};
use stamp_base::{KeyNo, NodeNo, SessionNo, Store};

/// What an item has to be. Terms, stamps, epochs, ceilings and ends of leases stand as numbers.
#[derive(Clone, Copy, Debug, PartialEq, Eq)]
pub enum Clue {
    /// An ask of the session.
    Ask { session: SessionNo },
    /// An accept of the session's request.
    Accepted { session: SessionNo },
    /// A draw for the session.
    Drew { session: SessionNo },
    /// A take by the node.
    Took { node: NodeNo },
    /// A crash of the node's oracle.
    Crashed { node: NodeNo },
    /// A crash of the node's oracle of the term.
    CrashedIn { node: NodeNo, term: u64 },
    /// A write at the key by the transaction with this start.
    Wrote { start: u64, key: KeyNo },
    /// A begin of the session.
    Begun { session: SessionNo },
    /// A fetch of the key by the session.
    Fetched { session: SessionNo, key: KeyNo },
    /// A draw of the commit in the term.
    Commit { term: u64, commit: u64 },
    /// A draw of the stamp in the term, as a start or as a commit.
    StampIn { term: u64, stamp: u64 },
    /// A take by the node, with this epoch.
    Epoch { node: NodeNo, epoch: u64 },
    /// A take whose lease has this end.
    LeaseTaken { node: NodeNo, until: u64 },
    /// A renewal by the node, of a lease with this end.
    LeaseRenewed { node: NodeNo, until: u64 },
    /// A take or a renewal, of any node.
    Lease { until: u64 },
    /// A take of the term, by any node.
    TermTaken { term: u64 },
    /// A take of the term by the node.
    OwnTerm { node: NodeNo, term: u64 },
    /// A take by the node of a term below this one.
    EarlierTerm { node: NodeNo, than: u64 },
    /// A take or an extension with this ceiling, in any term.
    Ceiling { ceiling: u64 },
    /// A take or an extension with this ceiling, in the term.
    CeilingIn { term: u64, ceiling: u64 },
    /// An invalid mark of the transaction with this start.
    Marked { start: u64 },
    /// A call on the commit table failed, of the node or of the session.
    TableFault { node: NodeNo, session: SessionNo },
    /// A call of the node on any store failed.
    NodeFault { node: NodeNo },
    /// The session is gone.
    Vanished { session: SessionNo },
    /// A commit that was placed.
    Placed { commit: u64 },
    /// A commit that was placed, of the transaction with this start.
    CommitOf { start: u64 },
    /// An ask for a start.
    AskedStart { session: SessionNo },
}

/// Whether the item is what the clue asks for.
pub fn fits(clue: &Clue, item: &Item) -> bool
    ensures { result ≡ clues.fits clue.now item.now }
{
    match *clue {
        Clue::Ask { session } => asks(session, item),
        Clue::Accepted { session } => accepts(session, item),
        Clue::Drew { session } => draws(session, item),
        Clue::Wrote { start, key } => writes(start, key, item),
        Clue::Begun { session } => begins(session, item),
        Clue::Fetched { session, key } => fetches(session, key, item),
        Clue::Commit { term, commit } => draws_commit(term, commit, item),
        Clue::StampIn { term, stamp } => draws_stamp(term, stamp, item),
        Clue::Marked { start } => marks(start, item),
        Clue::Vanished { session } => vanishes(session, item),
        Clue::Placed { commit } => places(commit, item),
        Clue::CommitOf { start } => commits(start, item),
        Clue::AskedStart { session } => asks_start(session, item),
        _ => fits_node(clue, item),
    }
}

/// Whether the item is what a clue that tells of nodes asks for.
fn fits_node(clue: &Clue, item: &Item) -> bool
    ensures { result ≡ clues.fits_node clue.now item.now }
{
    match *clue {
        Clue::Took { node } => takes(node, item),
        Clue::Crashed { node } => crashes(node, item),
        Clue::CrashedIn { node, term } => crashes_in(node, term, item),
        Clue::Epoch { node, epoch } => takes_epoch(node, epoch, item),
        Clue::LeaseTaken { node, until } => takes_lease(node, until, item),
        Clue::LeaseRenewed { node, until } => renews_lease(node, until, item),
        Clue::Lease { until } => gives_lease(until, item),
        Clue::TermTaken { term } => takes_term(term, item),
        Clue::OwnTerm { node, term } => takes_own_term(node, term, item),
        Clue::EarlierTerm { node, than } => takes_earlier(node, than, item),
        Clue::Ceiling { ceiling } => gives_ceiling(ceiling, item),
        Clue::CeilingIn { term, ceiling } => gives_ceiling_in(term, ceiling, item),
        Clue::TableFault { node, session } => faults_on_table(node, session, item),
        Clue::NodeFault { node } => faults(node, item),
        _ => false,
    }
}

fn asks(own: SessionNo, item: &Item) -> bool
    ensures { result ≡ clues.asks_for own item.now }
{
    match *item {
        Item::AskBegin { session, .. } => session == own,
        Item::AskCommit { session, .. } => session == own,
        _ => false,
    }
}

fn accepts(own: SessionNo, item: &Item) -> bool
    ensures { result ≡ clues.accepts_for own item.now }
{
    match *item {
        Item::Accept { session, .. } => session == own,
        _ => false,
    }
}

fn draws(own: SessionNo, item: &Item) -> bool
    ensures { result ≡ clues.draws_for own item.now }
{
    match *item {
        Item::Draw { session, .. } => session == own,
        _ => false,
    }
}

fn writes(own: u64, written: KeyNo, item: &Item) -> bool
    ensures { result ≡ clues.writes own written item.now }
{
    match *item {
        Item::Write { start, key, .. } => start.value() == own && key == written,
        _ => false,
    }
}

fn begins(own: SessionNo, item: &Item) -> bool
    ensures { result ≡ clues.begins_for own item.now }
{
    match *item {
        Item::Begin { session, .. } => session == own,
        _ => false,
    }
}

fn fetches(own: SessionNo, its: KeyNo, item: &Item) -> bool
    ensures { result ≡ clues.fetches own its item.now }
{
    match *item {
        Item::Step {
            actor: Actor::Session(session),
            what: StoreStep::Fetch { key, .. },
        } => session == own && key == its,
        _ => false,
    }
}

fn draws_commit(its: u64, stamp: u64, item: &Item) -> bool
    ensures { result ≡ clues.draws_commit its stamp item.now }
{
    match *item {
        Item::Draw {
            term,
            commit: Some(commit),
            ..
        } => term.value() == its && commit.value() == stamp,
        _ => false,
    }
}

fn draws_start(its: u64, stamp: u64, item: &Item) -> bool
    ensures { result ≡ clues.draws_start its stamp item.now }
{
    match *item {
        Item::Draw {
            term,
            start,
            commit: None,
            ..
        } => term.value() == its && start.value() == stamp,
        _ => false,
    }
}

fn draws_stamp(its: u64, stamp: u64, item: &Item) -> bool
    ensures { result ≡ clues.draws_stamp its stamp item.now }
{
    draws_start(its, stamp, item) || draws_commit(its, stamp, item)
}

fn marks(own: u64, item: &Item) -> bool
    ensures { result ≡ clues.marks own item.now }
{
    match *item {
        Item::Mark { start, .. } => start.value() == own,
        _ => false,
    }
}

fn vanishes(own: SessionNo, item: &Item) -> bool
    ensures { result ≡ clues.vanishes own item.now }
{
    match *item {
        Item::Vanish { session } => session == own,
        _ => false,
    }
}

fn places(stamp: u64, item: &Item) -> bool
    ensures { result ≡ clues.places stamp item.now }
{
    match *item {
        Item::Placed { commit, .. } => commit.value() == stamp,
        _ => false,
    }
}

fn commits(own: u64, item: &Item) -> bool
    ensures { result ≡ clues.commits own item.now }
{
    match *item {
        Item::Placed { start, .. } => start.value() == own,
        _ => false,
    }
}

fn asks_start(own: SessionNo, item: &Item) -> bool
    ensures { result ≡ clues.asks own item.now }
{
    match *item {
        Item::AskBegin { session, .. } => session == own,
        _ => false,
    }
}

fn takes(own: NodeNo, item: &Item) -> bool
    ensures { result ≡ clues.takes_for own item.now }
{
    match *item {
        Item::Take { node, .. } => node == own,
        _ => false,
    }
}

fn crashes(own: NodeNo, item: &Item) -> bool
    ensures { result ≡ clues.crashes_for own item.now }
{
    match *item {
        Item::Crash { node, .. } => node == own,
        _ => false,
    }
}

fn crashes_in(own: NodeNo, its: u64, item: &Item) -> bool
    ensures { result ≡ clues.crashes_in own its item.now }
{
    match *item {
        Item::Crash { node, term } => node == own && term.value() == its,
        _ => false,
    }
}

fn takes_epoch(own: NodeNo, its: u64, item: &Item) -> bool
    ensures { result ≡ clues.takes_epoch own its item.now }
{
    match *item {
        Item::Take { node, epoch, .. } => node == own && epoch == its,
        _ => false,
    }
}

fn takes_lease(own: NodeNo, end: u64, item: &Item) -> bool
    ensures { result ≡ clues.takes_lease own end item.now }
{
    match *item {
        Item::Take { node, until, .. } => node == own && until == end,
        _ => false,
    }
}

fn renews_lease(own: NodeNo, end: u64, item: &Item) -> bool
    ensures { result ≡ clues.renews_lease own end item.now }
{
    match *item {
        Item::Renew { node, until, .. } => node == own && until == end,
        _ => false,
    }
}

fn gives_lease(end: u64, item: &Item) -> bool
    ensures { result ≡ clues.gives_lease end item.now }
{
    match *item {
        Item::Take { until, .. } => until == end,
        Item::Renew { until, .. } => until == end,
        _ => false,
    }
}

fn takes_term(its: u64, item: &Item) -> bool
    ensures { result ≡ clues.takes_term its item.now }
{
    match *item {
        Item::Take { term, .. } => term.value() == its,
        _ => false,
    }
}

fn takes_own_term(own: NodeNo, its: u64, item: &Item) -> bool
    ensures { result ≡ clues.takes_own_term own its item.now }
{
    match *item {
        Item::Take { node, term, .. } => node == own && term.value() == its,
        _ => false,
    }
}

fn takes_earlier(own: NodeNo, than: u64, item: &Item) -> bool
    ensures { result ≡ clues.takes_earlier own than item.now }
{
    match *item {
        Item::Take { node, term, .. } => node == own && term.value() < than,
        _ => false,
    }
}

fn gives_ceiling(end: u64, item: &Item) -> bool
    ensures { result ≡ clues.gives_ceiling end item.now }
{
    match *item {
        Item::Take { ceiling, .. } => ceiling == end,
        Item::Extend { ceiling, .. } => ceiling == end,
        _ => false,
    }
}

fn gives_ceiling_in(its: u64, end: u64, item: &Item) -> bool
    ensures { result ≡ clues.gives_ceiling_in its end item.now }
{
    match *item {
        Item::Take { term, ceiling, .. } => term.value() == its && ceiling == end,
        Item::Extend { term, ceiling, .. } => term.value() == its && ceiling == end,
        _ => false,
    }
}

fn faults_on_table(own: NodeNo, its: SessionNo, item: &Item) -> bool
    ensures { result ≡ clues.faults_on_table own its item.now }
{
    match *item {
        Item::Fault {
            actor: Actor::Node(node),
            store: Store::Table,
        } => node == own,
        Item::Fault {
            actor: Actor::Session(session),
            store: Store::Table,
        } => session == its,
        _ => false,
    }
}

fn faults(own: NodeNo, item: &Item) -> bool
    ensures { result ≡ clues.faults own item.now }
{
    match *item {
        Item::Fault {
            actor: Actor::Node(node),
            ..
        } => node == own,
        _ => false,
    }
}
