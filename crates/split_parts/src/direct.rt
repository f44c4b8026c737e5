// Events that are made of the lent parts themselves.
ghost use Rattle.std.specs.Prelude.{◌≡◌, ◌<◌, IfOk, IsTrue, OnErr, None, List, ℕ};
ghost use Rattle.event_parts.specs.Made.{Makes};
ghost use Rattle.machine.specs.Machine.{asks};
ghost use Rattle.cluster_core.specs.Required.{CanMake};
ghost use Rattle.split_parts.specs.Acts.{Acts, asked_of};
ghost use Rattle.split_parts.specs.Agrees.{CallsFit, HasSession};
ghost use Rattle.split_parts.specs.Direct.{HasAll, HasPost, lent_effect};
ghost use Rattle.split_parts.specs.Making.{called_after};
ghost use Rattle.split_parts.specs.Parts.{LeasesBySetup, fate_of, filled, seen};

use crate::accessing::{fetch_among, heal_among, write_among};
use crate::acting::ended;
use crate::leaving::{abort_among, vanish_among};
use crate::recording::{extend_among, renew_among, take_among};
use crate::requesting::{
    accept_among, answer_among, ask_begin_among, ask_commit_among, decide_among, put_among,
};
use crate::stepping::step_among;
use crate::sweeping::{sweep_open_among, sweep_step_among};
use crate::{Acted, Lent};
use event_parts::Stopped;
use history_book::Book;
use machine::Event;
use port_io::OneFate;
use stamp_base::{KeyNo, NoMemory, NodeNo, SessionNo, Store};
use std::alloc::Global;

impl Lent<'_> {
    /// The store call of an event that was made is counted.
    fn count_made(&mut self, store: Option<Store>, made: &Result<(), Stopped>)
        requires { CallsFit (seen self.old) store }
        ensures { seen self.new ≡ called_after store made.now (seen self.old) }
    {
        if !matches!(made, Err(Stopped::NoMemory)) {
            self.count(store);
        }
    }

    /// Whether the parts are lent of which the event can be made.
    pub(crate) fn has_all(&self, event: &Event) -> bool
        ensures { IsTrue result → HasAll (seen self.now) event.now }
    {
        match event {
            Event::Write { session, .. } => self.has_session(*session) && self.cells.is_some(),
            Event::Abort { session } => self.has_session(*session),
            Event::Vanish { session } => self.has_session(*session),
            Event::AskBegin { session, node } => {
                self.has_session(*session) && self.has_post(*node)
            }
            Event::AskCommit { session, node } => {
                self.has_session(*session) && self.has_post(*node)
            }
            Event::Decide { node, session } => {
                self.has_session(*session) && self.has_post(*node)
            }
            Event::Answer { node, session } => {
                self.has_session(*session) && self.has_post(*node)
            }
            Event::Accept { node, session, .. } => {
                self.has_session(*session) && self.has_post(*node)
            }
            Event::Put { node, .. } => self.has_post(*node) && self.table.is_some(),
            Event::Step { session } => self.has_session(*session),
            Event::Fetch { session, .. } => self.has_session(*session) && self.cells.is_some(),
            Event::Heal { session } => self.has_session(*session) && self.cells.is_some(),
            Event::Take { node, .. } => self.has_post(*node) && self.master.is_some(),
            Event::Renew { node, .. } => self.has_post(*node) && self.master.is_some(),
            Event::Extend { node } => self.has_post(*node) && self.master.is_some(),
            Event::SweepOpen { node, .. } => self.has_post(*node) && self.janitor.is_some(),
            Event::SweepStep => self.janitor.is_some(),
            _ => false,
        }
    }

    /// Whether the session is lent.
    fn has_session(&self, session: SessionNo) -> bool
        ensures { IsTrue result → HasSession (seen self.now) session }
    {
        match self.session(session) {
            Some(part) => part.number == session,
            None => false,
        }
    }

    /// Whether the node is lent, and is one of the setup's.
    fn has_post(&self, node: NodeNo) -> bool
        ensures { IsTrue result → HasPost (seen self.now) node }
    {
        match &self.node {
            Some(part) => part.node == node && node.value() < self.plan.setup.nodes,
            None => false,
        }
    }

    fn fetch_store(&self, session: SessionNo, key: KeyNo) -> Option<Store>
        requires { HasSession (seen self.now) session }
        ensures { result ≡ asked_of (seen self.now) (Event.Fetch session key) }
    {
        let setup = self.setup();
        session_events::fetch_store(self.client(session)?, &setup, key)
    }

    fn next_store(&self, session: SessionNo) -> Option<Store>
        requires { HasSession (seen self.now) session }
        ensures { result ≡ asked_of (seen self.now) (Event.Step session) }
    {
        session_events::next_store(self.client(session)?)
    }

    fn put_store(&self, node: NodeNo, session: SessionNo) -> Option<Store>
        requires { HasPost (seen self.now) node }
        ensures { result ≡ asked_of (seen self.now) (Event.Put node session) }
    {
        node_events::put_store(self.post()?, session)
    }

    fn write_store(&self, session: SessionNo, key: KeyNo) -> Option<Store>
        requires { HasSession (seen self.now) session }
        ensures { (value : List ℕ) → result ≡ asked_of (seen self.now) (Event.Write session key value) }
    {
        session_events::write_store(self.client(session)?, key)
    }

    fn heal_store(&self, session: SessionNo) -> Option<Store>
        requires { HasSession (seen self.now) session }
        ensures { result ≡ asked_of (seen self.now) (Event.Heal session) }
    {
        session_events::heal_store(self.client(session)?)
    }

    fn take_store(&self, node: NodeNo) -> Option<Store>
        requires { HasPost (seen self.now) node }
        ensures { (reading : ℕ) → result ≡ asked_of (seen self.now) (Event.Take node reading) }
    {
        node_events::take_store(self.post()?)
    }

    fn renew_store(&self, node: NodeNo) -> Option<Store>
        requires { HasPost (seen self.now) node }
        ensures renew { (reading : ℕ) → result ≡ asked_of (seen self.now) (Event.Renew node reading) }
        ensures extend { result ≡ asked_of (seen self.now) (Event.Extend node) }
    {
        node_events::record_store(self.post()?)
    }

    /// The store that the event asks.
    fn asked(&self, event: &Event) -> Option<Store>
        requires { HasAll (seen self.now) event.now }
        ensures { result ≡ asked_of (seen self.now) event.now }
    {
        match event {
            Event::Write { session, key, .. } => self.write_store(*session, *key),
            Event::Put { node, session } => self.put_store(*node, *session),
            Event::Step { session } => self.next_store(*session),
            Event::Fetch { session, key } => self.fetch_store(*session, *key),
            Event::Heal { session } => self.heal_store(*session),
            Event::Take { node, .. } => self.take_store(*node),
            Event::Renew { node, .. } => self.renew_store(*node),
            Event::Extend { node } => self.renew_store(*node),
            Event::SweepStep => self.sweep_store(),
            _ => None,
        }
    }
}

/// An event among the lent parts.
fn make_among(
    alloc: Global,
    lent: &mut Lent<'_>,
    weather: &mut OneFate,
    book: &mut Book,
    event: &Event,
) -> Result<(), Stopped>
    requires leases { LeasesBySetup (seen lent.old) }
    requires all { HasAll (seen lent.old) event.now }
    requires can { CanMake (filled (seen lent.old)) event.now }
    requires fate { weather.old.fate ≡ fate_of (seen lent.old) (asked_of (seen lent.old) event.now) }
    ensures { Makes (lent_effect (seen lent.old) event.now weather.old.fate) (seen lent.old) (seen lent.new) book.old.items book.new.items result }
{
    match event {
        Event::Write {
            session,
            key,
            value,
        } => write_among(lent, weather, book, *session, *key, *value),
        Event::Abort { session } => abort_among(lent, book, *session),
        Event::Vanish { session } => vanish_among(lent, book, *session),
        Event::AskBegin { session, node } => ask_begin_among(lent, book, *session, *node),
        Event::AskCommit { session, node } => ask_commit_among(lent, book, *session, *node),
        Event::Decide { node, session } => decide_among(lent, book, *session, *node),
        Event::Answer { node, session } => answer_among(lent, book, *session, *node),
        Event::Accept {
            node,
            session,
            reading,
        } => accept_among(alloc, lent, book, *session, *node, *reading),
        Event::Put { node, session } => put_among(lent, weather, book, *session, *node),
        Event::Step { session } => step_among(alloc, lent, weather, book, *session),
        Event::Fetch { session, key } => fetch_among(lent, weather, book, *session, *key),
        Event::Heal { session } => heal_among(lent, weather, book, *session),
        Event::Take { node, reading } => take_among(alloc, lent, weather, book, *node, *reading),
        Event::Renew { node, reading } => renew_among(lent, weather, book, *node, *reading),
        Event::Extend { node } => extend_among(lent, weather, book, *node),
        Event::SweepOpen { node, txn } => sweep_open_among(lent, book, *node, *txn),
        Event::SweepStep => sweep_step_among(alloc, lent, weather, book),
        _ => unreachable!(),
    }
}

/// An event made of the lent parts themselves.
pub(crate) fn act_direct(
    alloc: Global,
    lent: &mut Lent<'_>,
    event: &Event,
) -> Result<Acted, NoMemory>
    requires leases { LeasesBySetup (seen lent.old) }
    requires all { HasAll (seen lent.old) event.now }
    requires calls { CallsFit (seen lent.old) (asks (filled (seen lent.old)) event.now) }
    requires can { CanMake (filled (seen lent.old)) event.now }
    ensures acted { IfOk result (λ acted. Acts (seen lent.old) (seen lent.new) event.now acted) }
    ensures refused { OnErr result (seen lent.new ≡ seen lent.old) }
{
    let store = lent.asked(event);
    let mut weather = OneFate::new(lent.fate(store));
    let mut book = Book::new(alloc);
    let made = make_among(alloc, lent, &mut weather, &mut book, event);
    lent.count_made(store, &made);
    let stopped = ended(made)?;
    Ok(Acted {
        items: book.into_items(),
        stopped,
    })
}
