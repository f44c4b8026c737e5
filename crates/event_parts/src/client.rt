ghost use Rattle.std.specs.Prelude.{◌≡◌, None, IfOk, OnOk, OnErr};
ghost use Rattle.system_parts.specs.KeyRead.{ReadTurn, is_recall, next_of, reading_left};
ghost use Rattle.system_parts.specs.SessionSteps as step;
ghost use Rattle.stamp_base.specs.Setups.{numbers_of};
ghost use Rattle.machine.specs.State as state;
ghost use Rattle.machine.specs.Clients as left;
ghost use Rattle.machine.specs.Events.Write.{client_wrote, write_refused};
ghost use Rattle.machine.specs.Events.Fetch.{client_read, client_recalled, client_put_fresh, client_fetched, keeps_read, reads_refusal, fetch_refused};
ghost use Rattle.machine.specs.Events.Heal.{offer_of};
ghost use Rattle.event_parts.specs.Parts.{way_of};
ghost use Rattle.event_parts.specs.Recalling.{ShowsNext, remembers};

use crate::recalling::recall_all;
use client_txn::{Session, check_key};
use history_book::Cause;
use invalidator::Settle;
use read_sets::ReadSet;
use reader_resolve::{Next, ReadRun};
use shadow_cells::Completion;
use stamp_base::{KeyList, KeyNo, NoMemory, Setup, Stamp, TxnId};
use std::alloc::Global;
use std::marker::Model;
use system_parts::{Reply, Request, State};

/// What a session has under way between two of its events.
#[derive(Drop)]
pub(crate) enum UnderWay {
    Nothing,
    Reads(ReadRun),
    /// The resolve of its own commit, whose outcome is open.
    Settles(Settle),
    Completes(Completion),
}

/// A client: its session, with what it remembers, what it has under way, the shadow that its last read offers to set, and
/// the keys that its transaction read and had not written, where the setup has them kept.
#[derive(Drop)]
pub struct Client {
    pub(crate) session: Session,
    pub(crate) under_way: UnderWay,
    pub(crate) heal: Option<(KeyNo, TxnId, Stamp)>,
    pub(crate) reads: ReadSet,
}

impl Model for Client {
    ghost use Rattle.machine.specs.State as machine;

    ghost Value = { machine.Client };

    ghost use Rattle.event_parts.specs.Parts.{way_of};

    ghost view = { λ c. record { entry = c.session.entry; under_way = way_of c.under_way; heal = c.heal; reads = c.reads; cache = c.session.cache } };

    ghost use Rattle.event_parts.specs.Parts.{FitsState};

    ghost invariant = { λ c. FitsState (way_of c.under_way) c.session.entry.state };
}

impl Client {
    ghost use Rattle.event_parts.specs.Waiting.{Waits};
    ghost use Rattle.event_parts.specs.Replies.{WaitsForReply, replied};

    /// A free session that remembers so many decisions, with nothing under way. NoMemory where memory is refused.
    pub fn new(alloc: Global, cache: u64) -> Result<Client, NoMemory>
        ensures { IfOk result (λ client. client ≡ state.client_new cache) }
    {
        Ok(Client {
            session: Session::with_cache(alloc, cache)?,
            under_way: UnderWay::Nothing,
            heal: None,
            reads: ReadSet::empty(),
        })
    }

    /// A free session that remembers no decisions, with nothing under way. It takes no memory.
    pub fn without_cache() -> Client
        ensures { result ≡ state.client_new 0 }
    {
        Client {
            session: Session::new(),
            under_way: UnderWay::Nothing,
            heal: None,
            reads: ReadSet::empty(),
        }
    }

    /// A fresh decision goes with those that are kept, in front. Where memory is refused, all is as before.
    pub fn put_fresh(&mut self) -> Result<(), NoMemory>
        ensures kept { OnOk result (self.new ≡ client_put_fresh self.old) }
        ensures refused { OnErr result (self.new ≡ self.old) }
    {
        self.session.keep_fresh()
    }

    /// Whether a read is under way.
    pub fn is_reading(&self) -> bool
        ensures { result ≡ left.is_reading self.now }
    {
        match &self.under_way {
            UnderWay::Reads(run) => run.next().is_some(),
            _ => false,
        }
    }

    /// What the session is about.
    pub fn state(&self) -> State
        ensures value { result ≡ self.now.entry.state }
        ensures sense { step.MakesSense self.now.entry }
    {
        self.session.state()
    }

    /// The start of its transaction.
    pub fn start(&self) -> Option<Stamp>
        ensures { result ≡ self.now.entry.start }
    {
        self.session.start()
    }

    /// The epoch that its last begin was answered with.
    pub fn epoch(&self) -> Option<u64>
        ensures { result ≡ self.now.entry.epoch }
    {
        self.session.epoch()
    }

    /// The keys that its transaction has written.
    pub fn keys(&self) -> &KeyList
        ensures { result.now ≡ self.now.entry.keys }
    {
        self.session.keys()
    }

    /// The keys that its transaction read and had not written, where the setup has them kept.
    pub fn read_set(&self) -> &ReadSet
        ensures { result.now ≡ self.now.reads }
    {
        &self.reads
    }

    /// Whether a begin may be asked: refused as gone, or busy.
    pub fn check_begin(&self) -> Result<(), Cause>
        ensures { step.IsAnswer (step.begin_refusal self.now.entry.state) result }
    {
        self.session.check_begin()
    }

    /// Whether the transaction may go on: refused as gone, without a transaction, or busy.
    pub fn check_work(&self) -> Result<(), Cause>
        ensures { step.IsAnswer (step.work_refusal self.now.entry.state (left.is_reading self.now)) result }
    {
        self.session.check_work(self.is_reading())
    }

    /// Whether the transaction may write the key: refused as gone, without a transaction, busy, or with 64 other keys, in
    /// this order.
    pub fn check_write(&self, key: KeyNo) -> Result<(), Cause>
        ensures { step.IsAnswer (write_refused self.now key) result }
    {
        self.check_work()?;
        self.session.check_write(key)
    }

    /// Whether the transaction may begin a read of the key: refused as gone, without a transaction, busy, or with 64 other
    /// keys in the read set, in this order.
    pub fn check_fetch(&self, setup: &Setup, key: KeyNo) -> Result<(), Cause>
        ensures { step.IsAnswer (fetch_refused (numbers_of setup.now) self.now key) result }
    {
        self.check_work()?;
        self.check_reads(setup, key)
    }

    /// Whether the read set has room for the key, where it is to be kept.
    fn check_reads(&self, setup: &Setup, key: KeyNo) -> Result<(), Cause>
        ensures { step.IsAnswer (reads_refusal (numbers_of setup.now) self.now key) result }
    {
        if self.keeps(setup, key) {
            check_key(self.reads.keys(), key)
        } else {
            Ok(())
        }
    }

    /// Whether a read of the key is kept: with strict reads, of a key alone that the transaction has not written.
    fn keeps(&self, setup: &Setup, key: KeyNo) -> bool
        ensures { result ≡ keeps_read (numbers_of setup.now) self.now key }
    {
        setup.strict && !self.session.keys().as_slice().contains(&key)
    }

    /// Whether the session may vanish: refused as gone.
    pub fn check_vanish(&self) -> Result<(), Cause>
        ensures { step.IsAnswer (step.vanish_refusal self.now.entry.state) result }
    {
        self.session.check_vanish()
    }

    /// A begin was asked, or the commit of a transaction that has written.
    pub fn asked(&mut self)
        requires { step.CanAsk self.old.entry }
        ensures { self.new ≡ left.client_asked self.old }
    {
        self.rest();
        self.session.asked();
    }

    /// The begin was answered.
    pub fn begun(&mut self, start: Stamp, epoch: u64)
        requires { step.CanBegin self.old.entry }
        ensures { self.new ≡ left.client_begun self.old start epoch }
    {
        self.rest();
        self.session.begun(start, epoch);
        self.reads = ReadSet::empty();
    }

    /// The transaction has ended without a commit, and what it wrote is to be undone.
    pub fn aborted(&mut self)
        requires { step.CanAbort self.old.entry }
        ensures { self.new ≡ left.client_aborted self.old }
    {
        self.under_way = undo_of(self.session.start(), self.session.keys());
        self.session.aborted();
        self.heal = None;
    }

    /// The transaction has its commit, and is to be finished.
    pub fn committed(&mut self, commit: Stamp)
        requires { step.CanCommit self.old.entry }
        ensures { self.new ≡ left.client_committed self.old commit }
    {
        self.under_way = finish_of(self.session.start(), commit, self.session.keys());
        self.session.committed(commit);
        self.heal = None;
    }

    /// The commit is drawn, and the session is to place its record.
    pub fn handed(&mut self, commit: Stamp)
        requires { step.CanHand self.old.entry }
        ensures { self.new ≡ left.client_handed self.old commit }
    {
        self.rest();
        self.session.handed(commit);
    }

    /// It is not known whether the commit was placed.
    pub fn opened(&mut self)
        requires { step.CanOpen self.old.entry }
        ensures { self.new ≡ left.client_opened self.old }
    {
        self.rest();
        self.session.opened();
    }

    /// The session is gone for good.
    pub fn vanished(&mut self)
        requires { step.CanVanish self.old.entry }
        ensures { self.new ≡ left.client_vanished self.old }
    {
        self.rest();
        self.session.vanished();
    }

    /// A refusal has ended the request that the session waits for, unless it has vanished.
    pub fn refused(&mut self, request: &Request)
        requires { Waits request.now self.old.entry }
        ensures { self.new ≡ left.after_refusal request.now self.old }
    {
        if self.session.state() == State::Gone {
            return;
        }
        match request {
            Request::Begin { .. } => self.freed(),
            Request::Commit { .. } => self.aborted(),
        }
    }

    /// The request that the session waits for was answered, unless it has vanished.
    pub fn replied(&mut self, reply: &Reply)
        requires { WaitsForReply reply.now self.old.entry }
        ensures { self.new ≡ replied reply.now self.old }
    {
        if self.session.state() == State::Gone {
            return;
        }
        match reply {
            Reply::Begun { start, epoch } => self.begun(*start, *epoch),
            Reply::Committed { commit } => self.committed(*commit),
            Reply::Handed { commit } => self.handed(*commit),
            Reply::Invalid => self.aborted(),
            Reply::Open => self.opened(),
        }
    }

    /// The key was written, or its write has failed: it joins the write list. No shadow is offered.
    pub fn wrote(&mut self, key: KeyNo)
        requires { write_refused self.old key ≡ None }
        ensures { self.new ≡ client_wrote self.old key }
    {
        // The key may be written, so this is not refused.
        let _ = self.session.wrote(key);
        self.heal = None;
    }

    /// The cells of a key were fetched: the key joins the read set, where it is to be kept.
    pub fn fetched(&mut self, setup: &Setup, key: KeyNo)
        requires { fetch_refused (numbers_of setup.now) self.old key ≡ None }
        ensures { self.new ≡ client_fetched (numbers_of setup.now) self.old key }
    {
        if self.keeps(setup, key) {
            add_read(&mut self.reads, key);
        }
    }

    /// A read was begun. It recalls until it asks, or has its answer, and with it the shadow that may be set. What is next
    /// then.
    pub fn reads(&mut self, run: ReadRun, next: Next) -> Next
        requires recalls { run.recalls ≡ is_recall next }
        requires shows { ShowsNext run.reading next }
        ensures client { self.new ≡ client_recalled self.old (remembers self.old.cache run.reading next) }
        ensures next { result ≡ next_of (remembers self.old.cache run.reading next).0 }
    {
        let mut run = run;
        let then = recall_all(&mut self.session, &mut run, next);
        self.reads_on(run, &then);
        then
    }

    /// The read asks, or has its answer.
    fn reads_on(&mut self, run: ReadRun, next: &Next)
        ensures { (turn : ReadTurn) → run.reading ≡ reading_left turn → next.now ≡ next_of turn → self.new ≡ client_read self.old turn }
    {
        match next {
            Next::Recall(_) | Next::Ask(_) => {
                self.under_way = UnderWay::Reads(run);
                self.heal = None;
            }
            Next::Done(answer) => {
                self.under_way = UnderWay::Nothing;
                self.heal = answer.heal;
            }
        }
    }

    /// The shadow that it may set: only an open transaction without a read under way has an offer.
    pub fn offer(&self) -> Option<(KeyNo, TxnId, Stamp)>
        ensures { result ≡ offer_of self.now }
    {
        match self.session.state() {
            State::Open if !self.is_reading() => self.heal,
            _ => None,
        }
    }

    /// The offer is used up.
    pub fn offers_none(&mut self)
        ensures { self.new ≡ record self.old { heal = None } }
    {
        self.heal = None;
    }

    /// The begin was refused, the transaction has ended without writes, or its completion has ended.
    pub fn freed(&mut self)
        requires { step.CanFree self.old.entry }
        ensures { self.new ≡ left.client_freed self.old }
    {
        self.rest();
        self.session.freed();
    }

    /// Nothing is under way, and no shadow is offered.
    fn rest(&mut self)
        ensures { self.new ≡ record self.old { under_way = state.Nothing; heal = None } }
    {
        self.under_way = UnderWay::Nothing;
        self.heal = None;
    }
}

/// The key is in the set from now on.
#[tactic(auto, using(client_txn::proofs::KeyLemmas::pushed, client_txn::proofs::KeyLemmas::refused))]
fn add_read(reads: &mut ReadSet, key: KeyNo)
    requires { step.key_refusal reads.old key ≡ None }
    ensures { reads.new ≡ step.key_added reads.old key }
{
    // There is room for the key, so this is not refused.
    let _ = reads.read(key);
}

/// Each cell of the transaction is to be erased.
fn undo_of(start: Option<Stamp>, keys: &KeyList) -> UnderWay
    ensures { way_of result ≡ left.undo_of start keys.now }
{
    match start {
        Some(start) if !keys.as_slice().is_empty() => {
            UnderWay::Completes(Completion::undo(start, *keys))
        }
        _ => UnderWay::Nothing,
    }
}

/// Each cell of the transaction is to get its shadow, and then the record goes.
fn finish_of(start: Option<Stamp>, commit: Stamp, keys: &KeyList) -> UnderWay
    ensures { way_of result ≡ left.finish_of start commit keys.now }
{
    match start {
        Some(start) => UnderWay::Completes(Completion::finish(start, commit, *keys)),
        None => UnderWay::Nothing,
    }
}
