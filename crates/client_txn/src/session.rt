ghost use Rattle.std.specs.Prelude.{◌≡◌, MatchResult, Some, None, IfOk, OnOk, OnErr};
ghost use Rattle.system_parts.specs.SessionSteps as step;
ghost use Rattle.system_parts.specs.Cache.{cache_new, known_of, used, put_fresh, cache_learnt};
ghost use Rattle.client_txn.specs.Remembering.{opened_with, cache_of};

use crate::memory::Memory;
use history_book::Cause;
use stamp_base::{KEY_LIMIT, KeyList, KeyNo, NoMemory, Stamp, TxnId};
use std::alloc::Global;
use std::marker::Model;
use system_parts::{Known, State};

/// A client session. Its start, keys and commit are those of its transaction; what it remembers of other transactions stays
/// until it vanishes.
#[derive(Drop)]
pub struct Session {
    state: State,
    start: Option<Stamp>,
    epoch: Option<u64>,
    keys: KeyList,
    commit: Option<Stamp>,
    memory: Option<Memory>,
}

impl Model for Session {
    ghost use Rattle.client_txn.specs.Remembering.{SessionParts, cache_of};

    ghost Value = { SessionParts };

    ghost view = { λ s. record { entry = record { state = s.state; start = s.start; epoch = s.epoch; keys = s.keys; commit = s.commit }; cache = cache_of s.memory } };

    ghost use Rattle.system_parts.specs.SessionSteps.{MakesSense};

    ghost invariant = { λ s. MakesSense (record { state = s.state; start = s.start; epoch = s.epoch; keys = s.keys; commit = s.commit }) };
}

impl Session {
    /// A free session, which remembers nothing.
    pub fn new() -> Session
        ensures { result ≡ opened_with 0 }
    {
        Session::with_memory(None)
    }

    /// A free session, which remembers so many decisions; none where the number is 0. NoMemory where memory is refused.
    pub fn with_cache(alloc: Global, cache: u64) -> Result<Session, NoMemory>
        ensures { IfOk result (λ session. session ≡ opened_with cache) }
    {
        Ok(Session::with_memory(Memory::open(alloc, cache)?))
    }

    fn with_memory(memory: Option<Memory>) -> Session
        ensures { result ≡ record { entry = step.session_new; cache = cache_of memory } }
    {
        Session {
            state: State::Free,
            start: None,
            epoch: None,
            keys: KeyList::empty(),
            commit: None,
            memory,
        }
    }

    /// What is kept of the transaction, which is the last to go from now on.
    pub fn known(&mut self, txn: TxnId) -> Option<Known>
        ensures known { result ≡ known_of self.old.cache txn }
        ensures left { self.new ≡ record self.old { cache = used self.old.cache txn } }
    {
        match &mut self.memory {
            Some(memory) => memory.known(txn),
            None => None,
        }
    }

    /// The decision is fresh: it is kept from the next `keep_fresh` on. Without room nothing is.
    pub fn learnt(&mut self, txn: TxnId, known: Known)
        requires { self.old.cache.fresh ≡ None }
        ensures { self.new ≡ record self.old { cache = cache_learnt self.old.cache (Some (txn, known)) } }
    {
        if let Some(memory) = &mut self.memory {
            memory.learnt(txn, known);
        }
    }

    /// A fresh decision goes in front of those that are kept. Where memory is refused, it is still fresh.
    pub fn keep_fresh(&mut self) -> Result<(), NoMemory>
        ensures kept { OnOk result (self.new ≡ record self.old { cache = put_fresh self.old.cache }) }
        ensures refused { OnErr result (self.new ≡ self.old) }
    {
        match &mut self.memory {
            Some(memory) => memory.keep_fresh(),
            None => Ok(()),
        }
    }

    /// What the session is about. The state tells what there is of a transaction.
    pub fn state(&self) -> State
        ensures value { result ≡ self.now.entry.state }
        ensures sense { step.MakesSense self.now.entry }
    {
        self.state
    }

    /// The start of the transaction.
    pub fn start(&self) -> Option<Stamp>
        ensures { result ≡ self.now.entry.start }
    {
        self.start
    }

    /// The epoch that the last begin was answered with.
    pub fn epoch(&self) -> Option<u64>
        ensures { result ≡ self.now.entry.epoch }
    {
        self.epoch
    }

    /// The keys that the transaction has written, in the order of their first write.
    pub fn keys(&self) -> &KeyList
        ensures { result.now ≡ self.now.entry.keys }
    {
        &self.keys
    }

    /// The commit that is to be placed, or that is completed.
    pub fn commit(&self) -> Option<Stamp>
        ensures { result ≡ self.now.entry.commit }
    {
        self.commit
    }

    /// Whether a begin may be asked: refused as gone, or busy.
    pub fn check_begin(&self) -> Result<(), Cause>
        ensures { step.IsAnswer (step.begin_refusal self.now.entry.state) result }
    {
        match self.state {
            State::Gone => Err(Cause::Gone),
            State::Free => Ok(()),
            _ => Err(Cause::Busy),
        }
    }

    /// Whether the transaction may write, fetch, ask for its commit or abort, where `reading` tells whether a read is
    /// under way: refused as gone, without a transaction, or busy.
    pub fn check_work(&self, reading: bool) -> Result<(), Cause>
        ensures { step.IsAnswer (step.work_refusal self.now.entry.state reading) result }
    {
        match self.state {
            State::Gone => Err(Cause::Gone),
            State::Free => Err(Cause::NoTransaction),
            State::Open if !reading => Ok(()),
            _ => Err(Cause::Busy),
        }
    }

    /// Whether there is a step to make, where `reading` tells whether a read is under way: refused as gone, or idle.
    pub fn check_step(&self, reading: bool) -> Result<(), Cause>
        ensures { step.IsAnswer (step.step_refusal self.now.entry.state reading) result }
    {
        match self.state {
            State::Gone => Err(Cause::Gone),
            State::Placing | State::OpenOutcome | State::Completing { .. } => Ok(()),
            _ if reading => Ok(()),
            _ => Err(Cause::Idle),
        }
    }

    /// Whether the session may vanish: refused as gone.
    pub fn check_vanish(&self) -> Result<(), Cause>
        ensures { step.IsAnswer (step.vanish_refusal self.now.entry.state) result }
    {
        match self.state {
            State::Gone => Err(Cause::Gone),
            _ => Ok(()),
        }
    }

    /// Whether the transaction may write the key, where no read is under way: refused as gone, without a transaction,
    /// busy, or with 64 other keys, in this order.
    pub fn check_write(&self, key: KeyNo) -> Result<(), Cause>
        ensures { step.IsAnswer (step.write_refusal self.now.entry key) result }
    {
        self.check_work(false)?;
        check_key(&self.keys, key)
    }

    /// A begin was answered.
    pub fn begun(&mut self, start: Stamp, epoch: u64)
        requires { step.CanBegin self.old.entry }
        ensures { self.new ≡ record self.old { entry = step.session_begun self.old.entry start epoch } }
    {
        self.state = State::Open;
        self.start = Some(start);
        self.epoch = Some(epoch);
        self.keys = KeyList::empty();
        self.commit = None;
    }

    /// Takes the key into the write list, where `check_write` says yes. Refused as it says; the session is then as
    /// before.
    pub fn wrote(&mut self, key: KeyNo) -> Result<(), Cause>
        ensures answer { step.IsAnswer (step.write_refusal self.old.entry key) result }
        ensures left { MatchResult result (λ _. self.new ≡ record self.old { entry = step.session_wrote self.old.entry key }) (λ _. self.new ≡ self.old) }
    {
        self.check_work(false)?;
        add_key(&mut self.keys, key)
    }

    /// A begin was asked of a free session, or the commit of a transaction that has written.
    pub fn asked(&mut self)
        requires { step.CanAsk self.old.entry }
        ensures { self.new ≡ record self.old { entry = step.session_asked self.old.entry } }
    {
        self.state = match self.state {
            State::Free => State::Asking,
            _ => State::Committing,
        };
    }

    /// The transaction has ended without a commit. What it wrote is to be undone; without writes the session is free.
    pub fn aborted(&mut self)
        requires { step.CanAbort self.old.entry }
        ensures { self.new ≡ record self.old { entry = step.session_aborted self.old.entry } }
    {
        if self.keys.as_slice().is_empty() {
            self.free();
        } else {
            self.state = State::Completing { undo: true };
        }
    }

    /// The commit that was asked is drawn, and the session is to place its record.
    pub fn handed(&mut self, commit: Stamp)
        requires { step.CanHand self.old.entry }
        ensures { self.new ≡ record self.old { entry = step.session_handed self.old.entry commit } }
    {
        self.state = State::Placing;
        self.commit = Some(commit);
    }

    /// The transaction has committed, and is to be finished.
    pub fn committed(&mut self, commit: Stamp)
        requires { step.CanCommit self.old.entry }
        ensures { self.new ≡ record self.old { entry = step.session_committed self.old.entry commit } }
    {
        self.state = State::Completing { undo: false };
        self.commit = Some(commit);
    }

    /// It is not known whether the commit was placed.
    pub fn opened(&mut self)
        requires { step.CanOpen self.old.entry }
        ensures { self.new ≡ record self.old { entry = step.session_opened self.old.entry } }
    {
        self.state = State::OpenOutcome;
    }

    /// The begin was refused, the transaction has ended without writes, or its completion has ended.
    pub fn freed(&mut self)
        requires { step.CanFree self.old.entry }
        ensures { self.new ≡ record self.old { entry = step.session_freed self.old.entry } }
    {
        self.free();
    }

    /// The session is gone for good, and what it remembered goes with it.
    pub fn vanished(&mut self)
        requires { step.CanVanish self.old.entry }
        ensures { self.new ≡ record { entry = step.session_vanished self.old.entry; cache = cache_new self.old.cache.room } }
    {
        self.state = State::Gone;
        if let Some(memory) = &mut self.memory {
            memory.forget();
        }
    }

    fn free(&mut self)
        ensures { self.new ≡ record self.old { entry = step.session_freed self.old.entry } }
    {
        self.state = State::Free;
        self.start = None;
        self.keys = KeyList::empty();
        self.commit = None;
    }
}

/// Whether the list has the key, or room for it: refused with 64 other keys.
pub fn check_key(keys: &KeyList, key: KeyNo) -> Result<(), Cause>
    ensures { step.IsAnswer (step.key_refusal keys.now key) result }
{
    let keys = keys.as_slice();
    if keys.contains(&key) || keys.len() < KEY_LIMIT {
        Ok(())
    } else {
        Err(Cause::TooManyKeys)
    }
}

fn add_key(keys: &mut KeyList, key: KeyNo) -> Result<(), Cause>
    ensures answer { step.IsAnswer (step.key_refusal keys.old key) result }
    ensures left { MatchResult result (λ _. keys.new ≡ step.key_added keys.old key) (λ _. keys.new ≡ keys.old) }
{
    match keys.push(key) {
        Ok(()) => Ok(()),
        Err(_) => Err(Cause::TooManyKeys),
    }
}
