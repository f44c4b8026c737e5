// How a client goes on with what it has under way: what it asks next, and what the answer makes of it.
ghost use Rattle.std.specs.Prelude.{◌≡◌, ◌≤◌, ◌++◌, Bool, None, Some, IfSome, OnOk, OnErr};
ghost use Rattle.system_parts.specs.SessionSteps.{IsAnswer, step_refusal, handed_by, handed_commit, CanCommit};
ghost use Rattle.system_parts.specs.declared.session.State.TheVariants.{OpenOutcome};
ghost use Rattle.system_parts.specs.Asks.{FitsNext};
ghost use Rattle.system_parts.specs.Sweep.{IsKeys};
ghost use Rattle.system_parts.specs.Resolve.{Settling, SettleTurn, Decides, settle_by, outcome_of};
ghost use Rattle.system_parts.specs.KeyRead.{ReadTurn, next_of as next_after, next_ask, reading_left};
ghost use Rattle.system_parts.specs.Cache.{cache_learnt};
ghost use Rattle.machine.specs.State as state;
ghost use Rattle.machine.specs.Clients.{is_reading};
ghost use Rattle.machine.specs.Events.Fetch.{read_items};
ghost use Rattle.machine.specs.Events.Step.{next_of, own_resolve, work_by, work_of, client_settled, settle_items};
ghost use Rattle.event_parts.specs.Working.{client_told, told_items, told_over, IsReady, client_ready, client_failed, offered_by, settles, is_nothing};

use crate::Client;
use crate::client::UnderWay;
use crate::ledger::tell_read;
use crate::recalling::recall_all;
use client_txn::Session;
use history_book::{Book, Cause, Ending, Item};
use invalidator::Settle;
use reader_resolve::{Next, ReadRun};
use stamp_base::{KeyNo, NoMemory, SessionNo, Stamp, TxnId};
use system_parts::{Ask, Known, Outcome, State, Told};

impl Client {
    /// Whether there is a step to make: refused as gone, or idle.
    pub fn check_step(&self) -> Result<(), Cause>
        ensures { IsAnswer (step_refusal self.now.entry.state (is_reading self.now)) result }
    {
        self.session.check_step(self.is_reading())
    }

    /// The next step of what is under way, or of the resolve of the own commit, whose outcome is open.
    pub fn next(&self) -> Option<Ask>
        ensures next { result ≡ next_of (work_of self.now) }
        ensures no_listing { IfSome result (λ ask. IsKeys ask → ⊥) }
    {
        match &self.under_way {
            UnderWay::Nothing => self.own_ask(),
            UnderWay::Reads(run) => match run.next() {
                Some(ask) => Some(ask),
                None => self.own_ask(),
            },
            UnderWay::Settles(settle) => Some(settle.next()),
            UnderWay::Completes(completion) => completion.next(),
        }
    }

    /// The start and the commit of the record that the session is to place, which comes before all else.
    pub fn to_place(&self) -> Option<(Stamp, Stamp)>
        ensures { result ≡ handed_commit self.now.entry }
    {
        let state = self.session.state();
        handed_stamps(&state, self.session.start(), self.session.commit())
    }

    /// Before the step of a read, a fresh decision goes with those that are kept. Where memory is refused, all is as before.
    pub fn make_ready(&mut self) -> Result<(), NoMemory>
        ensures client { OnOk result (self.new ≡ client_ready self.old (work_of self.old)) }
        ensures work { OnOk result (work_of self.new ≡ work_of self.old) }
        ensures entry { OnOk result (self.new.entry ≡ self.old.entry) }
        ensures ready { OnOk result (IsReady self.new (work_of self.new)) }
        ensures refused { OnErr result (self.new ≡ self.old) }
    {
        if self.is_reading() {
            self.put_fresh()
        } else {
            Ok(())
        }
    }

    /// Takes the answer to the next step, which is ready. What it decides is told.
    pub fn told(&mut self, book: &mut Book, session: SessionNo, answer: Told)
        requires room { 1 ≤ book.old.room }
        requires answer { FitsNext (next_of (work_of self.old)) answer }
        requires ready { IsReady self.old (work_of self.old) }
        ensures client { self.new ≡ client_told self.old (work_of self.old) answer }
        ensures items { book.new.items ≡ book.old.items ++ told_items session self.old (work_of self.old) answer }
        ensures spare { book.new.spare ≡ book.old.spare }
    {
        self.take_up();
        self.told_at_work(book, session, answer);
    }

    /// The next step has failed. A read ends without an answer, a resolve starts over, and a completion frees its session.
    pub fn failed(&mut self)
        ensures { self.new ≡ client_failed self.old (work_of self.old) }
    {
        match &self.under_way {
            UnderWay::Completes(_) => self.freed(),
            _ => self.under_way = UnderWay::Nothing,
        }
    }

    /// The first step of the resolve of its own commit.
    fn own_ask(&self) -> Option<Ask>
        ensures next { result ≡ next_of (work_by self.now.entry.state self.now.entry state.Nothing) }
        ensures no_listing { IfSome result (λ ask. IsKeys ask → ⊥) }
    {
        match self.own_settle() {
            Some(settle) => Some(settle.next()),
            None => None,
        }
    }

    /// The resolve of its own commit, where the outcome is open, by the first key that it wrote.
    fn own_settle(&self) -> Option<Settle>
        ensures settling { settles result ≡ work_by self.now.entry.state self.now.entry state.Nothing }
        ensures open { IfSome result (λ _. self.now.entry.state ≡ OpenOutcome) }
    {
        match (self.session.state(), self.session.start()) {
            (State::OpenOutcome, Some(start)) => own_settle(start, self.session.keys().as_slice()),
            _ => None,
        }
    }

    /// Where nothing is under way and the outcome is open, the resolve of its own commit is.
    fn take_up(&mut self)
        ensures { self.new ≡ record self.old { under_way = work_of self.old } }
    {
        if self.has_nothing() {
            self.under_way = match self.own_settle() {
                Some(settle) => UnderWay::Settles(settle),
                None => UnderWay::Nothing,
            };
        }
    }

    /// Whether nothing is under way. A read that has its answer is not.
    fn has_nothing(&self) -> bool
        ensures { result ≡ is_nothing self.now.under_way }
    {
        match &self.under_way {
            UnderWay::Nothing => true,
            UnderWay::Reads(run) => run.next().is_none(),
            UnderWay::Settles(_) | UnderWay::Completes(_) => false,
        }
    }

    fn told_at_work(&mut self, book: &mut Book, session: SessionNo, answer: Told)
        requires room { 1 ≤ book.old.room }
        requires answer { FitsNext (next_of self.old.under_way) answer }
        requires ready { IsReady self.old self.old.under_way }
        ensures client { self.new ≡ client_told self.old self.old.under_way answer }
        ensures items { book.new.items ≡ book.old.items ++ told_items session self.old self.old.under_way answer }
        ensures spare { book.new.spare ≡ book.old.spare }
    {
        match &mut self.under_way {
            UnderWay::Nothing => {}
            UnderWay::Reads(run) => read_on(
                book,
                &mut self.session,
                run,
                &mut self.heal,
                session,
                answer,
            ),
            UnderWay::Settles(settle) => {
                let outcome = settle.told(answer);
                self.settled(book, session, &outcome);
            }
            UnderWay::Completes(completion) => {
                completion.done();
                if completion.next().is_none() {
                    self.freed();
                }
            }
        }
    }

    /// The resolve of its own commit goes on, or has decided, which is told.
    fn settled(&mut self, book: &mut Book, session: SessionNo, outcome: &Option<Outcome>)
        requires room { 1 ≤ book.old.room }
        requires work { CanCommit self.old.entry }
        ensures client { (x : Settling) (turn : SettleTurn) → self.old.under_way ≡ state.Settles (settle_by x turn) →
            outcome.now ≡ outcome_of turn → self.new ≡ client_settled self.old x turn }
        ensures items { (turn : SettleTurn) → outcome.now ≡ outcome_of turn →
            book.new.items ≡ book.old.items ++ settle_items session self.old.entry.start turn }
        ensures spare { book.new.spare ≡ book.old.spare }
    {
        let start = self.session.start();
        match outcome {
            None => {}
            Some(Outcome::Committed { commit, .. }) => {
                self.committed(*commit);
                tell_committed(book, session, start, *commit);
            }
            Some(Outcome::Dead) => {
                self.aborted();
                tell_dead(book, session, start);
            }
        }
    }
}

/// The stamps of a transaction that is to be placed.
fn handed_stamps(
    state: &State,
    start: Option<Stamp>,
    commit: Option<Stamp>,
) -> Option<(Stamp, Stamp)>
    ensures { result ≡ handed_by state.now start commit }
{
    match (state, start, commit) {
        (State::Placing, Some(start), Some(commit)) => Some((start, commit)),
        _ => None,
    }
}

/// The read goes on, over what its session keeps, or has its answer, which is told, and with it the shadow that may be set.
/// What the step decided for good is fresh then.
fn read_on(
    book: &mut Book,
    memory: &mut Session,
    run: &mut ReadRun,
    heal: &mut Option<(KeyNo, TxnId, Stamp)>,
    session: SessionNo,
    answer: Told,
)
    requires room { 1 ≤ book.old.room }
    requires answer { FitsNext (next_ask run.old.reading) answer }
    requires ready { memory.old.cache.fresh ≡ None }
    ensures memory { IfSome run.old.reading (λ r. memory.new ≡ record memory.old { cache = (told_over memory.old.cache r answer).1 }) }
    ensures run { IfSome run.old.reading (λ r. run.new.reading ≡ reading_left (told_over memory.old.cache r answer).0) }
    ensures heal { IfSome run.old.reading (λ r. heal.new ≡ offered_by (told_over memory.old.cache r answer).0) }
    ensures items { IfSome run.old.reading (λ r. book.new.items ≡ book.old.items ++ read_items session r.start r.key (told_over memory.old.cache r answer).0) }
    ensures spare { book.new.spare ≡ book.old.spare }
{
    let key = run.key();
    let start = run.reader();
    let next = recalls_on(memory, run, answer);
    tell_read(book, session, start, key, &next);
    *heal = offered(&next);
}

/// The step of a read: what it decides for good is learnt, and the cells that it comes to are recalled.
fn recalls_on(memory: &mut Session, run: &mut ReadRun, answer: Told) -> Next
    requires answer { FitsNext (next_ask run.old.reading) answer }
    requires ready { memory.old.cache.fresh ≡ None }
    ensures memory { IfSome run.old.reading (λ r. memory.new ≡ record memory.old { cache = (told_over memory.old.cache r answer).1 }) }
    ensures run { IfSome run.old.reading (λ r. run.new.reading ≡ reading_left (told_over memory.old.cache r answer).0) }
    ensures next { IfSome run.old.reading (λ r. result ≡ next_after (told_over memory.old.cache r answer).0) }
{
    let next = run.step(answer);
    learn(memory, run.learnt());
    recall_all(memory, run, next)
}

/// What a step decided for good is fresh.
fn learn(memory: &mut Session, learnt: Option<(TxnId, Known)>)
    requires { memory.old.cache.fresh ≡ None }
    ensures { memory.new ≡ record memory.old { cache = cache_learnt memory.old.cache learnt } }
{
    if let Some((txn, known)) = learnt {
        memory.learnt(txn, known);
    }
}

/// The shadow that a read offers: none until it has its answer.
fn offered(next: &Next) -> Option<(KeyNo, TxnId, Stamp)>
    ensures { (turn : ReadTurn) → next.now ≡ next_after turn → result ≡ offered_by turn }
{
    match next {
        Next::Recall(_) | Next::Ask(_) => None,
        Next::Done(answer) => answer.heal,
    }
}

/// The resolve of the commit of a transaction that wrote these keys.
fn own_settle(start: Stamp, keys: &[KeyNo]) -> Option<Settle>
    ensures { settles result ≡ own_resolve (Some start) keys.now }
{
    if keys.is_empty() {
        None
    } else {
        Some(Settle::open(keys[0], start, true, true))
    }
}

fn tell_committed(book: &mut Book, session: SessionNo, start: Option<Stamp>, commit: Stamp)
    requires { 1 ≤ book.old.room }
    ensures items { (by_table : Bool) → book.new.items ≡ book.old.items ++ settle_items session start (Decides (Outcome.Committed commit by_table)) }
    ensures spare { book.new.spare ≡ book.old.spare }
{
    if let Some(start) = start {
        book.append_in_room(Item::Committed {
            session,
            start,
            commit,
        });
    }
}

fn tell_dead(book: &mut Book, session: SessionNo, start: Option<Stamp>)
    requires { 1 ≤ book.old.room }
    ensures items { book.new.items ≡ book.old.items ++ settle_items session start (Decides Outcome.Dead) }
    ensures spare { book.new.spare ≡ book.old.spare }
{
    if let Some(start) = start {
        book.append_in_room(Item::End {
            session,
            start,
            how: Ending::Dead,
        });
    }
}
