ghost use Rattle.std.specs.Prelude.{◌≡◌, ◌≤◌, ◌^◌, ℕ, List, IfOk, IfSome, Ok, None, Some, is_ok, length};
ghost use Rattle.stamp_base.specs.Ranges.{IsStampRange};
ghost use Rattle.system_parts.specs.Instance as entry;
ghost use Rattle.system_parts.specs.InstanceSteps as step;

use crate::requests;
use conflict_buckets::Buckets;
use epoch_clock::Range;
use history_book::Cause;
use lease_keeper::Lease;
use stamp_base::{NoMemory, NodeNo, SessionNo, Setup, Stamp, Term};
use std::alloc::Global;
use std::marker::Model;
use system_parts::{Decided, Grant, Held, Place, Progress, Reply, Request, Settled, Verdict};

/// One oracle, made by one grant of the master record. A request goes from place to place by `ask`, `accept`, `decide`, for a
/// commit that it places itself `settle`, and `answer`. Readings and ends of leases are in ticks of the base clock.
#[derive(Drop)]
pub struct Instance {
    node: NodeNo,
    term: Term,
    epoch: u64,
    range: Range,
    lease: Lease,
    buckets: Buckets,
    // The first refusal of the master record that ends requests.
    stop: Option<Cause>,
    slots: u64,
    // Commits are handed to their sessions, which place them.
    direct: bool,
    // One for each session, by its number.
    requests: Vec<Option<Held>>,
}

impl Model for Instance {
    ghost use Rattle.std.specs.Prelude.{◌≡◌, vec_len};
    ghost use Rattle.system_parts.specs.Instance.{InstanceEntry};

    ghost Value = { InstanceEntry };

    ghost view = { λ i. record { node = i.node; term = i.term; epoch = i.epoch; last = i.range.last; ceiling = i.range.ceiling; until = i.lease; buckets = i.buckets; stop = i.stop; slots = i.slots; direct = i.direct; requests = i.requests.items } };

    ghost invariant = { λ i. vec_len i.requests ≡ 16 };
}

impl Instance {
    /// An instance that holds no request. All its memory is taken here. NoMemory where memory is refused.
    pub fn open(
        alloc: Global,
        grant: Grant,
        node: NodeNo,
        setup: &Setup,
    ) -> Result<Instance, NoMemory>
        requires { IsStampRange grant.epoch grant.ceiling }
        ensures { IfOk result (λ opened. opened ≡ entry.instance_new grant node setup.now.buckets setup.now.width setup.now.slots setup.now.direct) }
    {
        Ok(Instance {
            node,
            term: grant.term,
            epoch: grant.epoch,
            range: Range::new(grant.epoch, grant.ceiling),
            lease: Lease::new(grant.until),
            buckets: Buckets::open(alloc, setup.buckets, setup.width)?,
            stop: None,
            slots: setup.slots,
            direct: setup.direct,
            requests: Vec::from_array(alloc, [None; SessionNo::COUNT])?,
        })
    }

    /// The term of the grant.
    pub fn term(&self) -> Term
        ensures { result ≡ self.now.term }
    {
        self.term
    }

    /// The greatest stamp that earlier terms may draw.
    pub fn epoch(&self) -> u64
        ensures { result ≡ self.now.epoch }
    {
        self.epoch
    }

    /// Whether commits are handed to their sessions, which place them.
    pub fn direct(&self) -> bool
        ensures { result ≡ self.now.direct }
    {
        self.direct
    }

    /// The stamp that was drawn last, or the epoch before the first.
    pub fn last(&self) -> u64
        ensures value { result ≡ self.now.last }
        ensures within { self.now.last ≤ self.now.ceiling }
    {
        self.range.last()
    }

    /// The greatest stamp that can be drawn.
    pub fn range_end(&self) -> u64
        ensures value { result ≡ self.now.ceiling }
        ensures range { self.now.ceiling ≤ 2 ^ 62 }
    {
        self.range.ceiling()
    }

    /// The bounded memory of conflicts, as decisions left it.
    pub fn buckets(&self) -> &Buckets
        ensures { result.now ≡ self.now.buckets }
    {
        &self.buckets
    }

    /// How many requests are held.
    pub fn in_flight(&self) -> u64
        ensures { result ≡ entry.in_flight self.now }
    {
        self.requests.iter().filter(|held| held.is_some()).count() as u64
    }

    /// The request of each session, by its number, with how far it has come and what its session was told.
    pub fn requests(&self) -> &[Option<Held>]
        ensures value { result.now ≡ self.now.requests }
        ensures sessions { length self.now.requests ≡ 16 }
    {
        self.requests.as_slice()
    }

    /// The request of a session, as `requests` has it.
    pub fn held(&self, session: SessionNo) -> Option<Held>
        ensures { result ≡ entry.held_of self.now session }
    {
        self.requests[session.index()]
    }

    /// The request of a session, and where it stands. None exactly where the session has none.
    pub fn request_of(&self, session: SessionNo) -> Option<(Request, Place)>
        ensures { result ≡ entry.request_at self.now session }
    {
        requests::request_of(&self.requests[session.index()])
    }

    /// Where the request of a session stands. None exactly where the session has none.
    pub fn place(&self, session: SessionNo) -> Option<Place>
        ensures { result ≡ entry.place_at self.now session }
    {
        requests::place_of(&self.requests[session.index()])
    }

    /// The start of a session's request and, of a commit, the commit. None exactly where nothing was drawn for it.
    pub fn drawn(&self, session: SessionNo) -> Option<(Stamp, Option<Stamp>)>
        ensures { result ≡ entry.stamps_at self.now session }
    {
        requests::stamps_of(&self.requests[session.index()])
    }

    /// Whether the session has a request that was refused as NotYet before.
    pub fn told_not_yet(&self, session: SessionNo) -> bool
        ensures { result ≡ entry.was_told_not_yet self.now session }
    {
        requests::told_not_yet(&self.requests[session.index()])
    }

    /// Takes a slot for the request. Refused as Full exactly where all slots are taken.
    pub fn ask(&mut self, request: Request) -> Result<(), Cause>
        requires { step.CanAskOf self.old request }
        ensures left { self.new ≡ (step.instance_ask self.old request).left }
        ensures answer { result ≡ (step.instance_ask self.old request).answer }
    {
        // No more requests are held than there are sessions.
        let may_be_full = self.slots <= SessionNo::COUNT as u64;
        if may_be_full && self.in_flight() == self.slots {
            return Err(Cause::Full {
                in_flight: self.slots,
            });
        }
        self.put(
            requests::session_of(&request),
            requests::just_asked(request),
        );
        Ok(())
    }

    /// Whether `accept` of this session at this reading would accept, and not refuse.
    pub fn may_accept(&self, session: SessionNo, reading: u64) -> bool
        ensures { result ≡ is_ok (step.instance_accept self.now session reading).answer }
    {
        match &self.requests[session.index()] {
            Some(
                Held {
                    request,
                    progress: Progress::Asked,
                    ..
                },
            ) => self.accept_refusal(request, reading).is_none(),
            _ => false,
        }
    }

    /// Accepts a request that was asked. Refused as NoRequest unless one was, as Expired exactly where the reading is
    /// at or past the end of the lease, then as OldEpoch exactly where a commit's start is at most the epoch. The last
    /// two end the request.
    pub fn accept(&mut self, session: SessionNo, reading: u64) -> Result<(), Cause>
        ensures left { self.new ≡ (step.instance_accept self.old session reading).left }
        ensures answer { result ≡ (step.instance_accept self.old session reading).answer }
    {
        let refusal = match &self.requests[session.index()] {
            Some(
                Held {
                    request,
                    progress: Progress::Asked,
                    ..
                },
            ) => self.accept_refusal(request, reading),
            _ => return Err(Cause::NoRequest { session }),
        };
        match refusal {
            None => {
                self.advance(session, Progress::Accepted);
                Ok(())
            }
            Some(cause) => {
                self.end(session);
                Err(cause)
            }
        }
    }

    /// Draws the stamp of a request that was accepted; a commit records its keys, and is to be handed over where commits are
    /// direct. Refused as NoRequest unless one was,
    /// as Conflict or Hidden exactly by the buckets' verdict on a commit, which ends it. Where the range is used up,
    /// the refusal of the master record that is kept ends the request, and without one it stays and is refused as
    /// NoStamp.
    pub fn decide(&mut self, session: SessionNo) -> Result<Decided, Cause>
        ensures left { self.new ≡ (step.instance_decide self.old session).left }
        ensures answer { result ≡ (step.instance_decide self.old session).answer }
    {
        let verdict = match &self.requests[session.index()] {
            Some(
                Held {
                    request,
                    progress: Progress::Accepted,
                    ..
                },
            ) => self.verdict(request),
            _ => return Err(Cause::NoRequest { session }),
        };
        match verdict {
            Verdict::Free => self.decide_free(session),
            Verdict::Conflict { key, by } => {
                self.end(session);
                Err(Cause::Conflict { key, by })
            }
            Verdict::Hidden { key, water } => {
                self.end(session);
                Err(Cause::Hidden { key, water })
            }
        }
    }

    /// Ends a commit that was accepted, before its stamp, for a reason that its caller has. Refused as NoRequest exactly
    /// where the session has none.
    pub fn refuse(&mut self, session: SessionNo) -> Result<(), Cause>
        ensures left { self.new ≡ (step.instance_refuse self.old session).left }
        ensures answer { result ≡ (step.instance_refuse self.old session).answer }
    {
        match &self.requests[session.index()] {
            Some(
                Held {
                    request: Request::Commit { .. },
                    progress: Progress::Accepted,
                    ..
                },
            ) => {
                self.end(session);
                Ok(())
            }
            _ => Err(Cause::NoRequest { session }),
        }
    }

    /// Keeps how the placing of a drawn commit ended. Refused as NoRequest unless the session has one.
    pub fn settle(&mut self, session: SessionNo, how: Settled) -> Result<(), Cause>
        ensures left { self.new ≡ (step.instance_settle self.old session how).left }
        ensures answer { result ≡ (step.instance_settle self.old session how).answer }
    {
        match requests::unsettled_of(&self.requests[session.index()]) {
            Some(commit) => {
                self.advance(session, Progress::Settled { commit, how });
                Ok(())
            }
            None => Err(Cause::NoRequest { session }),
        }
    }

    /// Answers a begin that was drawn or a commit that was settled, or hands a direct commit over, which ends it. Refused as
    /// NoRequest unless the session has one, and as NotYet exactly where a commit below the begin's start was drawn, is not
    /// direct and is not settled: the least is named, and the request stays.
    pub fn answer(&mut self, session: SessionNo) -> Result<Reply, Cause>
        ensures left { self.new ≡ (step.instance_answer self.old session).left }
        ensures answer { result ≡ (step.instance_answer self.old session).answer }
    {
        match &self.requests[session.index()] {
            Some(
                Held {
                    request: Request::Begin { .. },
                    progress: Progress::Drawn { stamp },
                    ..
                },
            ) => {
                let start = *stamp;
                self.answer_begin(session, start)
            }
            Some(
                Held {
                    request: Request::Commit { .. },
                    progress: Progress::Settled { commit, how },
                    ..
                },
            ) => {
                let reply = reply_of(*commit, *how);
                self.end(session);
                Ok(reply)
            }
            Some(
                Held {
                    request: Request::Commit { .. },
                    progress: Progress::Handed { commit },
                    ..
                },
            ) => {
                let reply = Reply::Handed { commit: *commit };
                self.end(session);
                Ok(reply)
            }
            _ => Err(Cause::NoRequest { session }),
        }
    }

    /// The range goes up to a new ceiling.
    pub fn widened(&mut self, ceiling: u64)
        requires { IsStampRange self.old.ceiling ceiling }
        ensures { self.new ≡ step.instance_widened self.old ceiling }
    {
        self.range.widen(ceiling);
    }

    /// The lease was renewed; its end never comes down.
    pub fn renewed(&mut self, until: u64)
        ensures { self.new ≡ step.instance_renewed self.old until }
    {
        self.lease.renewed(until);
    }

    /// The master record refused an extension, or a renewal as replaced. The first such refusal is kept.
    pub fn stopped(&mut self, cause: Cause)
        requires { step.IsStop cause }
        ensures { self.new ≡ step.instance_stopped self.old cause }
    {
        if self.stop.is_none() {
            self.stop = Some(cause);
        }
    }

    /// Why a request that was asked is not accepted.
    fn accept_refusal(&self, request: &Request, reading: u64) -> Option<Cause>
        ensures { result ≡ step.accept_refusal self.now reading request.now }
    {
        if let Err(expired) = self.lease.check(reading) {
            return Some(Cause::Expired {
                reading: expired.reading,
                until: expired.until,
            });
        }
        match request {
            Request::Commit { start, .. } if start.value() <= self.epoch => Some(Cause::OldEpoch {
                start: *start,
                epoch: self.epoch,
            }),
            _ => None,
        }
    }

    fn verdict(&self, request: &Request) -> Verdict
        ensures { result ≡ step.request_verdict self.now.buckets request.now }
    {
        match request {
            Request::Begin { .. } => Verdict::Free,
            Request::Commit { start, keys, .. } => self.buckets.check(*start, keys),
        }
    }

    fn decide_free(&mut self, session: SessionNo) -> Result<Decided, Cause>
        ensures left { IfSome (entry.held_of self.old session) (λ held. self.new ≡ (step.decide_free self.old session held).left) }
        ensures answer { IfSome (entry.held_of self.old session) (λ held. result ≡ (step.decide_free self.old session held).answer) }
    {
        match self.range.draw() {
            Some(stamp) => Ok(self.decide_drawn(session, stamp)),
            None => self.out_of_stamps(session),
        }
    }

    fn out_of_stamps(&mut self, session: SessionNo) -> Result<Decided, Cause>
        ensures left { IfSome (entry.held_of self.old session) (λ held. self.new ≡ (step.out_of_stamps self.old session held self.old.stop).left) }
        ensures answer { IfSome (entry.held_of self.old session) (λ held. result ≡ (step.out_of_stamps self.old session held self.old.stop).answer) }
    {
        match self.stop {
            None => {
                if let Some(held) = &mut self.requests[session.index()] {
                    held.told_no_stamp = true;
                }
                Err(Cause::NoStamp { last: self.last() })
            }
            Some(cause) => {
                self.end(session);
                Err(cause)
            }
        }
    }

    /// The stamp was drawn for the request. The keys of a commit are recorded with it.
    #[tactic(auto, unfolding(system_parts::specs::Buckets::record_pairs))]
    fn decide_drawn(&mut self, session: SessionNo, stamp: Stamp) -> Decided
        requires { self.old.last ≡ stamp }
        ensures left { IfSome (entry.held_of self.old session) (λ held. self.new ≡ (step.decide_drawn self.old session held stamp).left) }
        ensures answer { IfSome (entry.held_of self.old session) (λ held. Ok result ≡ (step.decide_drawn self.old session held stamp).answer) }
    {
        let (decided, progress) = match &self.requests[session.index()] {
            Some(
                Held {
                    request: Request::Commit { keys, .. },
                    ..
                },
            ) => {
                self.buckets.keep(keys, stamp);
                (Decided::Drawn(stamp), drawn_commit(self.direct, stamp))
            }
            _ => (Decided::Started(stamp), Progress::Drawn { stamp }),
        };
        self.advance(session, progress);
        decided
    }

    fn answer_begin(&mut self, session: SessionNo, start: Stamp) -> Result<Reply, Cause>
        ensures left { IfSome (entry.held_of self.old session) (λ held. self.new ≡ (step.answer_begin self.old session held start (entry.least_unsettled self.old.requests start)).left) }
        ensures answer { IfSome (entry.held_of self.old session) (λ held. result ≡ (step.answer_begin self.old session held start (entry.least_unsettled self.old.requests start)).answer) }
    {
        match requests::least_unsettled(&self.requests, start) {
            None => {
                self.end(session);
                Ok(Reply::Begun {
                    start,
                    epoch: self.epoch,
                })
            }
            Some(commit) => {
                if let Some(held) = &mut self.requests[session.index()] {
                    held.told_not_yet = true;
                }
                Err(Cause::NotYet { commit })
            }
        }
    }

    /// The request that is held has come this far.
    fn advance(&mut self, session: SessionNo, progress: Progress)
        ensures { IfSome (entry.held_of self.old session) (λ held. self.new ≡ step.moved self.old session held progress) }
    {
        if let Some(held) = &mut self.requests[session.index()] {
            held.progress = progress;
        }
    }

    /// The session has this request from now on.
    fn put(&mut self, session: SessionNo, held: Held)
        ensures { self.new ≡ entry.with_request self.old session (Some held) }
    {
        self.requests[session.index()] = Some(held);
    }

    /// The request of the session is over, and its slot is free.
    fn end(&mut self, session: SessionNo)
        ensures { self.new ≡ step.without_request self.old session }
    {
        self.requests[session.index()] = None;
    }
}

/// How far a commit has come with its stamp.
fn drawn_commit(direct: bool, stamp: Stamp) -> Progress
    ensures { (session start : ℕ) (keys : List ℕ) → result ≡ step.drawn_as direct (Request.Commit session start keys) stamp }
{
    if direct {
        Progress::Handed { commit: stamp }
    } else {
        Progress::Drawn { stamp }
    }
}

fn reply_of(commit: Stamp, how: Settled) -> Reply
    ensures { result ≡ step.reply_of commit how }
{
    match how {
        Settled::Placed => Reply::Committed { commit },
        Settled::Invalid => Reply::Invalid,
        Settled::Faulted => Reply::Open,
    }
}
