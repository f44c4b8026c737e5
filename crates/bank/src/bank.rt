// The bank: what a program does to begin, read, write and commit at a cluster.
ghost use Rattle.std.specs.Prelude.{◌≤◌, ◌+◌, ◌^◌, IfOk};

use crate::failure::Failure;
use cluster_core::{Cluster, Stopped};
use history_book::Item;
use history_text::LineBuf;
use machine::Doing;
use port_io::CalmWeather;
use stamp_base::{KeyNo, NodeNo, SessionNo, Setup, Value};
use std::alloc::Global;

/// The greatest reading that a cluster takes.
const LAST_READING: u64 = 2_305_843_009_213_693_952;

/// A cluster, under a weather in which no call fails, and the clock that all its nodes read.
#[derive(Drop)]
pub struct Bank {
    cluster: Cluster,
    weather: CalmWeather,
    clock: u64,
}

impl Bank {
    pub fn open(alloc: Global) -> Result<Bank, Failure> {
        Ok(Bank {
            cluster: Cluster::open(alloc, Setup::default())?,
            weather: CalmWeather::new(),
            clock: 0,
        })
    }

    /// The clock stands at this number from now on.
    pub fn wait_until(&mut self, to: u64) -> Result<(), Failure> {
        told(self.cluster.tick(to))?;
        self.clock = to;
        Ok(())
    }

    /// The node becomes the one that serves.
    pub fn take(&mut self, node: NodeNo) -> Result<(), Failure> {
        let reading = self.reading()?;
        told(self.cluster.take(&mut self.weather, node, reading))
    }

    /// Opens a transaction of the session.
    pub fn begin(&mut self, session: SessionNo, node: NodeNo) -> Result<(), Failure> {
        told(self.cluster.ask_begin(session, node))?;
        self.accept(session, node)?;
        told(self.cluster.decide(node, session))?;
        told(self.cluster.answer(node, session))
    }

    /// Asks for the commit of the session's transaction and draws its stamp. It is not placed yet.
    pub fn submit(&mut self, session: SessionNo, node: NodeNo) -> Result<(), Failure> {
        told(self.cluster.ask_commit(session, node))?;
        if self.cluster.doing(session) == Doing::Free {
            return Ok(());
        }
        self.accept(session, node)?;
        told(self.cluster.decide(node, session))
    }

    /// Places a commit that was submitted, tells the session, and lets it complete. Whether it is committed.
    pub fn collect(&mut self, session: SessionNo, node: NodeNo) -> Result<bool, Failure> {
        if self.cluster.doing(session) == Doing::Free {
            return Ok(true);
        }
        told(self.cluster.put(&mut self.weather, node, session))?;
        let committed = match told(self.cluster.answer(node, session)) {
            Ok(()) => true,
            Err(Failure::Refused) => false,
            Err(failure) => return Err(failure),
        };
        self.finish(session)?;
        Ok(committed)
    }

    /// The node accepts the session's request, by the clock.
    fn accept(&mut self, session: SessionNo, node: NodeNo) -> Result<(), Failure> {
        let reading = self.reading()?;
        told(self.cluster.accept(node, session, reading))
    }

    /// The clock's reading. The cluster asks for steady readings, and nothing else: behind none before it, but for the skew, which
    /// is not asked for here, since all nodes read one clock, and far from the end of the numbers.
    fn reading(&self) -> Result<u64, Failure>
        ensures far { IfOk result (λ reading. reading ≤ 2 ^ 61) }
        ensures steady { IfOk result (λ reading. self.now.cluster.state.seen ≤ reading + self.now.cluster.state.setup.skew) }
    {
        let reading = self.clock;
        if reading < self.cluster.seen() || reading > LAST_READING {
            return Err(Failure::Unsteady);
        }
        Ok(reading)
    }

    /// Lets the session make the steps that are left of its transaction: shadows, or the cells that it takes back.
    fn finish(&mut self, session: SessionNo) -> Result<(), Failure> {
        for _ in 0..1_000 {
            if self.cluster.doing(session) != Doing::Completing {
                break;
            }
            told(self.cluster.step(&mut self.weather, session))?;
        }
        Ok(())
    }

    /// The balance of an account, as the session's transaction sees it.
    pub fn balance(&mut self, session: SessionNo, account: KeyNo) -> Result<u64, Failure> {
        told(self.cluster.fetch(&mut self.weather, session, account))?;
        for _ in 0..1_000 {
            if self.cluster.doing(session) != Doing::Reading {
                break;
            }
            told(self.cluster.step(&mut self.weather, session))?;
        }
        match self.cluster.history().last() {
            Some(
                Item::Read {
                    answer: Some(found),
                    ..
                },
            ) => number_in(found.value),
            _ => Err(Failure::Balance),
        }
    }

    /// Sets an account's balance in the session's transaction.
    pub fn set(&mut self, session: SessionNo, account: KeyNo, to: u64) -> Result<(), Failure> {
        let mut digits = LineBuf::new();
        digits.push_number(to);
        match Value::new(digits.as_slice()) {
            Some(value) => told(
                self.cluster
                    .write(&mut self.weather, session, account, value),
            ),
            None => Err(Failure::Balance),
        }
    }

    /// Moves an amount between two accounts, in the session's open transaction.
    pub fn transfer(
        &mut self,
        session: SessionNo,
        from: KeyNo,
        to: KeyNo,
        amount: u64,
    ) -> Result<(), Failure> {
        let had = self.balance(session, from)?;
        let has = self.balance(session, to)?;
        match (had.checked_sub(amount), has.checked_add(amount)) {
            (Some(less), Some(more)) => {
                self.set(session, from, less)?;
                self.set(session, to, more)
            }
            _ => Err(Failure::Balance),
        }
    }

    /// How many items the history has. By the type it is isolated, and each of its refusals is explained.
    pub fn items(&self) -> usize {
        self.cluster.history().len()
    }
}

/// What the bank makes of how an event ended.
fn told(made: Result<(), Stopped>) -> Result<(), Failure> {
    match made {
        Ok(()) => Ok(()),
        Err(Stopped::Refused(_)) => Err(Failure::Refused),
        Err(Stopped::StoreFault(_)) => Err(Failure::Fault),
        Err(Stopped::NoMemory) => Err(Failure::NoMemory),
    }
}

fn number_in(value: Value) -> Result<u64, Failure> {
    match str::from_utf8(value.as_slice()) {
        Ok(text) => match text.parse::<u64>() {
            Ok(number) => Ok(number),
            Err(_) => Err(Failure::Balance),
        },
        Err(_) => Err(Failure::Balance),
    }
}
