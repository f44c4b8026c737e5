ghost use Rattle.std.specs.Prelude.{◌≡◌, ◌<◌, ◌≤◌, true, IfOk, IfErr, IfNone, MatchResult, MatchOption};
ghost use Rattle.queue_passes.specs.Holds.{holds};
ghost use Rattle.batch_rule.specs.Accounts.{first_account, worker_account, parted, with_put, with_taken, joined};
ghost use Rattle.batch_rule.specs.Numbers.{next_after};
ghost use Rattle.batch_rule.specs.Rule.{Tells, HasLeft};

use crate::rule::{PartOff, Put, Ruled, RuledPass, Taken, Together, Told};
use persist_batches::Numbered;
use stamp_base::NoMemory;
use std::alloc::Global;
use std::marker::Model;
use std::sync::Wait;

/// A bounded queue of numbered batches, with one sender and any number of workers.
#[derive(Drop)]
pub struct BatchRing {
    ruled: Ruled,
}

impl Model for BatchRing {
    ghost use Rattle.crossbeam_queue.specs.Passes.{ruled_capacity};
    ghost use Rattle.queue_passes.specs.Holds.{Ring};

    ghost Value = { Ring };

    ghost view = { λ r. record { id = r.ruled.table.shared.table_id; room = ruled_capacity r.ruled } };
}

/// The right of one thread to use a batch ring, with its account.
#[derive(Drop)]
pub struct BatchPass {
    pass: RuledPass,
}

impl Model for BatchPass {
    ghost use Rattle.std.specs.Prelude.{◌≡◌, ◌<◌, []};
    ghost use Rattle.crossbeam_queue.specs.Passes.{view as account_of};
    ghost use Rattle.queue_passes.specs.Holds.{Holds, holds};
    ghost use Rattle.batch_rule.specs.declared.account.BatchAccount.{BatchAccount};

    ghost Value = { Holds BatchAccount };

    ghost view = { λ p. holds p.pass.table_id (account_of p.pass) };

    ghost invariant = { λ p. (p.pass.me.1 ≡ []) × (0 < (account_of p.pass).parts) };
}

impl BatchRing {
    /// A ring for `room` batches, and the sender's pass, which has every part. NoMemory where memory is refused.
    pub fn open(alloc: Global, room: usize) -> Result<(BatchRing, BatchPass), NoMemory>
        requires { 0 < room }
        ensures { IfOk result (λ opened. (opened.0.room ≡ room) × (opened.1 ≡ holds opened.0.id first_account)) }
    {
        let (ruled, pass) = Ruled::ruled(alloc, room)?;
        Ok((BatchRing { ruled }, BatchPass { pass }))
    }

    /// A worker's pass, which gets one part.
    pub fn worker(&self, pass: &mut BatchPass) -> BatchPass
        requires ring { pass.old.ring ≡ self.now.id }
        requires parts { 1 < pass.old.account.parts }
        ensures old { pass.new ≡ holds self.now.id (parted pass.old.account) }
        ensures new { result ≡ holds self.now.id worker_account }
    {
        BatchPass {
            pass: self.ruled.another::<PartOff>(&mut pass.pass),
        }
    }

    /// Puts a batch at the back, whose number is above all before it. Err only where the ring was full at that step.
    pub fn send<R: Wait>(
        &self,
        rt: &R,
        pass: &mut BatchPass,
        batch: Numbered,
    ) -> Result<(), Numbered>
        requires ring { pass.old.ring ≡ self.now.id }
        requires sender { pass.old.account.sends ≡ true }
        requires above { next_after 0 pass.old.account.put ≤ batch.number }
        ensures put { MatchResult result (λ _. pass.new ≡ holds self.now.id (with_put pass.old.account batch)) (λ back. (back ≡ batch) × (pass.new ≡ pass.old)) }
        ensures full { IfErr result (λ _. HasLeft self.now.room pass.old.account) }
    {
        self.ruled.push_as::<Put, R>(rt, &mut pass.pass, batch)
    }

    /// Takes the batch at the front. None only where the ring was empty at that step.
    pub fn receive<R: Wait>(&self, rt: &R, pass: &mut BatchPass) -> Option<Numbered>
        requires { pass.old.ring ≡ self.now.id }
        ensures taken { MatchOption result (pass.new ≡ pass.old) (λ batch. pass.new ≡ holds self.now.id (with_taken pass.old.account batch)) }
        ensures empty { IfNone result (HasLeft 0 pass.old.account) }
    {
        self.ruled.pop_as::<Taken, R>(rt, &mut pass.pass)
    }

    /// Joins two passes to one, whose account has what both put and took.
    pub fn join(&self, pass: BatchPass, other: BatchPass) -> BatchPass
        requires { (pass.ring ≡ self.now.id) × (other.ring ≡ self.now.id) }
        ensures { result ≡ holds self.now.id (joined pass.account other.account) }
    {
        let BatchPass { pass: mut mine } = pass;
        let BatchPass { pass: theirs } = other;
        self.ruled.absorb::<Together>(&mut mine, theirs);
        BatchPass { pass: mine }
    }

    /// What the account tells of the ring. The pass stays as it is.
    pub fn tell(&self, pass: &mut BatchPass)
        requires { pass.old.ring ≡ self.now.id }
        ensures same { pass.new ≡ pass.old }
        ensures tells { Tells pass.old.account }
    {
        self.ruled.learn_as::<Told>(&mut pass.pass);
    }
}
