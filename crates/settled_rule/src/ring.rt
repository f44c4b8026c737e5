ghost use Rattle.std.specs.Prelude.{◌≡◌, ◌<◌, IfOk, IfErr, IfNone, MatchResult, MatchOption};
ghost use Rattle.queue_passes.specs.Holds.{holds};
ghost use Rattle.settled_rule.specs.Accounts.{first_account, new_account, parted, with_put, with_taken, joined};
ghost use Rattle.settled_rule.specs.Rule.{IsFair, HasLeft};

use crate::rule::{PartOff, Put, Ruled, RuledPass, Taken, Together, Told};
use persist_batches::Numbered;
use stamp_base::NoMemory;
use std::alloc::Global;
use std::marker::Model;
use std::sync::Wait;

/// A bounded queue of settled batches, for any number of threads.
#[derive(Drop)]
pub struct SettledRing {
    ruled: Ruled,
}

impl Model for SettledRing {
    ghost use Rattle.crossbeam_queue.specs.Passes.{ruled_capacity};
    ghost use Rattle.queue_passes.specs.Holds.{Ring};

    ghost Value = { Ring };

    ghost view = { λ r. record { id = r.ruled.table.shared.table_id; room = ruled_capacity r.ruled } };
}

/// The right of one thread to use a settled ring, with its account.
#[derive(Drop)]
pub struct SettledPass {
    pass: RuledPass,
}

impl Model for SettledPass {
    ghost use Rattle.std.specs.Prelude.{◌≡◌, ◌<◌, []};
    ghost use Rattle.crossbeam_queue.specs.Passes.{view as account_of};
    ghost use Rattle.queue_passes.specs.Holds.{Holds, holds};
    ghost use Rattle.settled_rule.specs.declared.account.SettledAccount.{SettledAccount};

    ghost Value = { Holds SettledAccount };

    ghost view = { λ p. holds p.pass.table_id (account_of p.pass) };

    ghost invariant = { λ p. (p.pass.me.1 ≡ []) × (0 < (account_of p.pass).parts) };
}

impl SettledRing {
    /// A ring for `room` batches, and a pass with every part. NoMemory where memory is refused.
    pub fn open(alloc: Global, room: usize) -> Result<(SettledRing, SettledPass), NoMemory>
        requires { 0 < room }
        ensures { IfOk result (λ opened. (opened.0.room ≡ room) × (opened.1 ≡ holds opened.0.id first_account)) }
    {
        let (ruled, pass) = Ruled::ruled(alloc, room)?;
        Ok((SettledRing { ruled }, SettledPass { pass }))
    }

    /// A further pass, which gets one part.
    pub fn further(&self, pass: &mut SettledPass) -> SettledPass
        requires ring { pass.old.ring ≡ self.now.id }
        requires parts { 1 < pass.old.account.parts }
        ensures old { pass.new ≡ holds self.now.id (parted pass.old.account) }
        ensures new { result ≡ holds self.now.id new_account }
    {
        SettledPass {
            pass: self.ruled.another::<PartOff>(&mut pass.pass),
        }
    }

    /// Puts a batch at the back. Err only where the ring was full at that step.
    pub fn send<R: Wait>(
        &self,
        rt: &R,
        pass: &mut SettledPass,
        batch: Numbered,
    ) -> Result<(), Numbered>
        requires { pass.old.ring ≡ self.now.id }
        ensures put { MatchResult result (λ _. pass.new ≡ holds self.now.id (with_put pass.old.account batch)) (λ back. (back ≡ batch) × (pass.new ≡ pass.old)) }
        ensures full { IfErr result (λ _. HasLeft self.now.room pass.old.account) }
    {
        self.ruled.push_as::<Put, R>(rt, &mut pass.pass, batch)
    }

    /// Takes the batch at the front. None only where the ring was empty at that step.
    pub fn receive<R: Wait>(&self, rt: &R, pass: &mut SettledPass) -> Option<Numbered>
        requires { pass.old.ring ≡ self.now.id }
        ensures taken { MatchOption result (pass.new ≡ pass.old) (λ batch. pass.new ≡ holds self.now.id (with_taken pass.old.account batch)) }
        ensures empty { IfNone result (HasLeft 0 pass.old.account) }
    {
        self.ruled.pop_as::<Taken, R>(rt, &mut pass.pass)
    }

    /// Joins two passes to one, whose account has what both put and took.
    pub fn join(&self, pass: SettledPass, other: SettledPass) -> SettledPass
        requires { (pass.ring ≡ self.now.id) × (other.ring ≡ self.now.id) }
        ensures { result ≡ holds self.now.id (joined pass.account other.account) }
    {
        let SettledPass { pass: mut mine } = pass;
        let SettledPass { pass: theirs } = other;
        self.ruled.absorb::<Together>(&mut mine, theirs);
        SettledPass { pass: mine }
    }

    /// What the account tells of the ring. The pass stays as it is.
    pub fn tell(&self, pass: &mut SettledPass)
        requires { pass.old.ring ≡ self.now.id }
        ensures same { pass.new ≡ pass.old }
        ensures fair { IsFair pass.old.account }
    {
        self.ruled.learn_as::<Told>(&mut pass.pass);
    }
}
