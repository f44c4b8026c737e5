ghost use Rattle.std.specs.Prelude.{◌≡◌, ◌<◌, true, length, IfOk, IfErr, IfNone, MatchResult, MatchOption};
ghost use Rattle.queue_passes.specs.Holds.{holds};
ghost use Rattle.request_rule.specs.Accounts.{first_account, sender_account, with_sender, with_put, joined, TakesOne};
ghost use Rattle.request_rule.specs.Rule.{Tells, TookAll, HasLeft};

use crate::account::Ticket;
use crate::rule::{Put, Ruled, RuledPass, Sender, Taken, Together, Told};
use stamp_base::NoMemory;
use std::alloc::Global;
use std::marker::Model;
use std::sync::Wait;

/// A bounded queue of tickets, with any number of senders and one receiver.
#[derive(Drop)]
pub struct RequestRing {
    ruled: Ruled,
}

impl Model for RequestRing {
    ghost use Rattle.crossbeam_queue.specs.Passes.{ruled_capacity};
    ghost use Rattle.queue_passes.specs.Holds.{Ring};

    ghost Value = { Ring };

    ghost view = { λ r. record { id = r.ruled.table.shared.table_id; room = ruled_capacity r.ruled } };
}

/// The right of one thread to use a request ring, with its account.
#[derive(Drop)]
pub struct RequestPass {
    pass: RuledPass,
}

impl Model for RequestPass {
    ghost use Rattle.std.specs.Prelude.{◌≡◌, []};
    ghost use Rattle.crossbeam_queue.specs.Passes.{view as account_of};
    ghost use Rattle.queue_passes.specs.Holds.{Holds, holds};
    ghost use Rattle.request_rule.specs.declared.account.RequestAccount.{RequestAccount};

    ghost Value = { Holds RequestAccount };

    ghost view = { λ p. holds p.pass.table_id (account_of p.pass) };

    ghost invariant = { λ p. p.pass.me.1 ≡ [] };
}

impl RequestRing {
    /// A ring for `room` tickets, and the receiver's pass. NoMemory where memory is refused.
    pub fn open(alloc: Global, room: usize) -> Result<(RequestRing, RequestPass), NoMemory>
        requires { 0 < room }
        ensures { IfOk result (λ opened. (opened.0.room ≡ room) × (opened.1 ≡ holds opened.0.id first_account)) }
    {
        let (ruled, pass) = Ruled::ruled(alloc, room)?;
        Ok((RequestRing { ruled }, RequestPass { pass }))
    }

    /// A sender's pass, which the receiver's pass makes and numbers.
    pub fn sender(&self, pass: &mut RequestPass) -> RequestPass
        requires ring { pass.old.ring ≡ self.now.id }
        requires receiver { pass.old.account.receives ≡ true }
        ensures old { pass.new ≡ holds self.now.id (with_sender pass.old.account) }
        ensures new { result ≡ holds self.now.id (sender_account pass.old.account.senders) }
    {
        RequestPass {
            pass: self.ruled.another::<Sender>(&mut pass.pass),
        }
    }

    /// Puts a ticket at the back. Err only where the ring was full at that step.
    pub fn send<R: Wait>(
        &self,
        rt: &R,
        pass: &mut RequestPass,
        ticket: Ticket,
    ) -> Result<(), Ticket>
        requires ring { pass.old.ring ≡ self.now.id }
        requires sender { 0 < length pass.old.account.rows }
        ensures put { MatchResult result (λ _. pass.new ≡ holds self.now.id (with_put pass.old.account ticket)) (λ back. (back ≡ ticket) × (pass.new ≡ pass.old)) }
        ensures full { IfErr result (λ _. HasLeft self.now.room pass.old.account) }
    {
        self.ruled.push_as::<Put, R>(rt, &mut pass.pass, ticket)
    }

    /// Takes the ticket at the front. None only where the ring was empty at that step.
    pub fn receive<R: Wait>(&self, rt: &R, pass: &mut RequestPass) -> Option<Ticket>
        requires ring { pass.old.ring ≡ self.now.id }
        requires receiver { pass.old.account.receives ≡ true }
        ensures ring { pass.new.ring ≡ self.now.id }
        ensures taken { MatchOption result (pass.new ≡ pass.old) (λ ticket. TakesOne pass.old.account ticket pass.new.account) }
        ensures empty { IfNone result (TookAll pass.old.account) }
    {
        self.ruled.pop_as::<Taken, R>(rt, &mut pass.pass)
    }

    /// Joins two passes to one, whose account has what both put and took.
    pub fn join(&self, pass: RequestPass, other: RequestPass) -> RequestPass
        requires { (pass.ring ≡ self.now.id) × (other.ring ≡ self.now.id) }
        ensures { result ≡ holds self.now.id (joined pass.account other.account) }
    {
        let RequestPass { pass: mut mine } = pass;
        let RequestPass { pass: theirs } = other;
        self.ruled.absorb::<Together>(&mut mine, theirs);
        RequestPass { pass: mine }
    }

    /// What the account tells of the ring. The pass stays as it is.
    pub fn tell(&self, pass: &mut RequestPass)
        requires { pass.old.ring ≡ self.now.id }
        ensures same { pass.new ≡ pass.old }
        ensures tells { Tells pass.old.account }
    {
        self.ruled.learn_as::<Told>(&mut pass.pass);
    }
}
