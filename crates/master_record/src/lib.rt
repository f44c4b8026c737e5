//! The master record: which node has the oracle, until when, and which stamps its term may draw.
#![tactic(auto)]

ghost use Rattle.std.specs.Prelude.{◌≡◌, ◌≤◌, ◌<◌, ◌+◌, ◌^◌, ◌↔◌, IfOk, IsSome, IsTrue, if◌then◌else◌};
ghost use Rattle.master_record.specs.Calls.{free_record, take_refused, granted, taken, held_by, is_spent, renew_refused, renewed_until, renewed, extend_refused, extended, unless_some, answered, AsksOnce, IsWithin, IsStampRange, fated, works};

use port_io::{Fate, Store, Weather};
use stamp_base::{NodeNo, Stamp, Term};
use std::marker::Model;
pub use system_parts::{ExtendRefused, Grant, RenewRefused, TakeRefused};

/// The one record that says which node has the oracle. Each of its three steps is one store call. Readings, leases, their ends and
/// skews are in ticks of the base clock, ranges and ceilings in stamps.
#[derive(Drop)]
pub struct Master {
    lease: u64,
    skew: u64,
    range: u64,
    // 0 while the record is free.
    term: u64,
    holder: Option<NodeNo>,
    until: u64,
    ceiling: u64,
}

impl Model for Master {
    ghost use Rattle.master_record.specs.Seen.{SeenMaster};

    ghost Value = { SeenMaster };

    ghost use Rattle.master_record.specs.Seen.{seen, IsSound};

    ghost view = { seen };

    ghost invariant = { IsSound };
}

impl Master {
    /// A free record: term 0, no holder, `until` 0 and `ceiling` 0. A take or a renewal gives `lease` ticks, clocks differ by at
    /// most `skew` ticks, and a take or an extension brings `range` stamps.
    pub fn free(lease: u64, skew: u64, range: u64) -> Master
        requires lease { lease ≤ 1000000 }
        requires skew { skew ≤ 1000000 }
        requires range { IsWithin 1 (2 ^ 62) range }
        ensures state { result.state ≡ free_record }
        ensures rules { result.rules ≡ record { lease = lease; skew = skew; range = range } }
    {
        Master {
            lease,
            skew,
            range,
            term: 0,
            holder: None,
            until: 0,
            ceiling: 0,
        }
    }

    /// The number of grants so far, which is the present term. 0 while the record is free.
    pub fn term(&self) -> u64
        ensures value { result ≡ self.now.state.term }
        ensures range { result ≤ self.now.state.ceiling }
    {
        self.term
    }

    /// The node that has the record. None exactly while it is free.
    pub fn holder(&self) -> Option<NodeNo>
        ensures value { result ≡ self.now.state.holder }
        ensures held { IsSome result ↔ (0 < self.now.state.term) }
    {
        self.holder
    }

    /// The end of the lease, in ticks.
    pub fn until(&self) -> u64
        ensures value { result ≡ self.now.state.until }
        ensures range { result ≤ 2 ^ 61 + 1000000 }
    {
        self.until
    }

    /// The last stamp of the present term's range.
    pub fn ceiling(&self) -> u64
        ensures value { result ≡ self.now.state.ceiling }
        ensures range { result ≤ 2 ^ 62 }
    {
        self.ceiling
    }

    /// What a take at this reading would be granted or refused, without a store call. Refused as Early exactly where a
    /// holder is there and the reading is below `until` and the skew, then as Spent exactly where a further range would
    /// go past the last stamp.
    pub fn grant_at(&self, reading: u64) -> Result<Grant, TakeRefused>
        requires { reading ≤ 2 ^ 61 }
        ensures answer { result ≡ unless_some (take_refused self.now.rules self.now.state reading)
            (granted self.now.rules self.now.state reading) }
        ensures range { IfOk result (λ grant. IsStampRange grant.epoch grant.ceiling) }
        ensures term { IfOk result (λ grant. IsWithin 1 grant.ceiling grant.term) }
        ensures until { IfOk result (λ grant. grant.until ≤ 2 ^ 61 + 1000000) }
    {
        if self.holder.is_some() && reading < self.until + self.skew {
            return Err(TakeRefused::Early {
                reading,
                until: self.until,
            });
        }
        if self.is_spent() {
            return Err(TakeRefused::Spent {
                ceiling: self.ceiling,
            });
        }
        let Some(term) = Term::new(self.term + 1) else {
            unreachable!();
        };
        Ok(Grant {
            term,
            epoch: self.ceiling,
            until: reading + self.lease,
            ceiling: self.ceiling + self.range,
        })
    }

    /// Grants the next term to the node, with a lease from the reading on and a range from the old ceiling on. It is refused as
    /// `grant_at` says, and then changes nothing. A StoreFault comes before the refusals and hides them; after one the record was
    /// taken exactly where the fate is FailsApplied and nothing refuses the take.
    pub fn take<W: Weather>(
        &mut self,
        weather: &mut W,
        node: NodeNo,
        reading: u64,
    ) -> Result<Grant, TakeRefused>
        requires { reading ≤ 2 ^ 61 }
        ensures state { self.new.state ≡ fated (W.ahead weather.old Store.Master 0)
            self.old.state (taken self.old.rules self.old.state node reading) }
        ensures rules { self.new.rules ≡ self.old.rules }
        ensures answer { result ≡ answered (W.ahead weather.old Store.Master 0) TakeRefused.StoreFault
            (take_refused self.old.rules self.old.state reading) (granted self.old.rules self.old.state reading) }
        ensures range { IfOk result (λ grant. IsStampRange grant.epoch grant.ceiling) }
        ensures asked { AsksOnce Store.Master (W.ahead weather.old) (W.ahead weather.new)
            (W.faults weather.old) (W.faults weather.new) }
    {
        let fate = weather.next(Store::Master);
        let told = self.grant_at(reading);
        if fate.applies()
            && let Ok(grant) = &told
        {
            self.hold(node, grant);
        }
        told_under(fate, told, TakeRefused::StoreFault)
    }

    /// Sets `until` to the greater of `until` and the reading with the lease, and answers it. Refused as Replaced exactly where the
    /// record has another term. It needs no lease that stands. A StoreFault hides the answer; after one the end was set exactly
    /// where the fate is FailsApplied and nothing refuses the renewal.
    pub fn renew<W: Weather>(
        &mut self,
        weather: &mut W,
        term: Term,
        reading: u64,
    ) -> Result<u64, RenewRefused>
        requires { reading ≤ 2 ^ 61 }
        ensures state { self.new.state ≡ fated (W.ahead weather.old Store.Master 0)
            self.old.state (renewed self.old.rules self.old.state term reading) }
        ensures rules { self.new.rules ≡ self.old.rules }
        ensures answer { result ≡ answered (W.ahead weather.old Store.Master 0) RenewRefused.StoreFault
            (renew_refused self.old.state term) (renewed_until self.old.rules self.old.state reading) }
        ensures asked { AsksOnce Store.Master (W.ahead weather.old) (W.ahead weather.new)
            (W.faults weather.old) (W.faults weather.new) }
    {
        let fate = weather.next(Store::Master);
        let told = self.renewal_at(term, reading);
        if fate.applies()
            && let Ok(until) = told
        {
            self.until = until;
        }
        told_under(fate, told, RenewRefused::StoreFault)
    }

    /// Raises the ceiling by one range, and answers it. Refused as Replaced exactly where the record has another term, then as
    /// Spent exactly where a further range would go past the last stamp. A StoreFault hides the answer; after one the ceiling was
    /// raised exactly where the fate is FailsApplied and nothing refuses the extension.
    pub fn extend<W: Weather>(&mut self, weather: &mut W, term: Term) -> Result<u64, ExtendRefused>
        ensures state { self.new.state ≡ fated (W.ahead weather.old Store.Master 0)
            self.old.state (extended self.old.rules self.old.state term) }
        ensures rules { self.new.rules ≡ self.old.rules }
        ensures answer { result ≡ answered (W.ahead weather.old Store.Master 0) ExtendRefused.StoreFault
            (extend_refused self.old.rules self.old.state term) (self.old.state.ceiling + self.old.rules.range) }
        ensures asked { AsksOnce Store.Master (W.ahead weather.old) (W.ahead weather.new)
            (W.faults weather.old) (W.faults weather.new) }
    {
        let fate = weather.next(Store::Master);
        let told = self.extension_of(term);
        if fate.applies()
            && let Ok(ceiling) = told
        {
            self.ceiling = ceiling;
        }
        told_under(fate, told, ExtendRefused::StoreFault)
    }

    /// Whether the record leases by these numbers.
    pub fn keeps(&self, lease: u64, skew: u64, range: u64) -> bool
        ensures { IsTrue result ↔ (self.now.rules ≡ record { lease = lease; skew = skew; range = range }) }
    {
        self.lease == lease && self.skew == skew && self.range == range
    }

    fn hold(&mut self, node: NodeNo, grant: &Grant)
        requires term { IsWithin 1 grant.now.ceiling grant.now.term }
        requires until { grant.now.until ≤ 2 ^ 61 + 1000000 }
        requires ceiling { grant.now.ceiling ≤ 2 ^ 62 }
        ensures state { self.new.state ≡ held_by node grant.now }
        ensures rules { self.new.rules ≡ self.old.rules }
    {
        self.term = grant.term.value();
        self.holder = Some(node);
        self.until = grant.until;
        self.ceiling = grant.ceiling;
    }

    /// What a renewal at this reading would be answered, without a store call: the end that it would set, refused as
    /// `renew` is.
    pub fn renewal_at(&self, term: Term, reading: u64) -> Result<u64, RenewRefused>
        requires { reading ≤ 2 ^ 61 }
        ensures answer { result ≡ unless_some (renew_refused self.now.state term)
            (renewed_until self.now.rules self.now.state reading) }
        ensures range { IfOk result (λ until. until ≤ 2 ^ 61 + 1000000) }
    {
        if self.term != term.value() {
            return Err(RenewRefused::Replaced { found: self.term });
        }
        Ok(self.until.max(reading + self.lease))
    }

    /// What an extension would be answered, without a store call: the ceiling that it would set, refused as `extend` is.
    pub fn extension_of(&self, term: Term) -> Result<u64, ExtendRefused>
        ensures answer { result ≡ unless_some (extend_refused self.now.rules self.now.state term)
            (self.now.state.ceiling + self.now.rules.range) }
        ensures range { IfOk result (λ ceiling. IsWithin self.now.state.ceiling (2 ^ 62) ceiling) }
    {
        if self.term != term.value() {
            return Err(ExtendRefused::Replaced { found: self.term });
        }
        if self.is_spent() {
            return Err(ExtendRefused::Spent {
                ceiling: self.ceiling,
            });
        }
        Ok(self.ceiling + self.range)
    }

    /// Whether a further range would go past the last stamp.
    fn is_spent(&self) -> bool
        ensures value { result ≡ is_spent self.now.rules self.now.state }
    {
        self.ceiling + self.range > Stamp::GREATEST
    }
}

/// What a call of this fate tells: a fault hides the answer.
fn told_under<T: Drop, E: Drop>(fate: Fate, told: Result<T, E>, fault: E) -> Result<T, E>
    ensures { result ≡ (if works fate then told else Err fault) }
{
    if fate.works() { told } else { Err(fault) }
}
