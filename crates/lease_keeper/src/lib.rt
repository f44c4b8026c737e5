//! The lease of an oracle's instance, and the test that clock readings are steady.
#![tactic(auto)]

ghost use Rattle.std.specs.Prelude.{◌≡◌, ◌+◌, ◌<◌, ◌≤◌, ◌↔◌, List, ◌++◌, ◌∷◌, [], ℕ, All, max, IsTrue, IsOk, IfErr};
ghost use Rattle.lease_keeper.specs.Steady.{Steady};

use std::marker::Model;

/// Why a lease refuses: the reading is at or past its end.
#[derive(Clone, Copy, Debug, PartialEq, Eq)]
pub struct Expired {
    /// The reading that was asked about, in ticks.
    pub reading: u64,
    /// The end of the lease, in ticks.
    pub until: u64,
}

/// The right to accept requests at readings below a number. Readings and ends of leases are in ticks of the base clock.
#[derive(Clone, Copy, Debug, PartialEq, Eq)]
pub struct Lease {
    until: u64,
}

impl Model for Lease {
    ghost Value = { ℕ };

    ghost view = { λ lease. lease.until };

    ghost inverse = { λ n. record { until = n } };
}

impl Lease {
    /// A lease up to `until`, in ticks.
    pub fn new(until: u64) -> Lease
        ensures { result ≡ until }
    {
        Lease { until }
    }

    /// Ok exactly where the reading is below the end of the lease; Expired where it is not.
    pub fn check(&self, reading: u64) -> Result<(), Expired>
        ensures holds { IsOk result ↔ (reading < self.now) }
        ensures expired { IfErr result (λ e. (self.now ≤ reading) × (e.reading ≡ reading) × (e.until ≡ self.now)) }
    {
        if reading < self.until {
            Ok(())
        } else {
            Err(Expired {
                reading,
                until: self.until,
            })
        }
    }

    /// Keeps the later of the two ends.
    pub fn renewed(&mut self, until: u64)
        ensures { self.new ≡ max self.old until }
    {
        self.until = self.until.max(until);
    }
}

/// Whether a reading may come after one of `seen`, of clocks that differ by at most `skew`, all in ticks of the base clock.
pub fn is_steady(seen: u64, reading: u64, skew: u64) -> bool
    ensures value { IsTrue result ↔ (seen ≤ reading + skew) }
    ensures pair { IsTrue result ↔ Steady skew (seen ∷ reading ∷ []) }
{
    // A difference that stops at 0 stands for the sum, which may pass the type's range.
    seen.saturating_sub(skew) <= reading
}

/// Readings stay steady under one more, where it is steady after the greatest of them.
pub fn steady_readings_go_on()
    ensures { (skew : ℕ) (readings : List ℕ) (seen reading : ℕ) →
        Steady skew readings → All (λ earlier. earlier ≤ seen) readings → seen ≤ reading + skew →
        Steady skew (readings ++ reading ∷ []) }
{}
