// The weather of a plan.
ghost use Rattle.std.specs.Prelude.{◌≡◌, ◌≢◌, ℕ, ◌+◌, ◌^◌, ◌≤◌, All, Contains};
ghost use Rattle.port_io.specs.Memory.{one_more};
ghost use Rattle.port_io.specs.Planned.{PlannedFault, OneEach, planned_fate, made_on, one_counted};

use crate::weather::counted;
use crate::{Fate, Store, Weather};

/// Faults at calls that were named beforehand, each by its store and its number. Every other call works.
#[derive(Drop)]
pub struct PlannedWeather {
    // The plan stays as it was given. A call on a store is found in it by the calls that were made there before.
    plan: Vec<(Store, u64, Fate)>,
    made: Made,
    faults: u64,
}

// How many calls were made so far on each store. A count that is full stays so, and no number of the plan lies above it.
#[derive(Clone, Copy)]
struct Made {
    cells: u64,
    table: u64,
    master: u64,
}

impl PlannedWeather {
    ghost use Rattle.stamp_base.specs.declared.stores.Store.{Store};

    /// The calls on each store are counted from 1. The call of a number that is named for its store gets that fate.
    pub fn new(faults: Vec<(Store, u64, Fate)>) -> PlannedWeather
        requires { OneEach faults.items }
        ensures ahead { (store : Store) (n : ℕ) →
            ⟦<PlannedWeather as Weather>⟧.ahead result store n ≡ planned_fate faults.items store (n + 1) }
        ensures named { (fault : PlannedFault) (n : ℕ) → Contains faults.items fault → fault.1 ≡ n + 1 →
            ⟦<PlannedWeather as Weather>⟧.ahead result fault.0 n ≡ fault.2 }
        ensures others { (store : Store) (n : ℕ) → All (λ fault. fault.0 ≡ store → fault.1 ≢ n + 1) faults.items →
            ⟦<PlannedWeather as Weather>⟧.ahead result store n ≡ Fate.Works }
        ensures faults { ⟦<PlannedWeather as Weather>⟧.faults result ≡ 0 }
    {
        PlannedWeather {
            plan: faults,
            made: Made {
                cells: 0,
                table: 0,
                master: 0,
            },
            faults: 0,
        }
    }
}

impl Weather for PlannedWeather {
    ghost ahead = { λ w store n. planned_fate w.plan.items store (made_on w.made store + n + 1) };

    ghost faults = { λ w. w.faults };

    #[tactic(auto, using(crate::proofs::Plans::moved_fate, crate::proofs::Plans::kept_fate))]
    fn next(&mut self, store: Store) -> Fate {
        let made = self.made.count(store);
        let fate = fate_after(&self.plan, store, made);
        self.faults = counted(self.faults, fate);
        fate
    }
}

impl Made {
    /// One more call on the store, and how many were made there before it.
    fn count(&mut self, store: Store) -> u64
        ensures before { result ≡ made_on self.old store }
        ensures counted { self.new ≡ one_counted self.old store }
    {
        match store {
            Store::Cells => count_one(&mut self.cells),
            Store::Table => count_one(&mut self.table),
            Store::Master => count_one(&mut self.master),
        }
    }
}

/// One more is counted, and how many there were before is given back.
fn count_one(count: &mut u64) -> u64
    ensures before { result ≡ count.old }
    ensures counted { count.new ≡ one_more count.old }
{
    let before = *count;
    *count = before.saturating_add(1);
    before
}

/// The fate of the call on the store that comes after so many. Where so many is the last number there is, the walk over
/// the plan shows that none of its faults is of a later call.
#[tactic(auto, unfolding(crate::specs::Planned::planned_fate))]
fn fate_after(plan: &[(Store, u64, Fate)], store: Store, made: u64) -> Fate
    ensures fate { result ≡ planned_fate plan.now store (made + 1) }
    ensures past { 2 ^ 64 ≤ made + 1 → (number : ℕ) → 2 ^ 64 ≤ number → planned_fate plan.now store number ≡ Fate.Works }
{
    for fault in plan {
        // The number first, since it tells more than the store.
        if made < fault.1 && fault.1 - made == 1 && fault.0 == store {
            return fault.2;
        }
    }
    Fate::Works
}
