// What becomes of the calls on the stores.
ghost use Rattle.std.specs.Prelude.{◌≡◌, ◌≢◌, ℕ, ◌+◌, ◌<◌, ◌≤◌};
ghost use Rattle.port_io.specs.Fates.{Counts};

use stamp_base::Store;

/// What becomes of one store call. Both failures answer a fault, and only the last keeps what the call
/// would have changed.
#[derive(Clone, Copy, Debug, PartialEq, Eq)]
pub enum Fate {
    /// The call is answered and takes effect.
    Works,
    /// The call fails and changes nothing.
    FailsUnchanged,
    /// The call fails and takes effect all the same.
    FailsApplied,
}

impl Fate {
    ghost use Rattle.port_io.specs.Fates.{works, applies};

    /// Whether the call is answered.
    pub fn works(&self) -> bool
        ensures { result ≡ works self.now }
    {
        matches!(self, Fate::Works)
    }

    /// Whether the call takes effect.
    pub fn applies(&self) -> bool
        ensures { result ≡ applies self.now }
    {
        matches!(self, Fate::Works | Fate::FailsApplied)
    }
}

/// Which store calls work and which fail. Each store call asks for one fate.
pub trait Weather {
    ghost use Rattle.port_io.specs.Fates.{Counts};
    ghost use Rattle.stamp_base.specs.declared.stores.Store.{Store};
    ghost use Rattle.port_io.specs.declared.weather.Fate.{Fate};

    /// The fate that the n-th further call on the store will get, n being 0 for the next one.
    ghost ahead: { Self → Store → ℕ → Fate };

    /// How many of the calls so far were answered by a failure.
    ghost faults: { Self → ℕ };

    /// The fate of a call on the store.
    fn next(&mut self, store: Store) -> Fate
        ensures answer { result ≡ ahead self.old store 0 }
        ensures moved { (n : ℕ) → ahead self.new store n ≡ ahead self.old store (n + 1) }
        ensures kept { (other : Store) (n : ℕ) → other ≢ store → ahead self.new other n ≡ ahead self.old other n }
        ensures counted { Counts result (faults self.old) (faults self.new) }
        ensures no_fall { faults self.old ≤ faults self.new };
}

/// The weather in which every store call has one fate: that of a call which was asked for it before.
#[derive(Clone, Copy, Debug, PartialEq, Eq)]
pub struct OneFate {
    /// The fate of every call.
    pub fate: Fate,
    faults: u64,
}

impl OneFate {
    ghost use Rattle.stamp_base.specs.declared.stores.Store.{Store};

    /// Each call has this fate, and none has failed.
    pub fn new(fate: Fate) -> OneFate
        ensures ahead { (store : Store) (n : ℕ) → ⟦<OneFate as Weather>⟧.ahead result store n ≡ fate }
        ensures fate { result.fate ≡ fate }
        ensures faults { ⟦<OneFate as Weather>⟧.faults result ≡ 0 }
    {
        OneFate { fate, faults: 0 }
    }
}

impl Weather for OneFate {
    ghost ahead = { λ w _ _. w.fate };

    ghost faults = { λ w. w.faults };

    fn next(&mut self, _: Store) -> Fate {
        self.faults = counted(self.faults, self.fate);
        self.fate
    }
}

/// The count of faults after a call of this fate.
pub fn counted(faults: u64, fate: Fate) -> u64
    ensures count { Counts fate faults result }
    ensures no_fall { faults ≤ result }
{
    if fate.works() {
        faults
    } else {
        faults.saturating_add(1)
    }
}

/// The weather in which every store call works.
#[derive(Clone, Copy, Debug, PartialEq, Eq)]
pub struct CalmWeather;

impl CalmWeather {
    ghost use Rattle.stamp_base.specs.declared.stores.Store.{Store};

    /// No call fails, and none has failed.
    pub fn new() -> CalmWeather
        ensures ahead { (store : Store) (n : ℕ) → ⟦<CalmWeather as Weather>⟧.ahead result store n ≡ Fate.Works }
        ensures faults { ⟦<CalmWeather as Weather>⟧.faults result ≡ 0 }
    {
        CalmWeather
    }
}

impl Weather for CalmWeather {
    ghost use Rattle.port_io.specs.declared.weather.Fate.TheVariants.{Works};

    ghost ahead = { λ _ _ _. Works };

    ghost faults = { λ _. 0 };

    fn next(&mut self, _: Store) -> Fate {
        Fate::Works
    }
}
