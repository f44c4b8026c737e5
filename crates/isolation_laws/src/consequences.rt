// What follows of every state that is reached, and of what can still happen from it.
ghost use Rattle.std.specs.Prelude.{◌≡◌, ℕ, false, List, ◌++◌};
ghost use Rattle.history_book.specs.declared.item.Item.{Item};
ghost use Rattle.stamp_base.specs.SetupNumbers.{SetupNumbers, AreInRange};
ghost use Rattle.port_io.specs.declared.weather.Fate.{Fate};
ghost use Rattle.port_io.specs.declared.weather.Fate.TheVariants.{FailsUnchanged};
ghost use Rattle.machine.specs.declared.event.Event.TheVariants.{Crash, Put, Step, Vanish};
ghost use Rattle.machine.specs.State.{State};
ghost use Rattle.machine.specs.Machine.{Move, Steady, AreSteady, stepped, items_after, history_after};
ghost use Rattle.isolation_laws.specs.Pending.{InFlight, HeldPending, PlacingAt, Has};
ghost use Rattle.isolation_laws.specs.Sound.{ReachedInvariant};
ghost use Rattle.isolation_laws.specs.Laws.{Unplaced, IsMarkedFirst, IsLost, ReadsWhatCommits, DrawsKeepTerms, LeasesAreOfTheTerm};

/// A read never gives a value of a transaction that does not commit, its own apart.
pub fn reads_give_what_commits()
    ensures { (setup : SetupNumbers) (moves : List Move) → AreInRange setup → Steady setup moves → ReadsWhatCommits (history_after setup moves) }
{}

/// Stamps of a term lie above its epoch, and those of earlier terms do not.
pub fn draws_keep_terms()
    ensures { (w : State) (h : List Item) → ReachedInvariant w h → DrawsKeepTerms w h }
{}

/// Where an instance may accept, nobody has taken a later term: once a higher term was taken, no instance of a lower one
/// accepts any more.
pub fn leases_are_of_the_term()
    ensures { (w : State) (h : List Item) → ReachedInvariant w h → LeasesAreOfTheTerm w }
{}

/// A commit that was marked before its put is never placed, whatever comes.
pub fn marked_is_never_placed()
    ensures { (w : State) (h : List Item) (moves : List Move) (t : ℕ) → ReachedInvariant w h → AreSteady w.setup.skew w.seen moves → IsMarkedFirst w h t →
        Unplaced (h ++ items_after w moves) t }
{}

/// A transaction that is lost is never placed, whatever comes.
pub fn lost_is_never_placed()
    ensures { (w : State) (h : List Item) (moves : List Move) (t : ℕ) → ReachedInvariant w h → AreSteady w.setup.skew w.seen moves → IsLost w h t →
        Unplaced (h ++ items_after w moves) t }
{}

/// A commit that an instance holds is lost where that instance crashes.
pub fn crashes_lose_commits()
    ensures { (w : State) (h : List Item) (q : InFlight) (fate : Fate) → ReachedInvariant w h → (p : HeldPending w.nodes q) →
        IsLost (stepped w (Crash p.node) fate).state (h ++ (stepped w (Crash p.node) fate).items) q.start }
{}

/// Where nodes place, a commit that was drawn is lost where its put fails without effect.
pub fn faulted_puts_lose_commits()
    ensures { (w : State) (h : List Item) (q : InFlight) (c : ℕ) → ReachedInvariant w h → w.setup.direct ≡ false → (p : HeldPending w.nodes q) → q.stage ≡ Has c →
        IsLost (stepped w (Put p.node q.session) FailsUnchanged).state (h ++ (stepped w (Put p.node q.session) FailsUnchanged).items) q.start }
{}

/// A commit that its session is to place is lost where that placing fails without effect.
pub fn faulted_placings_lose_commits()
    ensures { (w : State) (h : List Item) (q : InFlight) → ReachedInvariant w h → PlacingAt w.clients q →
        IsLost (stepped w (Step q.session) FailsUnchanged).state (h ++ (stepped w (Step q.session) FailsUnchanged).items) q.start }
{}

/// A commit that its session is to place is lost where that session vanishes.
pub fn vanishes_lose_commits()
    ensures { (w : State) (h : List Item) (q : InFlight) (fate : Fate) → ReachedInvariant w h → PlacingAt w.clients q →
        IsLost (stepped w (Vanish q.session) fate).state (h ++ (stepped w (Vanish q.session) fate).items) q.start }
{}
