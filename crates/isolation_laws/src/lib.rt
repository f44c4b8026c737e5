//! Why every history of the machine is snapshot isolated, and serial where reads are strict: the facts that tie each state to its
//! history, and that every event keeps them.
#![tactic(auto)]

ghost use Rattle.std.specs.Prelude.{List, [], ◌++◌};
ghost use Rattle.history_book.specs.Isolation.{Isolated};
ghost use Rattle.history_book.specs.declared.item.Item.{Item};
ghost use Rattle.cause_rules.specs.Strict.{SerialIfStrict};
ghost use Rattle.stamp_base.specs.SetupNumbers.{SetupNumbers, AreInRange};
ghost use Rattle.port_io.specs.declared.weather.Fate.{Fate};
ghost use Rattle.machine.specs.declared.event.Event.{Event};
ghost use Rattle.machine.specs.State.{State, opening};
ghost use Rattle.machine.specs.Machine.{Move, Steady, IsSteadyAt, reading_of, stepped, history_after};
ghost use Rattle.isolation_laws.specs.Sound.{ReachedInvariant};

mod consequences;

pub use consequences::{
    crashes_lose_commits, draws_keep_terms, faulted_puts_lose_commits, leases_are_of_the_term,
    lost_is_never_placed, marked_is_never_placed, reads_give_what_commits,
};

/// Every history of the machine is snapshot isolated: for every setup in range, every list of events, each with any fate of
/// its store call, any number of nodes and sessions, crashes, takeovers, marks and sweeps included, and however much sessions
/// remember. All that is asked for is that readings of the clocks are steady: none is behind an earlier one by more than the skew.
pub fn always_isolated()
    ensures { (setup : SetupNumbers) (moves : List Move) → AreInRange setup → Steady setup moves → Isolated (history_after setup moves) }
{}

/// Where the setup asks for strict reads, every history of the machine is serial too: what a committed transaction read of a key
/// that it had not written stood until its commit, so the commits in their order are a serial run. Nothing else is asked for than
/// above, and nothing of the other forms.
pub fn always_serial()
    ensures { (setup : SetupNumbers) (moves : List Move) → AreInRange setup → Steady setup moves → SerialIfStrict setup (history_after setup moves) }
{}

/// All facts hold of the opening state and no history.
pub fn facts_hold_at_first()
    ensures { (setup : SetupNumbers) → AreInRange setup → ReachedInvariant (opening setup) [] }
{}

/// Every event keeps all facts, whatever the fate of its store call.
pub fn events_keep_the_facts()
    ensures { (w : State) (h : List Item) (event : Event) (fate : Fate) → ReachedInvariant w h → IsSteadyAt w.setup.skew w.seen (reading_of event) →
        ReachedInvariant (stepped w event fate).state (h ++ (stepped w event fate).items) }
{}
