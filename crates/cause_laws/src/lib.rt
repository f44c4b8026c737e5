//! Why every refusal in a history of the machine is shown by what stands before it: what a history shows of the state that it
//! led to, and that every event keeps it so. And what the calls on the parts require of their caller holds in every state that is
//! reached: one law for each event whose call requires something, and one for all that a node does with a request that it holds.
#![tactic(auto)]

ghost use Rattle.std.specs.Prelude.{List, [], ◌++◌};
ghost use Rattle.stamp_base.specs.SetupNumbers.{SetupNumbers, AreInRange};
ghost use Rattle.port_io.specs.declared.weather.Fate.{Fate};
ghost use Rattle.history_book.specs.declared.item.Item.{Item};
ghost use Rattle.machine.specs.declared.event.Event.{Event};
ghost use Rattle.machine.specs.State.{State, opening};
ghost use Rattle.machine.specs.Machine.{Move, Steady, IsSteadyAt, reading_of, stepped, history_after};
ghost use Rattle.cause_rules.specs.Explained.{Explained};
ghost use Rattle.isolation_laws.specs.Sound.{ReachedInvariant};
ghost use Rattle.cause_laws.specs.Due.{AreDue};
ghost use Rattle.cause_laws.specs.ShownInvariant.{ExplainedInvariant};

mod bounds;
mod record_calls;
mod request_calls;
mod store_calls;

pub use bounds::{bounded_at_first, events_keep_bounds};
pub use record_calls::{
    draw_may_be_made, extension_may_be_made, parts_are_counted, renewal_may_be_made,
    take_may_be_made,
};
pub use request_calls::{
    begin_may_be_asked, commit_may_be_asked, put_may_be_made, requests_are_waited_for,
};
pub use store_calls::{
    heal_may_be_made, placing_may_be_made, read_may_go_on, step_may_be_made, sweep_may_step,
    write_may_be_made,
};

/// Every refusal in every history of the machine is shown by what stands before it: for every setup in range, every list of
/// events, each with any fate of its store call, any number of nodes and sessions, crashes, takeovers, marks and sweeps
/// included. All that is asked for is that readings of the clocks are steady: none is behind an earlier one by more than the
/// skew.
pub fn always_explained()
    ensures { (setup : SetupNumbers) (moves : List Move) → AreInRange setup → Steady setup moves → Explained setup (history_after setup moves) }
{}

/// All facts hold of the opening state and no history: those of isolation, and that the history shows the state.
pub fn told_at_first()
    ensures { (setup : SetupNumbers) → AreInRange setup → ExplainedInvariant (opening setup) [] }
{}

/// Every event keeps all of them, whatever the fate of its store call.
pub fn events_keep_what_is_told()
    ensures { (w : State) (h : List Item) (event : Event) (fate : Fate) → ExplainedInvariant w h → IsSteadyAt w.setup.skew w.seen (reading_of event) →
        ExplainedInvariant (stepped w event fate).state (h ++ (stepped w event fate).items) }
{}

/// A refusal says what is the case: where an event refuses with a cause, the state is as the cause tells.
pub fn refusals_are_due()
    ensures { (w : State) (h : List Item) (event : Event) (fate : Fate) → ReachedInvariant w h → AreDue w (stepped w event fate).items }
{}
