// The numbers of every state that is reached are in bounds.
ghost use Rattle.std.specs.Prelude.{List};
ghost use Rattle.history_book.specs.declared.item.Item.{Item};
ghost use Rattle.stamp_base.specs.SetupNumbers.{SetupNumbers};
ghost use Rattle.port_io.specs.declared.weather.Fate.{Fate};
ghost use Rattle.machine.specs.declared.event.Event.{Event};
ghost use Rattle.machine.specs.State.{State, opening};
ghost use Rattle.machine.specs.Machine.{IsSteadyAt, reading_of, stepped};
ghost use Rattle.cause_laws.specs.ShownInvariant.{ExplainedInvariant};
ghost use Rattle.cause_laws.specs.Bounds.{Bounded};

/// The numbers of the opening state are in bounds.
pub fn bounded_at_first()
    ensures { (setup : SetupNumbers) → Bounded (opening setup) }
{}

/// Every event keeps them so, whatever the fate of its store call, where its reading is steady.
pub fn events_keep_bounds()
    ensures { (w : State) (h : List Item) (event : Event) (fate : Fate) → ExplainedInvariant w h → Bounded w → IsSteadyAt w.setup.skew w.seen (reading_of event) →
        Bounded (stepped w event fate).state }
{}
