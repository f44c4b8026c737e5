// What a reader of the machine's definitions may rely on, over every state, event and fate.
ghost use Rattle.std.specs.Prelude.{◌≡◌, ℕ, false, []};
ghost use Rattle.stamp_base.specs.SetupNumbers.{SetupNumbers};
ghost use Rattle.system_parts.specs.SessionSteps.{work_refusal};
ghost use Rattle.system_parts.specs.Instance.{InstanceEntry};
ghost use Rattle.system_parts.specs.InstanceSteps.{instance_decide};
ghost use Rattle.machine.specs.State.{Client};
ghost use Rattle.machine.specs.Clients.{is_reading};
ghost use Rattle.machine.specs.Events.Fetch.{client_fetched, fetch_refused};
ghost use Rattle.machine.specs.Events.Decide.{decide_both};
ghost use Rattle.machine.specs.Outcome.Inverted.{EventsComeToOutcomes};
ghost use Rattle.machine.specs.Laws.{StopsAreKept, RefusalsLeaveAll, SeenGoesUp, EventsLeaveParts, StoresAreAskedOnce, RequestsAreToldOnce, GoneStaysGone};

/// What an instance keeps of the master record's refusals is Replaced or Spent: so it is at the opening, and each event keeps
/// it. The laws below that ask for it hold in each state that moves lead to.
pub fn instances_keep_stops()
    ensures { StopsAreKept }
{}

/// A refusal that ends no request and no sweep, and that no instance keeps, changes nothing but the greatest reading; the
/// actor is told the cause, and nothing else is appended.
pub fn refusals_leave_all()
    ensures { RefusalsLeaveAll }
{}

/// The greatest reading after an event is the greater of the one before it and the reading that the event hands in, where it
/// hands in one.
pub fn seen_goes_up()
    ensures { SeenGoesUp }
{}

/// No event changes the setup, and what an event does not touch of the clients, nodes, sweep and stores stays as it was.
pub fn events_leave_parts()
    ensures { EventsLeaveParts }
{}

/// Where an event asks no store its fate does not matter. Where it asks one it fails exactly where the call does, by that
/// store's fault.
pub fn stores_are_asked_once()
    ensures { StoresAreAskedOnce }
{}

/// A request is told NoStamp and NotYet once: where it was told already, a repeated one is answered and appends nothing. That
/// it is told is kept with it; for NoStamp where the instance keeps Replaced or Spent alone, as `instances_keep_stops` says.
pub fn requests_are_told_once()
    ensures { RequestsAreToldOnce }
{}

/// A session that has vanished stays so, whatever it is asked to do and whatever its request is told.
pub fn gone_stays_gone()
    ensures { GoneStaysGone }
{}

/// What was read counts with strict reads alone: a client that has kept nothing is decided as the instance decides by itself,
/// and where the setup does not ask for strict reads a fetch keeps nothing, and is refused for nothing that was read.
pub fn reads_count_if_strict()
    ensures empty { (i : InstanceEntry) (session : ℕ) → decide_both i session [] ≡ instance_decide i session }
    ensures kept { (setup : SetupNumbers) (c : Client) (key : ℕ) → setup.strict ≡ false → client_fetched setup c key ≡ c }
    ensures refused { (setup : SetupNumbers) (c : Client) (key : ℕ) → setup.strict ≡ false →
        fetch_refused setup c key ≡ work_refusal c.entry.state (is_reading c) }
{}

/// Each event comes to one outcome of `specs/Outcome`: the state that it leaves and the items that it tells are exactly those of
/// the outcome, and each refusal among them says what is the case. It is asked that the state's parts fit together (`Fits`), as
/// they do in each state that is reached.
pub fn events_come_to_outcomes()
    ensures { EventsComeToOutcomes }
{}
