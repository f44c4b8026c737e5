//! The items that stamps make of a trace, in the order of the stamps, and that they are isolated where the trace is.
#![tactic(auto)]

ghost use Rattle.std.specs.Prelude.{List};
ghost use Rattle.history_book.specs.Isolation.{Isolated};
ghost use Rattle.history_book.specs.Serial.{Serial};
ghost use Rattle.trace_rules.specs.Trace.{Trace};
ghost use Rattle.trace_rules.specs.declared.wanted.Level.{Level};
ghost use Rattle.trace_rules.specs.declared.wanted.Level.TheVariants.{Serializable};
ghost use Rattle.trace_rules.specs.Stamping.{Stamping, Point, IsolatedBy};
ghost use Rattle.trace_items.specs.Items.{InOrder, KeysDiffer, Ranked, Telling, history_of};

/// Stamps that make a trace isolated make a history of it that is isolated, however sessions and values are told.
pub fn stamped_traces_are_isolated()
    ensures { (level : Level) (st : Stamping) (tell : Telling) (trace : Trace) (points : List Point) → KeysDiffer tell → InOrder st trace points → IsolatedBy level st trace → Isolated (history_of st tell trace points) }
{}

/// Serial stamps make a history of it that is serial too.
pub fn serial_traces_are_serial()
    ensures { (st : Stamping) (tell : Telling) (trace : Trace) (points : List Point) → KeysDiffer tell → InOrder st trace points → IsolatedBy Serializable st trace → Serial (history_of st tell trace points) }
{}

/// Of stamps only the order counts: where some make a trace isolated, so do those that count its points in their order.
pub fn ranks_are_stamps()
    ensures order { (st ranks : Stamping) (trace : Trace) (points : List Point) → InOrder st trace points → Ranked ranks points → InOrder ranks trace points }
    ensures isolated { (level : Level) (st ranks : Stamping) (trace : Trace) (points : List Point) → InOrder st trace points → Ranked ranks points → IsolatedBy level st trace → IsolatedBy level ranks trace }
{}
