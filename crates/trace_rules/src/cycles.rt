// Why a cycle of edges refuses a trace, and why stamps that rise along the edges isolate it.
ghost use Rattle.std.specs.Prelude.{◌≡◌, ◌≢◌, ℕ, ◌<◌, ◌≤◌, suc, List, None, Some, slice_get};
ghost use Rattle.trace_rules.specs.declared.trace.Version.{Version};
ghost use Rattle.trace_rules.specs.Trace.{Trace, Done, Writer, ReadAt, OuterRead};
ghost use Rattle.trace_rules.specs.declared.wanted.Level.{Level};
ghost use Rattle.trace_rules.specs.declared.wanted.Level.TheVariants.{Snapshot, Serializable};
ghost use Rattle.trace_rules.specs.Stamping.{Stamping, Conflict, Point, Start, Commit, stamp_of, Asked, Keeps, IsolatedBy, Stampable, Numbered};
ghost use Rattle.trace_rules.specs.Below.{Below};
ghost use Rattle.trace_rules.specs.Rising.{Sourced, Listed, Rising};
ghost use Rattle.trace_rules.specs.Serial.{PlacesDiffer, RisingPlaces, one_by_one, owner};
ghost use Rattle.trace_rules.specs.Graph.{Edge, Path, Forced};
ghost use Rattle.trace_rules.specs.Lists.{SeesList};
ghost use Rattle.trace_rules.specs.Open.{Fewer};
ghost use Rattle.trace_rules.specs.Wants.{Moments, in_time};

/// Every edge, and every path of edges, holds in all stamps that make the trace isolated and keep what is asked for.
pub fn edges_are_forced()
    ensures { (level : Level) (asked : Asked) (trace : Trace) (st : Stamping) (x y : Point) → Below level asked trace x y → IsolatedBy level st trace → Keeps asked st → stamp_of st x < stamp_of st y }
{}

/// Where a path leads back to its own point there are no such stamps.
pub fn cycles_refuse()
    ensures { (level : Level) (asked : Asked) (trace : Trace) (x : Point) → Below level asked trace x x → Stampable level asked trace → ⊥ }
{}

/// A read of others that names no version of a committed transaction, or not its last value, refuses the trace; and so does
/// a read of a key that its transaction wrote before, where it is not of that write.
pub fn wrong_reads_refuse()
    ensures outer { (level : Level) (asked : Asked) (trace : Trace) (t k : ℕ) (found : Version) → OuterRead trace t k (Some found) → (Writer trace found.from k found.value → ⊥) → Stampable level asked trace → ⊥ }
    ensures own { (level : Level) (asked : Asked) (trace : Trace) (place t k own : ℕ) (answer : _) → ReadAt trace place t k answer (Some own) → answer ≢ Some (record { from = t; value = own }) → Stampable level asked trace → ⊥ }
{}

/// Stamps that rise along the edges between neighbours make the trace isolated, where each key has a list of all its writers.
pub fn rising_stamps_isolate()
    ensures { (st : Stamping) (trace : Trace) (orders : ℕ → List ℕ) → Numbered st trace → Sourced trace → Listed trace orders → Rising st trace orders → IsolatedBy Snapshot st trace }
{}

/// Places that rise along the edges between neighbours are a serial order.
pub fn rising_places_serialise()
    ensures { (at : ℕ → ℕ) (trace : Trace) (orders : ℕ → List ℕ) → Sourced trace → Listed trace orders → RisingPlaces at trace orders → IsolatedBy Serializable (one_by_one at) trace }
{}

/// In a serial order a reader comes before the writers of the versions above what it read.
pub fn serial_readers_come_first()
    ensures some { (asked : Asked) (trace : Trace) (t u k value : ℕ) (found : Version) → t ≢ u → OuterRead trace t k (Some found) → Writer trace u k value → Below Serializable asked trace (Commit found.from) (Start u) → Below Serializable asked trace (Commit t) (Start u) }
    ensures none { (asked : Asked) (trace : Trace) (t u k value : ℕ) → t ≢ u → OuterRead trace t k None → Writer trace u k value → Below Serializable asked trace (Commit t) (Start u) }
{}

/// Stamps between which a chain of moments lies keep the order of time: each point is below the moment until which it
/// surely came, and above the one from which on it did.
pub fn chains_keep_time()
    ensures { (st : Stamping) (moments : Moments) (chain : ℕ → ℕ) → ((a b : ℕ) → a < b → chain a ≤ chain b) → ((x : Point) (m : ℕ) → moments.until x ≡ Some m → stamp_of st x < chain m) → ((x : Point) (m : ℕ) → moments.from x ≡ Some m → chain m < stamp_of st x) → Keeps (in_time moments) st }
{}

/// Where each next version is forced, a path of edges between neighbours that leads back to its own point refuses the trace.
pub fn graph_cycles_refuse()
    ensures { (level : Level) (asked : Asked) (trace : Trace) (orders : ℕ → List ℕ) (x : Point) → Listed trace orders → Forced level asked trace orders → Path asked trace orders x x → Stampable level asked trace → ⊥ }
{}

/// And stamps that rise along all these edges are stamps of the trace, whether the orders are forced or not.
pub fn graph_orders_stamp()
    ensures { (st : Stamping) (asked : Asked) (trace : Trace) (orders : ℕ → List ℕ) → Numbered st trace → Sourced trace → Listed trace orders → ((x y : Point) → Edge asked trace orders x y → stamp_of st x < stamp_of st y) → Stampable Snapshot asked trace }
{}

/// In a serial order, where stamps of one transaction after another, each at a place of its own, rise along all these
/// edges, they are stamps of the trace, whether the orders are forced or not.
pub fn serial_graph_orders_stamp()
    ensures { (at : ℕ → ℕ) (asked : Asked) (trace : Trace) (orders : ℕ → List ℕ) → PlacesDiffer at trace → Sourced trace → Listed trace orders → ((x y : Point) → Edge asked trace orders x y → stamp_of (one_by_one at) x < stamp_of (one_by_one at) y) → Stampable Serializable asked trace }
{}

/// And in a serial order what is forced between points of two transactions is forced of them whole. So a cycle of transactions,
/// each of which has a point that is forced below one of the next, refuses the trace.
pub fn serial_points_order_wholes()
    ensures { (asked : Asked) (trace : Trace) (x y : Point) → Done trace (owner x) → Done trace (owner y) → owner x ≢ owner y → Below Serializable asked trace x y → Below Serializable asked trace (Commit (owner x)) (Start (owner y)) }
{}

/// What nobody read may be left out: where a trace has stamps, it has them with fewer transactions that count as committed, as
/// long as those that count read from such alone. So of the choices for unknown outcomes the smallest decides.
pub fn unread_may_be_left_out()
    ensures { (level : Level) (asked : Asked) (less more : Trace) → Fewer less more → Stampable level asked more → Stampable level asked less }
{}

/// Neighbours in a list that was read follow one another in every stamping under which it is what is seen.
pub fn lists_force_orders()
    ensures { (level : Level) (st : Stamping) (trace : Trace) (s k place t u : ℕ) (writers : List ℕ) → IsolatedBy level st trace → SeesList st trace s k writers → slice_get writers place ≡ Some t → slice_get writers (suc place) ≡ Some u → st.commit t < st.start u }
{}

/// Where each of two that may not overlap surely started below the other's commit, the trace is refused.
pub fn overlaps_refuse()
    ensures { (level : Level) (asked : Asked) (trace : Trace) (t u : ℕ) → t ≢ u → Conflict level trace t u → Below level asked trace (Start t) (Commit u) → Below level asked trace (Start u) (Commit t) → Stampable level asked trace → ⊥ }
{}

/// Two that read one version of a key and wrote that key refuse the trace: an update is lost.
pub fn lost_updates_refuse()
    ensures { (level : Level) (asked : Asked) (trace : Trace) (t u k v w : ℕ) (found : Version) → t ≢ u → OuterRead trace t k (Some found) → OuterRead trace u k (Some found) → Writer trace t k v → Writer trace u k w → Stampable level asked trace → ⊥ }
{}
