// Why the order of two writers is forced, and what follows of it for readers.
ghost use Rattle.std.specs.Prelude.{◌≢◌, ℕ, ◌<◌, None, Some};
ghost use Rattle.trace_rules.specs.declared.trace.Version.{Version};
ghost use Rattle.trace_rules.specs.declared.wanted.Level.{Level};
ghost use Rattle.trace_rules.specs.Trace.{OuterRead, Trace, Writer};
ghost use Rattle.trace_rules.specs.Stamping.{IsolatedBy, Stamping};

/// Under all stamps that make a trace isolated: of two writers of a key, the one that starts below the other's commit is committed
/// before the other starts; a reader starts below the commit of each version after the one that it read; a version that is
/// committed below a reader's start comes before the one that it read; and a reader that found nothing starts below the
/// commit of each version.
pub fn orders_are_forced()
    ensures writers { (level : Level) (trace : Trace) (st : Stamping) → IsolatedBy level st trace → (t u k v w : ℕ) → t ≢ u → Writer trace t k v → Writer trace u k w → st.start t < st.commit u → st.commit t < st.start u }
    ensures missed { (level : Level) (trace : Trace) (st : Stamping) → IsolatedBy level st trace → (r u k value : ℕ) (found : Version) → OuterRead trace r k (Some found) → Writer trace u k value → st.commit found.from < st.start u → st.start r < st.commit u }
    ensures seen { (level : Level) (trace : Trace) (st : Stamping) → IsolatedBy level st trace → (r u k value : ℕ) (found : Version) → u ≢ found.from → OuterRead trace r k (Some found) → Writer trace u k value → st.commit u < st.start r → st.commit u < st.start found.from }
    ensures none { (level : Level) (trace : Trace) (st : Stamping) → IsolatedBy level st trace → (r u k value : ℕ) → OuterRead trace r k None → Writer trace u k value → st.start r < st.commit u }
{}
