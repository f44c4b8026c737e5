// Lists and the order of versions that they tell.
ghost use Rattle.std.specs.Prelude.{◌≡◌, ◌≢◌, ℕ, suc, ◌<◌, ◌≤◌, List, [], ◌∷◌, None, Some, length, slice_get, take};
ghost use Rattle.trace_rules.specs.declared.trace.Version.{Version};
ghost use Rattle.trace_rules.specs.declared.wanted.Level.{Level};
ghost use Rattle.trace_rules.specs.Trace.{Done, Trace, Writer, last_of};
ghost use Rattle.trace_rules.specs.Stamping.{IsolatedBy, Keeps, Newest, Stamping};
ghost use Rattle.version_ranks.specs.declared.rank.Rank.{Rank};
ghost use Rattle.version_ranks.specs.Ranks.{by_rank};
ghost use Rattle.list_orders.specs.Lists.{SeesValues, WriteAt};
ghost use Rattle.list_orders.specs.WorkedLists.{appended, in_turn};
ghost use Rattle.list_orders.specs.Told.{IsBegun, IsRanked, TellsKey};

/// Where a key's longest list is read right, the writers of lower versions that it tells are committed before those of higher ones
/// start. And where they are, a list that it begins with is read right: where its last member is what the reader saw last of others,
/// or what it wrote last itself; or it has none, and the reader saw nothing.
pub fn lists_tell_orders()
    ensures first { (level : Level) (trace : Trace) (st : Stamping) (ranks : List Rank) (name k place t n m a b : ℕ) (values : List ℕ) → IsolatedBy level st trace → TellsKey trace ranks name k values → Done trace t →
        SeesValues st trace place t k values → IsRanked ranks name n a → IsRanked ranks name m b → n < m → st.commit a < st.start b }
    ensures others { (level : Level) (trace : Trace) (st : Stamping) (ranks : List Rank) (name k place t l vl : ℕ) (all values : List ℕ) → IsolatedBy level st trace → (tells : TellsKey trace ranks name k all) → Keeps (by_rank ranks) st → IsBegun all values → Done trace t →
        suc l ≡ length values → slice_get values l ≡ Some vl → Newest st trace (st.start t) k (record { from = tells.writer l; value = vl }) → last_of (take place trace.operations) t k ≡ None → SeesValues st trace place t k values }
    ensures own { (level : Level) (trace : Trace) (st : Stamping) (ranks : List Rank) (name k place t l vl : ℕ) (all values : List ℕ) → IsolatedBy level st trace → (tells : TellsKey trace ranks name k all) → Keeps (by_rank ranks) st → IsBegun all values → Done trace t →
        suc l ≡ length values → slice_get values l ≡ Some vl → tells.writer l ≡ t → last_of (take place trace.operations) t k ≡ Some vl → SeesValues st trace place t k values }
    ensures nothing { (level : Level) (trace : Trace) (st : Stamping) (k place t : ℕ) (values : List ℕ) → IsolatedBy level st trace →
        length values ≡ 0 → ((w v : ℕ) → Writer trace w k v → st.commit w < st.start t → ⊥) → last_of (take place trace.operations) t k ≡ None → SeesValues st trace place t k values }
{}

/// Lists that no stamps give: of one writer a later member stands before an earlier one, or is it; a member of another writer stands
/// between two of one; nobody who was committed wrote a member; a writer's value is missing that stands before one of its members,
/// or where another writer's member comes behind; two lists have different values behind the same ones.
pub fn wrong_lists_refuse()
    ensures turned { (st : Stamping) (trace : Trace) (place t k i j v x q r w : ℕ) (values : List ℕ) → SeesValues st trace place t k values → i < j → slice_get values i ≡ Some v → slice_get values j ≡ Some x → WriteAt trace q w k v → WriteAt trace r w k x → r ≤ q → ⊥ }
    ensures split { (st : Stamping) (trace : Trace) (place t k i j l v x y q w r u s : ℕ) (values : List ℕ) → SeesValues st trace place t k values → i < j → j < l → slice_get values i ≡ Some v → slice_get values j ≡ Some x → slice_get values l ≡ Some y →
        WriteAt trace q w k v → WriteAt trace r u k x → WriteAt trace s w k y → w ≢ u → ⊥ }
    ensures dirty { (st : Stamping) (trace : Trace) (place t k i v q w : ℕ) (values : List ℕ) → SeesValues st trace place t k values → Done trace t → slice_get values i ≡ Some v → ((r u : ℕ) → WriteAt trace r u k v → r ≡ q) → WriteAt trace q w k v → (Done trace w → ⊥) → ⊥ }
    ensures missing { (st : Stamping) (trace : Trace) (place t k i v q r w x : ℕ) (values : List ℕ) → SeesValues st trace place t k values → slice_get values i ≡ Some v → ((s u : ℕ) → WriteAt trace s u k v → s ≡ q) → WriteAt trace q w k v → WriteAt trace r w k x → r < q →
        ((j : ℕ) → slice_get values j ≡ Some x → ⊥) → ⊥ }
    ensures cut { (level : Level) (st : Stamping) (trace : Trace) (place t k i j v y q w r u s x : ℕ) (values : List ℕ) → SeesValues st trace place t k values → IsolatedBy level st trace → Done trace t → i < j → slice_get values i ≡ Some v → slice_get values j ≡ Some y →
        ((a b : ℕ) → WriteAt trace a b k v → a ≡ q) → ((a b : ℕ) → WriteAt trace a b k y → a ≡ r) → WriteAt trace q w k v → WriteAt trace r u k y → w ≢ u → WriteAt trace s w k x → ((l : ℕ) → slice_get values l ≡ Some x → ⊥) → ⊥ }
    ensures different { (level : Level) (st : Stamping) (trace : Trace) (k place t other s i x y : ℕ) (values lacking : List ℕ) → IsolatedBy level st trace → Done trace t → Done trace s → SeesValues st trace place t k values → SeesValues st trace other s k lacking →
        ((j v : ℕ) → j < i → slice_get lacking j ≡ Some v → slice_get values j ≡ Some v) → ((j v : ℕ) → j < i → slice_get values j ≡ Some v → slice_get lacking j ≡ Some v) → slice_get values i ≡ Some x → slice_get lacking i ≡ Some y → x ≢ y → ⊥ }
{}

/// Of two appends, one after the other, the list of both in that order is what a reader behind them sees, and neither the other order
/// nor the first one alone.
pub fn appends_are_listed_in_turn()
    ensures both { SeesValues in_turn appended 2 2 7 (1 ∷ 2 ∷ []) }
    ensures turned { SeesValues in_turn appended 2 2 7 (2 ∷ 1 ∷ []) → ⊥ }
    ensures short { SeesValues in_turn appended 2 2 7 (1 ∷ []) → ⊥ }
{}
