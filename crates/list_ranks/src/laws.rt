// Why what lists tell decides whether stamps can be given with which they are read right.
ghost use Rattle.std.specs.Prelude.{ℕ, List};
ghost use Rattle.trace_rules.specs.declared.wanted.Level.{Level};
ghost use Rattle.trace_rules.specs.declared.wanted.Times.{Times};
ghost use Rattle.trace_rules.specs.declared.wanted.Wanted.{Wanted};
ghost use Rattle.trace_rules.specs.Stamping.{Asked, Stampable};
ghost use Rattle.trace_rules.specs.Trace.{Trace};
ghost use Rattle.version_ranks.specs.declared.rank.Rank.{Rank};
ghost use Rattle.version_ranks.specs.Ranks.{asked_with};
ghost use Rattle.list_orders.specs.declared.listing.Listing.{Listing};
ghost use Rattle.list_orders.specs.Listings.{ListsStampable};
ghost use Rattle.list_ranks.specs.declared.wrong.WrongList.{WrongList};
ghost use Rattle.list_ranks.specs.Told.{AreTold};
ghost use Rattle.list_ranks.specs.Wrong.{IsWrong};

/// Where ranks tell what lists do, stamps can be given that keep the ranks just where stamps can be given with which the lists are
/// read right.
pub fn told_lists_decide()
    ensures sees { (level : Level) (wanted : Wanted) (trace : Trace) (times : List Times) (listed : List ℕ) (lists : List Listing) (versions ranks : List Rank) → AreTold trace listed lists versions ranks →
        Stampable level (asked_with wanted level times ranks trace) trace → ListsStampable level (asked_with wanted level times versions trace) trace listed lists }
    ensures keeps { (level : Level) (wanted : Wanted) (trace : Trace) (times : List Times) (listed : List ℕ) (lists : List Listing) (versions ranks : List Rank) → AreTold trace listed lists versions ranks →
        ListsStampable level (asked_with wanted level times versions trace) trace listed lists → Stampable level (asked_with wanted level times ranks trace) trace }
{}

/// Where a list is wrong no stamps can be given, whatever is asked for.
pub fn wrong_lists_have_no_stamps()
    ensures { (level : Level) (asked : Asked) (trace : Trace) (listed : List ℕ) (lists : List Listing) (wrong : WrongList) → IsWrong trace listed lists wrong → ListsStampable level asked trace listed lists → ⊥ }
{}
