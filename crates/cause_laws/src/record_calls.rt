// The calls on the master record, and the draws within what it gave.
ghost use Rattle.std.specs.Prelude.{List};
ghost use Rattle.history_book.specs.declared.item.Item.{Item};
ghost use Rattle.machine.specs.State.{State};
ghost use Rattle.cause_laws.specs.ShownInvariant.{ExplainedInvariant};
ghost use Rattle.cause_laws.specs.Bounds.{Bounded, PartsAreCounted, TakeMayBeMade, RenewalMayBeMade, ExtensionMayBeMade, DrawMayBeMade};

/// There are 16 clients, and as many posts as the setup has nodes.
pub fn parts_are_counted()
    ensures { (w : State) (h : List Item) → ExplainedInvariant w h → Bounded w → PartsAreCounted w }
{}

/// What a take grants fits into the machine's numbers.
pub fn take_may_be_made()
    ensures { (w : State) (h : List Item) → ExplainedInvariant w h → Bounded w → TakeMayBeMade w }
{}

/// The end of a renewed lease fits into the machine's numbers.
pub fn renewal_may_be_made()
    ensures { (w : State) (h : List Item) → ExplainedInvariant w h → Bounded w → RenewalMayBeMade w }
{}

/// No instance's range ends above the record's, so that an extension makes it wider.
pub fn extension_may_be_made()
    ensures { (w : State) (h : List Item) → ExplainedInvariant w h → ExtensionMayBeMade w }
{}

/// An instance draws within its range, and stamps alone.
pub fn draw_may_be_made()
    ensures { (w : State) (h : List Item) → ExplainedInvariant w h → Bounded w → DrawMayBeMade w }
{}
