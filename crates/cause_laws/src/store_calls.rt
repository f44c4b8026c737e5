// The calls on the cells and the commit table: of sessions, and of the janitor.
ghost use Rattle.std.specs.Prelude.{List};
ghost use Rattle.history_book.specs.declared.item.Item.{Item};
ghost use Rattle.machine.specs.State.{State};
ghost use Rattle.cause_laws.specs.ShownInvariant.{ExplainedInvariant};
ghost use Rattle.cause_laws.specs.StoreCalls.{WriteMayBeMade, HealMayBeMade, ReadMayGoOn, StepMayBeMade, SweepMayStep, PlacingMayBeMade};

/// A write comes upon a bare cell of its transaction, or none.
pub fn write_may_be_made()
    ensures { (w : State) (h : List Item) → ExplainedInvariant w h → WriteMayBeMade w }
{}

/// A heal sets the only shadow that its cell may have.
pub fn heal_may_be_made()
    ensures { (w : State) (h : List Item) → ExplainedInvariant w h → HealMayBeMade w }
{}

/// A read that is under way goes over fetched cells, the greatest version first, and marks no version above its epoch.
pub fn read_may_go_on()
    ensures { (w : State) (h : List Item) → ExplainedInvariant w h → ReadMayGoOn w }
{}

/// A step that is not refused has something to ask, and sets no shadow but the only one that its cell may have.
pub fn step_may_be_made()
    ensures { (w : State) (h : List Item) → ExplainedInvariant w h → StepMayBeMade w }
{}

/// So has a step of the open sweep.
pub fn sweep_may_step()
    ensures { (w : State) (h : List Item) → ExplainedInvariant w h → SweepMayStep w }
{}

/// The placing of a session never finds a commit: what it finds in its place is a mark.
pub fn placing_may_be_made()
    ensures { (w : State) (h : List Item) → ExplainedInvariant w h → PlacingMayBeMade w }
{}
