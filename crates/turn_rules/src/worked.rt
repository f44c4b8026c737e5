// Turns of a short script, and the history that they make.
ghost use Rattle.std.specs.Prelude.{◌≡◌, map};
ghost use Rattle.history_book.specs.declared.item.Actor.TheVariants.{Node, Session};
ghost use Rattle.turn_rules.specs.declared.ahead.NextAction.TheVariants.{Waits};
ghost use Rattle.turn_rules.specs.declared.ahead.Why.TheVariants.{Reply, Name};
ghost use Rattle.turn_rules.specs.Carried.{own_ahead, carried, carried_items};
ghost use Rattle.turn_rules.specs.WorkedTurns as worked;

/// A begin waits for its reply, and a node for a name. A commit is drawn while its node's persist stage is held; a crash ends
/// it, so that a later collect has nothing left to do, and every actor has passed its lines.
pub fn a_crash_ends_the_wait()
    ensures begin { own_ahead worked.script (carried worked.script worked.asked_turns) (Session 0) 0 ≡ Waits Reply }
    ensures name { own_ahead worked.script (carried worked.script worked.asked_turns) (Node 0) 0 ≡ Waits Name }
    ensures history { carried_items worked.script worked.whole_turns ≡ worked.items }
    ensures passed { map (λ seat. seat.place) (carried worked.script worked.whole_turns).seats ≡ worked.places }
{}
