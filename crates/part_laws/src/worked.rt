// Parts of a state, of none and of two, beside the definitions.
ghost use Rattle.std.specs.Prelude.{◌≡◌, [], ◌∷◌};
ghost use Rattle.port_io.specs.declared.weather.Fate.TheVariants.{Works};
ghost use Rattle.history_book.specs.declared.item.Item.TheVariants as item;
ghost use Rattle.machine.specs.declared.event.Event.TheVariants as timed;
ghost use Rattle.machine.specs.Machine.{stepped};
ghost use Rattle.split_parts.specs.declared.event.Event.TheVariants.{Accept};
ghost use Rattle.split_parts.specs.Agrees.{Agrees};
ghost use Rattle.split_parts.specs.Parts.{filled, with_lent};
ghost use Rattle.part_laws.specs.Local.{AreOf, IsLocal};
ghost use Rattle.part_laws.specs.Worked.{opened, free_session, vanished_session, asked, of_one_state, of_two_states};

/// A session's part of the opening state vanishes as the session does: by one item, and the state has what is left of it.
pub fn parts_of_a_state()
    ensures part { AreOf free_session opened }
    ensures items { (stepped (filled free_session) (timed.Vanish 0) Works).items ≡ item.Vanish 0 ∷ [] }
    ensures state { (stepped opened (timed.Vanish 0) Works).state ≡ with_lent opened vanished_session }
{}

/// One that has vanished is no part of that state, and its event is not the state's.
pub fn parts_of_no_state()
    ensures none { AreOf vanished_session opened → ⊥ }
    ensures other { IsLocal opened vanished_session (timed.Vanish 0) Works → ⊥ }
{}

/// A session that has asked and the node that holds its request agree; with the session as it was before they do not.
pub fn parts_of_two_states()
    ensures one { AreOf of_one_state asked × Agrees of_one_state (Accept 0 0) }
    ensures two { (AreOf of_two_states asked → ⊥) × (Agrees of_two_states (Accept 0 0) → ⊥) }
{}
