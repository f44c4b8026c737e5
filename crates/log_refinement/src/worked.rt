// Small examples beside the definitions: what pays an ask, and what does not.
ghost use Rattle.std.specs.Prelude.{◌≡◌, [], ◌∷◌};
ghost use Rattle.history_book.specs.declared.item.Actor.TheVariants.{Session};
ghost use Rattle.history_book.specs.declared.item.Item.TheVariants.{Crash};
ghost use Rattle.split_parts.specs.declared.event.Event.TheVariants as event;
ghost use Rattle.log_refinement.specs.declared.owed.Due.TheVariants as due;
ghost use Rattle.log_refinement.specs.declared.owed.Owed.TheVariants.{Answer, Denied};
ghost use Rattle.log_refinement.specs.Owed.{after_due};
ghost use Rattle.log_refinement.specs.Served.{HasEnded};
ghost use Rattle.log_refinement.specs.Worked.{no_request, alone, with_stage, asked_and, asks_and};

/// That a node has no request of the session counts where its event is due, and nowhere else.
pub fn denials_count_where_they_are_due()
    ensures due { after_due (Session 0) (event.Accept 0 0) (no_request 0 0 ∷ []) (Answer 0 due.Accept) ≡ Denied }
    ensures early { after_due (Session 0) (event.Answer 0 0) (no_request 0 0 ∷ []) (Answer 0 due.Accept) ≡ Answer 0 due.Accept }
    ensures elsewhere { after_due (Session 0) (event.Accept 1 0) (no_request 1 0 ∷ []) (Answer 0 due.Accept) ≡ Answer 0 due.Accept }
    ensures other { after_due (Session 0) (event.Accept 0 1) (no_request 0 1 ∷ []) (Answer 0 due.Accept) ≡ Answer 0 due.Accept }
{}

/// An ask that was denied has ended where a line of a stage serves the session, or the node has crashed, and not otherwise.
pub fn denials_have_a_reason()
    ensures stage { HasEnded (with_stage 0) (asked_and (no_request 0 0 ∷ [])) (asks_and (no_request 0 0 ∷ [])) }
    ensures crash { HasEnded alone (asked_and (Crash 0 1 ∷ no_request 0 0 ∷ [])) (asks_and (Crash 0 1 ∷ no_request 0 0 ∷ [])) }
    ensures none { HasEnded alone (asked_and (no_request 0 0 ∷ [])) (asks_and (no_request 0 0 ∷ [])) → ⊥ }
    ensures other { HasEnded (with_stage 1) (asked_and (no_request 0 0 ∷ [])) (asks_and (no_request 0 0 ∷ [])) → ⊥ }
{}
