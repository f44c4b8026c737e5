// Short scripts with turns of them: once all premises hold and what is asked for is granted, and once one of them is lacking and
// it is refused. Other turns come in between.
ghost use Rattle.std.specs.Prelude.{◌≡◌, ◌∷◌, []};
ghost use Rattle.stamp_base.specs.declared.stores.Store.TheVariants.{Cells, Table};
ghost use Rattle.history_book.specs.Members.{◌∈◌};
ghost use Rattle.history_book.specs.declared.item.Actor.TheVariants.{Session};
ghost use Rattle.history_book.specs.declared.item.Item.TheVariants.{Begin, Committed};
ghost use Rattle.script_data.specs.declared.line.Target.TheVariants.{Master};
ghost use Rattle.turn_rules.specs.Carried.{carried, carried_items};
ghost use Rattle.turn_rules.specs.Lawful.{IsLawful};
ghost use Rattle.turn_rules.specs.declared.turn.Turn.TheVariants.{Own, Accept, Decide, Put};
ghost use Rattle.grant_laws.specs.Premises.{CanWrite, CanTake, CanFetch};
ghost use Rattle.grant_laws.specs.Lines.{at_ask, node_aimed, CanBeginBy, CanCommitBy};
ghost use Rattle.grant_laws.specs.Stuck.{IsStuck, AwaitsName, StandsBefore};
ghost use Rattle.grant_laws.specs.Worked as worked;
ghost use Rattle.grant_laws.specs.WorkedRuns as runs;

use crate::runs::{runs_grant_begins, runs_grant_commits};

/// A free record is taken. By another node at the same time it is not.
pub fn a_take_on_threads()
    ensures can { CanTake worked.taking (carried worked.taking []).played 0 }
    ensures granted { carried_items worked.taking runs.take_turn ≡ worked.taking_items }
    ensures refused { carried_items worked.taking_again runs.take_turns ≡ worked.taking_again_items }
{}

/// A write is made. Where the cells fail, all else being the same, its transaction ends.
pub fn a_write_on_threads()
    ensures can { CanWrite worked.writing (carried worked.writing runs.begun).played 0 0 }
    ensures granted { carried_items worked.writing runs.one_more ≡ worked.writing_items }
    ensures refused { carried_items (worked.failing Cells worked.writing) runs.one_more ≡ runs.failed_write_items }
{}

/// A begin has its start, while another session begins. At the end of the lease it is refused.
pub fn a_begin_on_threads()
    ensures can { CanBeginBy runs.beginning 0 0 runs.to_begin (Decide 0 1 ∷ []) }
    ensures granted { carried_items runs.beginning runs.begin_turns ≡ runs.beginning_items }
    ensures refused { carried_items runs.beginning_late runs.late_turns ≡ runs.late_items }
{}

/// A begin that names the master is granted, by the law, by the node at which its session's share is aimed, once that has taken the
/// record. Aimed at the first node, whose lease has ended, it is refused.
pub fn a_master_begin_on_threads()
    ensures asks { node_aimed worked.asking_master (at_ask worked.asking_master runs.to_master) 1 Master ≡ 1 }
    ensures can { CanBeginBy worked.asking_master 0 1 runs.to_master [] }
    ensures granted { Begin 0 101 ∈ carried_items worked.asking_master runs.master_turns }
    ensures refused { carried_items worked.asking_master runs.first_turns ≡ runs.first_items }
{
    runs_grant_begins();
}

/// A begin that is answered while a commit drawn below it is not settled is told to wait, once, and has its start when the commit
/// is settled, here by a put that failed.
pub fn an_early_answer_on_threads()
    ensures can { CanBeginBy runs.waiting 1 0 runs.to_wait runs.early }
    ensures granted { carried_items runs.waiting runs.wait_turns ≡ runs.wait_items }
{}

/// A commit is granted, by the law, while another session begins. Where its put fails, all else being the same, its outcome is
/// open.
pub fn a_commit_on_threads()
    ensures can { CanCommitBy runs.committing 0 0 0 runs.to_commit (Accept 0 1 ∷ []) (Decide 0 1 ∷ []) }
    ensures granted { Committed 0 1 2 ∈ carried_items runs.committing runs.commit_turns }
    ensures refused { carried_items (worked.failing Table runs.committing) runs.commit_turns ≡ runs.failed_commit_items }
{
    runs_grant_commits();
}

/// A commit that its session places is granted, by the law, while another session begins. Where the placing fails, all else being
/// the same, its outcome is open.
pub fn a_direct_commit_on_threads()
    ensures can { CanCommitBy (worked.directly runs.committing) 0 0 0 runs.to_commit (Accept 0 1 ∷ []) (Decide 0 1 ∷ []) }
    ensures granted { Committed 0 1 2 ∈ carried_items (worked.directly runs.committing) runs.direct_turns }
    ensures refused { carried_items (worked.failing Table (worked.directly runs.committing)) runs.direct_turns ≡ runs.failed_direct_items }
{
    runs_grant_commits();
}

/// A read has its answer. Where the cells fail, all else being the same, it has none.
pub fn a_read_on_threads()
    ensures can { CanFetch worked.reading (carried worked.reading runs.begun).played 0 0 }
    ensures granted { carried_items worked.reading runs.one_more ≡ worked.reading_items }
    ensures refused { carried_items (worked.failing Cells worked.reading) runs.one_more ≡ worked.failed_read_items }
{}

/// A line that awaits a name which nobody posts waits, and no turn can be made. Where another line posts it one can.
pub fn a_name_on_threads()
    ensures stuck { IsStuck runs.awaiting [] }
    ensures waits { AwaitsName runs.awaiting (carried runs.awaiting []) runs.first_seat }
    ensures goes_on { IsLawful runs.posting (carried runs.posting []) (Own (Session 1) 0) }
{}

/// A commit that is drawn waits behind a persist stage that is held, and no turn can be made. Before the hold its put can.
pub fn a_hold_on_threads()
    ensures stuck { IsStuck runs.holding runs.held_turns }
    ensures waits { StandsBefore (carried runs.holding runs.held_turns) 0 }
    ensures goes_on { IsLawful runs.holding (carried runs.holding runs.drawn_turns) (Put 0 0) }
{}
