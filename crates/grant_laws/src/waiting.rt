// What a script that is carried out by turns can wait for.
ghost use Rattle.grant_laws.specs.Stuck.{StuckRunsWait};

use turn_rules::{own_turns_are_told, stage_turns_are_told, turns_keep_facts};

/// Where no turn can be made, each actor has passed all its lines, or awaits a name that no turn has posted, or waits for a
/// request that stands before a stage of its node that is held; a begin may wait for a commit that does. So a script is never
/// stuck in the order of its turns where the names that it awaits are posted by lines that wait for nothing later, and its
/// holds are freed.
pub fn stuck_runs_wait()
    ensures { StuckRunsWait }
{
    own_turns_are_told();
    stage_turns_are_told();
    turns_keep_facts();
}
