// A run in which the bound is reached.
ghost use Rattle.std.specs.Prelude.{◌≡◌};
ghost use Rattle.turn_rules.specs.Carried.{carried_items};
ghost use Rattle.turn_rules.specs.Lawful.{AreLawful};
ghost use Rattle.request_latency.specs.Latency.{services};
ghost use Rattle.request_latency.specs.Worked as worked;

/// With ranges of one stamp, a commit and a begin find none left at first, and the begin is answered before the commit's put has
/// ended: each is served by four turns after its acceptance. All turns of the run are lawful.
pub fn two_requests_at_the_bound()
    ensures history { carried_items worked.script worked.all_turns ≡ worked.items }
    ensures lawful { AreLawful worked.script worked.all_turns }
    ensures commit { services 0 worked.behind_commit ≡ 4 }
    ensures begin { services 1 worked.behind_begin ≡ 4 }
{}
