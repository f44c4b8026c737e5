// The laws of an oracle's instance, over every state and every call.
ghost use Rattle.std.specs.Prelude.{◌≡◌, ◌≢◌, ◌<◌, ◌≤◌, ◌++◌, ℕ, Bool, List, [], length, All, Option, None, Some, Ok, Err};
ghost use Rattle.history_book.specs.declared.cause.Cause.{Cause};
ghost use Rattle.system_parts.specs.declared.instance.Held.{Held};
ghost use Rattle.system_parts.specs.declared.buckets.Recorded.{Recorded};
ghost use Rattle.system_parts.specs.declared.record.Grant.{Grant};
ghost use Rattle.system_parts.specs.declared.instance.Decided.{Decided};
ghost use Rattle.system_parts.specs.declared.instance.Reply.TheVariants.{Begun};
ghost use Rattle.system_parts.specs.Instance.{InstanceEntry, instance_new, held_of, with_request, least_unsettled};
ghost use Rattle.system_parts.specs.InstanceSteps.{instance_decide, instance_answer};
ghost use Rattle.system_parts.specs.InstanceLaws as law;

/// A session's request is its own: it is found where it was put, and the requests of the others are as before.
pub fn requests_stand_apart()
    ensures same { (i : InstanceEntry) (session : ℕ) (now : Option Held) → session < length i.requests → held_of (with_request i session now) session ≡ now }
    ensures others { (i : InstanceEntry) (session other : ℕ) (now : Option Held) → other ≢ session → held_of (with_request i session now) other ≡ held_of i other }
{}

/// A new instance holds no request. Each session keeps its place, and a call on one leaves the requests of the others.
pub fn calls_leave_other_requests()
    ensures granted { (grant : Grant) (node count width slots session : ℕ) (direct : Bool) → held_of (instance_new grant node count width slots direct) session ≡ None }
    ensures places { (i : InstanceEntry) (call : law.InstanceCall) → length (law.after_call i call).requests ≡ length i.requests }
    ensures others { (i : InstanceEntry) (call : law.InstanceCall) (other : ℕ) → law.call_session call ≢ Some other → held_of (law.after_call i call) other ≡ held_of i other }
{}

/// Only a decision that draws a stamp changes more of an instance than its requests.
pub fn decisions_alone_draw()
    ensures others { (i : InstanceEntry) (call : law.InstanceCall) → law.IsNoDecision call → law.ChangesRequestsAlone i (law.after_call i call) }
    ensures refused { (i : InstanceEntry) (session : ℕ) (why : Cause) → (instance_decide i session).answer ≡ Err why → law.ChangesRequestsAlone i (instance_decide i session).left }
{}

/// No more requests are held than there are slots.
pub fn requests_fit_the_slots()
    ensures granted { (grant : Grant) (node count width slots : ℕ) (direct : Bool) → law.FitsItsSlots (instance_new grant node count width slots direct) }
    ensures kept { (i : InstanceEntry) (call : law.InstanceCall) → law.FitsItsSlots i → law.FitsItsSlots (law.after_call i call) }
{}

/// The grant of an instance stays, and its stamps, its range and its lease never go down.
pub fn instances_go_up()
    ensures { (i : InstanceEntry) (call : law.InstanceCall) → law.CanCall i call → law.GoesUp i (law.after_call i call) }
{}

/// The last stamp is at least the epoch, and at most the end of the range.
pub fn last_stamps_stay_in_range()
    ensures granted { (grant : Grant) (node count width slots : ℕ) (direct : Bool) → grant.epoch ≤ grant.ceiling → law.IsInRange (instance_new grant node count width slots direct) }
    ensures kept { (i : InstanceEntry) (call : law.InstanceCall) → law.CanCall i call → law.IsInRange i → law.IsInRange (law.after_call i call) }
{}

/// A stamp that is drawn is one above the last, above the epoch and in the range.
pub fn drawn_stamps_are_next()
    ensures { (i : InstanceEntry) (session : ℕ) (drawn : Decided) → law.IsInRange i → (instance_decide i session).answer ≡ Ok drawn →
        law.DrawsNext i (law.stamp_of drawn) (instance_decide i session).left }
{}

/// What was drawn for a request that is held lies above the epoch, and is at most the last stamp.
pub fn stamps_of_requests_stay_between()
    ensures granted { (grant : Grant) (node count width slots : ℕ) (direct : Bool) → law.AreDrawnWithin (instance_new grant node count width slots direct) }
    ensures kept { (i : InstanceEntry) (call : law.InstanceCall) → i.epoch ≤ i.last → law.AreDrawnWithin i → law.AreDrawnWithin (law.after_call i call) }
{}

/// The commit that a begin is told to wait for is the least below its start that was drawn and is not settled.
pub fn least_unsettled_is_the_least()
    ensures none { (requests : List (Option Held)) (start : ℕ) → least_unsettled requests start ≡ None → All (law.IsNotBelow start) requests }
    ensures some { (requests : List (Option Held)) (start commit : ℕ) → least_unsettled requests start ≡ Some commit → law.IsLeastUnsettled start commit requests }
{}

/// A begin is answered with the instance's epoch, and only where each commit that was drawn below its start is settled.
pub fn begins_wait_for_commits()
    ensures epoch { (i : InstanceEntry) (session start epoch : ℕ) → (instance_answer i session).answer ≡ Ok (Begun start epoch) → epoch ≡ i.epoch }
    ensures settled { (i : InstanceEntry) (session start epoch : ℕ) → (instance_answer i session).answer ≡ Ok (Begun start epoch) →
        All (law.IsNotBelow start) i.requests }
{}

/// The buckets hold the pairs that decisions recorded, whose commits rise and are at most the last stamp: so what the
/// buckets tell of such pairs holds of an instance.
pub fn recorded_commits_rise()
    ensures granted { (grant : Grant) (node count width slots : ℕ) (direct : Bool) → law.IsRecordedIn count width [] (instance_new grant node count width slots direct) }
    ensures kept { (count width : ℕ) (pairs : List Recorded) (i : InstanceEntry) (call : law.InstanceCall) → law.IsRecordedIn count width pairs i →
        law.IsRecordedIn count width (pairs ++ law.call_pairs i call) (law.after_call i call) }
{}

/// A commit that is drawn has, for each of its keys, no recorded commit above its start.
pub fn drawn_commits_are_free()
    ensures { (count width : ℕ) (pairs : List Recorded) (i : InstanceEntry) (session : ℕ) (drawn : Decided) →
        1 ≤ count → 1 ≤ width → law.IsRecordedIn count width pairs i → (instance_decide i session).answer ≡ Ok drawn →
        law.HeldIsFree pairs (held_of i session) }
{}
