// How long a request takes where a script is carried out by turns.
ghost use Rattle.request_latency.specs.Latency.{RequestsEndWithin, RunsServeWithin, RequestsKeepToWhatIsLeft};

use turn_rules::turns_keep_facts;

/// From the turn that accepts a session's request to the next that does, at most four others serve the session: two decisions,
/// of which the first finds no stamp left, and then the put and the answer of a commit, or two answers of a begin, of which the
/// first tells it to wait. So a request takes five turns at most.
pub fn requests_end_within()
    ensures { RequestsEndWithin 4 }
{
    turns_keep_facts();
}

/// In all turns from the first on, a session's requests are served by at most four turns for each acceptance.
pub fn runs_serve_within()
    ensures { RunsServeWithin 4 }
{}

/// A request that has come so far is served by no more turns than are left to it.
pub fn requests_keep_to_what_is_left()
    ensures { RequestsKeepToWhatIsLeft }
{
    turns_keep_facts();
}
