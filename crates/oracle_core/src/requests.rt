// What is read off the requests that an instance holds.
ghost use Rattle.std.specs.Prelude.{◌≡◌, ℕ, List};
ghost use Rattle.system_parts.specs.Instance as entry;
ghost use Rattle.system_parts.specs.InstanceSteps as step;

use stamp_base::{SessionNo, Stamp};
use system_parts::{Held, Place, Progress, Request};

/// The session that made the request.
pub fn session_of(request: &Request) -> SessionNo
    ensures { result ≡ entry.session_of request.now }
{
    match request {
        Request::Begin { session } => *session,
        Request::Commit { session, .. } => *session,
    }
}

/// A request of which nothing was told yet.
pub fn just_asked(request: Request) -> Held
    ensures { result ≡ step.just_asked request }
{
    Held {
        request,
        progress: Progress::Asked,
        told_no_stamp: false,
        told_not_yet: false,
    }
}

/// The request, and how far it has come. None where none is held.
pub fn request_of(held: &Option<Held>) -> Option<(Request, Place)>
    ensures { result ≡ entry.request_of_held held.now }
{
    match held {
        None => None,
        Some(held) => Some((held.request, place_of_progress(&held.progress))),
    }
}

/// How far the request has come. None where none is held.
pub fn place_of(held: &Option<Held>) -> Option<Place>
    ensures { result ≡ entry.place_of_held held.now }
{
    match held {
        None => None,
        Some(held) => Some(place_of_progress(&held.progress)),
    }
}

fn place_of_progress(progress: &Progress) -> Place
    ensures { result ≡ entry.place_of_progress progress.now }
{
    match progress {
        Progress::Asked => Place::Asked,
        Progress::Accepted => Place::Accepted,
        Progress::Drawn { .. } => Place::Drawn,
        Progress::Settled { .. } | Progress::Handed { .. } => Place::Settled,
    }
}

/// Whether a request is held whose session was told to wait for an earlier commit.
pub fn told_not_yet(held: &Option<Held>) -> bool
    ensures { result ≡ entry.not_yet_of_held held.now }
{
    match held {
        None => false,
        Some(held) => held.told_not_yet,
    }
}

/// The start, and of a commit the commit, once it was drawn.
pub fn stamps_of(held: &Option<Held>) -> Option<(Stamp, Option<Stamp>)>
    ensures { result ≡ entry.stamps_of_held held.now }
{
    match held {
        None => None,
        Some(held) => match &held.request {
            Request::Begin { .. } => begin_stamps(&held.progress),
            Request::Commit { start, .. } => commit_stamps(*start, &held.progress),
        },
    }
}

fn begin_stamps(progress: &Progress) -> Option<(Stamp, Option<Stamp>)>
    ensures { (session : ℕ) → result ≡ entry.stamps_by (Request.Begin session) progress.now }
{
    match progress {
        Progress::Drawn { stamp } => Some((*stamp, None)),
        _ => None,
    }
}

fn commit_stamps(start: Stamp, progress: &Progress) -> Option<(Stamp, Option<Stamp>)>
    ensures { (session : ℕ) (keys : List ℕ) → result ≡ entry.stamps_by (Request.Commit session start keys) progress.now }
{
    match progress {
        Progress::Drawn { stamp } => Some((start, Some(*stamp))),
        Progress::Settled { commit, .. } | Progress::Handed { commit } => Some((
            start,
            Some(*commit),
        )),
        _ => None,
    }
}

/// The commit of a request that is drawn, and that the oracle is to place.
pub fn unsettled_commit(held: &Held) -> Option<Stamp>
    ensures { result ≡ entry.unsettled_by held.now.request held.now.progress }
{
    match held {
        Held {
            request: Request::Commit { .. },
            progress: Progress::Drawn { stamp },
            ..
        } => Some(*stamp),
        _ => None,
    }
}

/// The commit of the request that is held, where it is drawn and the oracle is to place it.
pub fn unsettled_of(held: &Option<Held>) -> Option<Stamp>
    ensures { result ≡ entry.unsettled_commit held.now }
{
    match held {
        None => None,
        Some(held) => unsettled_commit(held),
    }
}

/// The least commit below a start that was drawn and that the oracle is to place.
#[tactic(auto, unfolding(system_parts::specs::Instance::least_unsettled))]
pub fn least_unsettled(requests: &[Option<Held>], start: Stamp) -> Option<Stamp>
    ensures { result ≡ entry.least_unsettled requests.now start }
{
    let mut least = None;
    for held in requests {
        least = lesser(least, unsettled_below(held, start));
    }
    least
}

fn unsettled_below(held: &Option<Held>, start: Stamp) -> Option<Stamp>
    ensures { result ≡ entry.only_below start (entry.unsettled_commit held.now) }
{
    match held {
        Some(
            Held {
                request: Request::Commit { .. },
                progress: Progress::Drawn { stamp },
                ..
            },
        ) if *stamp < start => Some(*stamp),
        _ => None,
    }
}

fn lesser(a: Option<Stamp>, b: Option<Stamp>) -> Option<Stamp>
    ensures { result ≡ entry.lesser a b }
{
    match (a, b) {
        (None, other) => other,
        (some, None) => some,
        (Some(a), Some(b)) => Some(if b < a { b } else { a }),
    }
}
