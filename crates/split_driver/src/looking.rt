// What the run of an actor's line looks at.
ghost use Rattle.std.specs.Prelude.{◌≡◌};
ghost use Rattle.split_driver.specs.Sights.{IsSightOf, commit_found, may_wait, place_found, view_of};

use command_semantics::View;
use history_book::Actor;
use machine::Doing;
use split_stores::{HeldRequest, SeenDoing, SeenRequest, SeenSweep, Split};
use stamp_base::{NodeNo, SessionNo};
use std::sync::Wait;
use system_parts::{Place, Request};

/// What was seen of an actor's parts.
#[derive(Clone, Copy, Debug, PartialEq, Eq)]
pub(crate) enum Sight {
    Session {
        doing: SeenDoing,
        request: SeenRequest,
    },
    Janitor {
        sweep: SeenSweep,
    },
    /// The runs of the clock's lines and of a node's look at nothing.
    Nothing,
}

/// Looks at the parts of the actor.
pub(crate) fn look<R: Wait>(rt: &R, split: &Split, actor: Actor) -> Sight
    ensures { IsSightOf actor result }
{
    match actor {
        Actor::Session(session) => look_at_session(rt, split, session),
        Actor::Janitor => Sight::Janitor {
            sweep: split.sweeping(rt),
        },
        Actor::Clock | Actor::Node(_) => Sight::Nothing,
    }
}

fn look_at_session<R: Wait>(rt: &R, split: &Split, session: SessionNo) -> Sight
    ensures { IsSightOf (Actor.Session session) result }
{
    let doing = split.doing(rt, session);
    if may_wait(&doing.doing()) {
        look_for_request(rt, split, session, doing.asked())
    } else {
        let request = SeenRequest::none(session);
        Sight::Session { doing, request }
    }
}

/// The session is looked at behind its request, which may have ended meanwhile.
fn look_for_request<R: Wait>(
    rt: &R,
    split: &Split,
    session: SessionNo,
    asked: Option<NodeNo>,
) -> Sight
    ensures { IsSightOf (Actor.Session session) result }
{
    let request = split.request_of(rt, session, asked);
    let doing = split.doing(rt, session);
    Sight::Session { doing, request }
}

/// Whether the session may wait for a request.
fn may_wait(doing: &Option<Doing>) -> bool
    ensures { result ≡ may_wait doing.now }
{
    !matches!(
        doing,
        Some(Doing::Free | Doing::Open | Doing::Reading | Doing::Completing | Doing::Placing)
    )
}

impl Sight {
    /// What is seen, as the run of a line in file order sees it.
    pub(crate) fn view(&self) -> View
        ensures { result ≡ view_of self.now }
    {
        match self {
            Sight::Session { doing, request } => View {
                doing: doing.doing().unwrap_or(Doing::Gone),
                request: place_found(&request.found()),
                commit: commit_found(&request.found()),
                sweeping: false,
            },
            Sight::Janitor { sweep } => View {
                doing: Doing::Gone,
                request: None,
                commit: false,
                sweeping: sweep.is_open(),
            },
            Sight::Nothing => View {
                doing: Doing::Gone,
                request: None,
                commit: false,
                sweeping: false,
            },
        }
    }
}

fn place_found(found: &Option<HeldRequest>) -> Option<(NodeNo, Place)>
    ensures { result ≡ place_found found.now }
{
    match found {
        Some(held) => Some((held.node, held.place)),
        None => None,
    }
}

fn commit_found(found: &Option<HeldRequest>) -> bool
    ensures { result ≡ commit_found found.now }
{
    match found {
        Some(held) => matches!(held.request, Request::Commit { .. }),
        None => false,
    }
}
