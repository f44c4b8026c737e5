// What is seen of a part while it is locked. Each value is made by a look at a part alone.
ghost use Rattle.std.specs.Prelude.{◌≡◌, ◌==◌, if◌then◌else◌, None, Some};
ghost use Rattle.machine.specs.Readers as read;
ghost use Rattle.split_stores.specs.Seen.{doing_seen, sweep_seen};

use event_parts::Client;
use machine::Doing;
use split_parts::{JanitorPart, SessionPart};
use stamp_base::{NodeNo, SessionNo};
use system_parts::State;

/// What a session was doing when its part was looked at. The part of another session tells nothing of it: a lock does not tell
/// whose part it holds.
#[derive(Clone, Copy, Debug, PartialEq, Eq)]
pub struct SeenDoing {
    session: SessionNo,
    doing: Option<Doing>,
    asked: Option<NodeNo>,
}

impl SeenDoing {
    /// What the part tells of this session.
    pub(crate) fn at(session: SessionNo, part: &SessionPart) -> SeenDoing
        ensures { result ≡ doing_seen session part.now }
    {
        SeenDoing {
            session,
            doing: told_of(session, part),
            asked: part.asked(),
        }
    }

    /// Of which session it was seen.
    pub fn session(&self) -> SessionNo
        ensures { result ≡ self.now.session }
    {
        self.session
    }

    /// What it was doing, if this was its part.
    pub fn doing(&self) -> Option<Doing>
        ensures { result ≡ self.now.doing }
    {
        self.doing
    }

    /// The node that it had asked last, if it had asked one.
    pub fn asked(&self) -> Option<NodeNo>
        ensures { result ≡ self.now.asked }
    {
        self.asked
    }
}

/// Whether a sweep was open when the janitor's part was looked at.
#[derive(Clone, Copy, Debug, PartialEq, Eq)]
pub struct SeenSweep {
    is_open: bool,
}

impl SeenSweep {
    pub(crate) fn at(part: &JanitorPart) -> SeenSweep
        ensures { result ≡ sweep_seen part.now }
    {
        SeenSweep {
            is_open: part.sweep().is_some(),
        }
    }

    /// Whether a sweep was open.
    pub fn is_open(&self) -> bool
        ensures { result ≡ self.now.is_open }
    {
        self.is_open
    }
}

fn told_of(session: SessionNo, part: &SessionPart) -> Option<Doing>
    ensures { result ≡ (if part.now.number == session then Some (read.client_doing part.now.client) else None) }
{
    if part.number() == session {
        Some(doing_of(part.client()))
    } else {
        None
    }
}

fn doing_of(client: &Client) -> Doing
    ensures { result ≡ read.client_doing client.now }
{
    match client.state() {
        State::Free => Doing::Free,
        State::Asking | State::Committing => Doing::Waiting,
        State::Open if client.is_reading() => Doing::Reading,
        State::Open => Doing::Open,
        State::Placing => Doing::Placing,
        State::OpenOutcome => Doing::OpenOutcome,
        State::Completing { .. } => Doing::Completing,
        State::Gone => Doing::Gone,
    }
}
