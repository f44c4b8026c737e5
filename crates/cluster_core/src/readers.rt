// What can be read of the state.
ghost use Rattle.std.specs.Prelude.{◌≡◌, ◌≤◌, length, Some};
ghost use Rattle.machine.specs.Readers as read;
ghost use Rattle.cluster_core.specs.Holders.{holds_commit, standing_held, standing_of};

use crate::ClusterState;
use event_parts::Client;
use machine::Doing;
use stamp_base::{NodeNo, SessionNo, Term};
use system_parts::{Held, Place, Request, State};
use takeover_core::Post;

impl ClusterState {
    /// The greatest reading that was handed in, at first 0.
    pub fn seen(&self) -> u64
        ensures { result ≡ self.now.state.seen }
    {
        self.seen
    }

    /// What the session is doing.
    pub fn doing(&self, session: SessionNo) -> Doing
        ensures { result ≡ read.doing_of self.now.state session }
    {
        doing_of(&self.clients[session.index()])
    }

    /// What the session has in flight: the node that holds its request, with the place where that stands, and whether it is a
    /// commit. Without a request it is none.
    pub fn in_flight(&self, session: SessionNo) -> (Option<(NodeNo, Place)>, bool)
        ensures { result ≡ (read.place_of self.now.state session, read.asks_commit self.now.state session) }
    {
        match holder_of(self.posts.as_slice(), session) {
            Some((node, place, commit)) => (Some((node, place)), commit),
            None => (None, false),
        }
    }

    /// The term of the node's instance. None where it has none.
    pub fn term_of(&self, node: NodeNo) -> Option<Term>
        ensures { result ≡ read.term_of self.now.state node }
    {
        if node.index() >= self.posts.len() {
            return None;
        }
        term_at(&self.posts[node.index()])
    }

    /// Whether a sweep is open.
    pub fn sweeping(&self) -> bool
        ensures { result ≡ read.sweeping self.now.state }
    {
        self.sweep.is_some()
    }
}

fn doing_of(client: &Client) -> Doing
    ensures { result ≡ read.client_doing client.now }
{
    match client.state() {
        State::Free => Doing::Free,
        State::Asking | State::Committing => Doing::Waiting,
        State::Open if client.is_reading() => Doing::Reading,
        State::Open => Doing::Open,
        State::Placing => Doing::Placing,
        State::OpenOutcome => Doing::OpenOutcome,
        State::Completing { .. } => Doing::Completing,
        State::Gone => Doing::Gone,
    }
}

#[tactic(auto, using(crate::proofs::PostTerms::term_of_post))]
fn term_at(post: &Post) -> Option<Term>
    ensures { result ≡ read.term_at (Some post.now) }
{
    post.term_of()
}

/// The first node that holds a request of the session, where that stands, and whether it is a commit.
fn holder_of(posts: &[Post], session: SessionNo) -> Option<(NodeNo, Place, bool)>
    requires { length posts.now ≤ 8 }
    ensures { result ≡ standing_held (read.holder_from 0 posts.now session) }
{
    for i in 0..posts.len() {
        if let Some((place, commit)) = standing_at(&posts[i], session) {
            let Some(node) = NodeNo::new(i as u64) else {
                unreachable!();
            };
            return Some((node, place, commit));
        }
    }
    None
}

fn standing_at(post: &Post, session: SessionNo) -> Option<(Place, bool)>
    ensures { result ≡ standing_of (read.held_at post.now session) }
{
    match &post.instance {
        Some(instance) => {
            let place = instance.place(session)?;
            Some((place, is_commit(&instance.requests()[session.index()])))
        }
        None => None,
    }
}

fn is_commit(held: &Option<Held>) -> bool
    ensures { result ≡ holds_commit held.now }
{
    match held {
        Some(held) => matches!(held.request, Request::Commit { .. }),
        None => false,
    }
}
