// The nodes, looked at one after the other for the request of a session.
ghost use Rattle.std.specs.Prelude.{◌≡◌, ◌<◌, None};
ghost use Rattle.split_stores.specs.Seen.{first_searched, found_at, held_by, none_searched, request_in, searched};

use split_parts::NodePart;
use stamp_base::{NodeNo, SessionNo};
use system_parts::{Place, Request};
use takeover_core::Post;

/// A request, with the node that holds it and the place where it stands.
#[derive(Clone, Copy, Debug, PartialEq, Eq)]
pub struct HeldRequest {
    /// The node that holds it.
    pub node: NodeNo,
    /// The request.
    pub request: Request,
    /// Where it stands.
    pub place: Place,
}

/// How far the nodes were looked at for a session's request, in their order from the first on, and what the last of them had of it:
/// the nodes before that had nothing. One node may be looked at before all others. It is made by looks at their parts alone.
#[derive(Clone, Copy, Debug, PartialEq, Eq)]
pub struct SeenRequest {
    session: SessionNo,
    nodes: usize,
    found: Option<HeldRequest>,
}

impl SeenRequest {
    /// No node was looked at.
    pub fn none(session: SessionNo) -> SeenRequest
        ensures { result ≡ none_searched session }
    {
        SeenRequest {
            session,
            nodes: 0,
            found: None,
        }
    }

    /// What the part of this node has, before all others.
    pub(crate) fn first(session: SessionNo, node: NodeNo, part: &NodePart) -> SeenRequest
        ensures { result ≡ first_searched session node part.now }
    {
        SeenRequest {
            session,
            nodes: 0,
            found: found_at(node.index(), session, part),
        }
    }

    /// Looks at the part of the next node. The part of another node counts as one that has nothing: a lock does not tell which node
    /// it holds.
    pub(crate) fn look(&mut self, part: &NodePart)
        requires before { self.old.found ≡ None }
        requires next { self.old.nodes < 8 }
        ensures { self.new ≡ searched self.old part.now }
    {
        self.found = found_at(self.nodes, self.session, part);
        self.nodes += 1;
    }

    /// Of which session it was seen.
    pub fn session(&self) -> SessionNo
        ensures { result ≡ self.now.session }
    {
        self.session
    }

    /// The request, if a node had it.
    pub fn found(&self) -> Option<HeldRequest>
        ensures { result ≡ self.now.found }
    {
        self.found
    }
}

/// What the part of this node has of the session's request.
fn found_at(node: usize, session: SessionNo, part: &NodePart) -> Option<HeldRequest>
    ensures { result ≡ found_at node session part.now }
{
    if part.node().index() == node {
        held_by(part.node(), request_in(part.post(), session))
    } else {
        None
    }
}

fn held_by(node: NodeNo, held: Option<(Request, Place)>) -> Option<HeldRequest>
    ensures { result ≡ held_by node held }
{
    match held {
        Some((request, place)) => Some(HeldRequest {
            node,
            request,
            place,
        }),
        None => None,
    }
}

/// The request of the session that the node's instance has.
fn request_in(post: &Post, session: SessionNo) -> Option<(Request, Place)>
    ensures { result ≡ request_in post.now session }
{
    match &post.instance {
        Some(instance) => instance.request_of(session),
        None => None,
    }
}
