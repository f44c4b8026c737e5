// What the parts hold when their locks are taken. What each look sees is exact, and the part of another session or node tells
// nothing. What stands there when a lock is taken no clause says: whoever chooses by it may find it changed.
ghost use Rattle.std.specs.Prelude.{◌≡◌};
ghost use Rattle.split_stores.specs.Seen.{IsSearched};

use crate::Split;
use crate::searching::SeenRequest;
use crate::seen::{SeenDoing, SeenSweep};
use stamp_base::{Name, NodeNo, SessionNo};
use std::sync::Wait;

impl Split {
    /// What the session is doing.
    pub fn doing<R: Wait>(&self, rt: &R, session: SessionNo) -> SeenDoing
        ensures { result.session ≡ session }
    {
        SeenDoing::at(session, &self.sessions[session.index()].lock(rt))
    }

    /// The request of the session. It is looked for at this node first, if one is named, which holds it where the session has asked
    /// it last; and else at all nodes in their order, up to the first that holds it.
    pub fn request_of<R: Wait>(
        &self,
        rt: &R,
        session: SessionNo,
        first: Option<NodeNo>,
    ) -> SeenRequest
        ensures session { result.session ≡ session }
        ensures searched { IsSearched result }
    {
        if let Some(node) = first {
            let seen = SeenRequest::first(session, node, &self.nodes[node.index()].lock(rt));
            if seen.found().is_some() {
                return seen;
            }
        }
        self.search(rt, session)
    }

    /// The request of the session, by a look at the nodes in their order, up to the first that holds it.
    fn search<R: Wait>(&self, rt: &R, session: SessionNo) -> SeenRequest
        ensures session { result.session ≡ session }
        ensures searched { IsSearched result }
    {
        let mut seen = SeenRequest::none(session);
        for node in &self.nodes {
            seen.look(&node.lock(rt));
            if seen.found().is_some() {
                return seen;
            }
        }
        seen
    }

    /// Whether a sweep is open.
    pub fn sweeping<R: Wait>(&self, rt: &R) -> SeenSweep {
        SeenSweep::at(&self.janitor.lock(rt))
    }

    /// Whether the name is posted.
    pub fn posted<R: Wait>(&self, rt: &R, name: &Name) -> bool {
        self.names.lock(rt).contains(name)
    }
}
