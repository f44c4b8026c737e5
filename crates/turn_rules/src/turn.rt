ghost use Rattle.std.specs.Prelude.{◌≡◌};
ghost use Rattle.turn_rules.specs.Lawful as lawful;

use command_semantics::View;
use history_book::Actor;
use stamp_base::{NodeNo, SessionNo, Stage};
use system_parts::Place;

/// Who makes the next event. On threads the order of the turns is the order in which the lock round the cluster was taken.
#[derive(Clone, Copy, Debug, PartialEq, Eq)]
pub enum Turn {
    /// The actor makes the next event of its present line, its share being aimed at this node.
    Own { actor: Actor, aim: NodeNo },
    /// The request stage of the node accepts the session's request.
    Accept { node: NodeNo, session: SessionNo },
    /// The request stage draws the stamp of the session's request.
    Decide { node: NodeNo, session: SessionNo },
    /// A persist worker of the node places the record of the session's commit.
    Put { node: NodeNo, session: SessionNo },
    /// The reply stage of the node answers the session's request.
    Answer { node: NodeNo, session: SessionNo },
    /// The request stage of the node asks for a further range of stamps.
    Extend { node: NodeNo },
}

/// The turn that the node's stage can make of the session's request as it stands; None where it stands in no place of the
/// stage, or at another node.
pub fn stage_turn(stage: Stage, node: NodeNo, session: SessionNo, view: &View) -> Option<Turn>
    ensures { result ≡ lawful.stage_turn stage node session view.now }
{
    match view.request {
        Some((there, place)) if there == node => {
            serving_turn(stage, node, session, view.commit, place)
        }
        _ => None,
    }
}

fn serving_turn(
    stage: Stage,
    node: NodeNo,
    session: SessionNo,
    commit: bool,
    place: Place,
) -> Option<Turn>
    ensures { result ≡ lawful.serving_turn stage node session commit place }
{
    match (stage, place, commit) {
        (Stage::Request, Place::Asked, _) => Some(Turn::Accept { node, session }),
        (Stage::Request, Place::Accepted, _) => Some(Turn::Decide { node, session }),
        (Stage::Persist, Place::Drawn, true) => Some(Turn::Put { node, session }),
        (Stage::Reply, Place::Drawn, false) | (Stage::Reply, Place::Settled, true) => {
            Some(Turn::Answer { node, session })
        }
        _ => None,
    }
}
