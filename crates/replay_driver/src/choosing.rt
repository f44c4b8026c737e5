// The next event of a line, made in the arm that chooses it: so a frequent line looks at no more than its arm needs, and its event
// is handed to nobody before it is made. The other lines go through `next_event`.
ghost use Rattle.std.specs.Prelude.{◌≡◌, ◌≤◌, ◌^◌, ℕ, true, All, IfOk, Some};
ghost use Rattle.history_book.specs.declared.item.Actor.TheVariants.{Node, Session};
ghost use Rattle.machine.specs.Machine.{IsSteadyAt, reading_of};
ghost use Rattle.command_semantics.specs.Clocks.{clocks};
ghost use Rattle.command_semantics.specs.Next as next;
ghost use Rattle.machine.specs.Readers.{asks_commit, doing_of, place_of};
ghost use Rattle.replay_driver.specs.GoingOn.{CanGoOn, Makes, MakesNext, step_next, step_where};

use crate::play::{make, seen};
use command_semantics::{Point, follows, is_served, next_event, places};
use history_book::Actor;
use machine::{Doing, Event};
use planned_cluster::PlannedCluster;
use script_data::{Line, Target, Verb};
use stamp_base::{NoMemory, NodeNo, SessionNo};
use system_parts::Place;

/// Makes the next event of the line from this point on, and says where its run stands then. Where no event is left, the run is over.
pub(crate) fn make_next(
    play: &mut PlannedCluster,
    leads: &[u64],
    line: &Line,
    point: Point,
) -> Result<Point, NoMemory>
    requires { CanGoOn play.old leads.now line.now point }
    ensures { IfOk result (MakesNext play.old leads.now line.now point play.new) }
{
    match line.actor {
        Actor::Session(session) => session_next(play, leads, line, point, session),
        Actor::Node(node) if point == Point::Opens => open_node(play, leads, line, node),
        _ => other_next(play, leads, line, point),
    }
}

/// As `make_next`, by the choice that serves any line.
fn other_next(
    play: &mut PlannedCluster,
    leads: &[u64],
    line: &Line,
    point: Point,
) -> Result<Point, NoMemory>
    requires { CanGoOn play.old leads.now line.now point }
    ensures { IfOk result (MakesNext play.old leads.now line.now point play.new) }
{
    let view = seen(play, line, point);
    match &next_event(play.clock, leads, play.cluster.master(), line, point, &view) {
        Some(event) => made(play, line, point, event),
        None => Ok(Point::Over),
    }
}

/// Makes this event of the line, and says where the run stands then.
fn made(
    play: &mut PlannedCluster,
    line: &Line,
    point: Point,
    event: &Event,
) -> Result<Point, NoMemory>
    requires { IsSteadyAt play.old.cluster.state.setup.skew play.old.cluster.state.seen (reading_of event.now) }
    ensures { IfOk result (Makes play.old line.now point (Some event.now) play.new) }
{
    let halt = make(play, event)?;
    Ok(follows(&line.verb, point, halt))
}

// ---- a session's line

/// As `make_next`, for a line of this session.
fn session_next(
    play: &mut PlannedCluster,
    leads: &[u64],
    line: &Line,
    point: Point,
    session: SessionNo,
) -> Result<Point, NoMemory>
    requires actor { line.now.actor ≡ Session session }
    requires can { CanGoOn play.old leads.now line.now point }
    ensures { IfOk result (MakesNext play.old leads.now line.now point play.new) }
{
    match point {
        Point::Opens => open_session(play, leads, line, session),
        Point::Drives => drive(play, leads, line, session),
        Point::Extends => other_next(play, leads, line, point),
        Point::Finishes | Point::Reads | Point::Steps => go_on(play, line, point, session),
        Point::Over => Ok(Point::Over),
    }
}

/// Makes the first event of a session's line.
fn open_session(
    play: &mut PlannedCluster,
    leads: &[u64],
    line: &Line,
    session: SessionNo,
) -> Result<Point, NoMemory>
    requires actor { line.now.actor ≡ Session session }
    requires can { CanGoOn play.old leads.now line.now Point.Opens }
    ensures { IfOk result (MakesNext play.old leads.now line.now Point.Opens play.new) }
{
    let point = Point::Opens;
    match line.verb {
        Verb::Begin { target } => {
            let node = node_of(play.cluster.master(), target);
            made(play, line, point, &Event::AskBegin { session, node })
        }
        Verb::Commit { target } => {
            let node = node_of(play.cluster.master(), target);
            made(play, line, point, &Event::AskCommit { session, node })
        }
        Verb::AskBegin { node } => made(play, line, point, &Event::AskBegin { session, node }),
        Verb::AskCommit { node } => made(play, line, point, &Event::AskCommit { session, node }),
        Verb::Write { key, value } => made(
            play,
            line,
            point,
            &Event::Write {
                session,
                key,
                value,
            },
        ),
        Verb::Read { key } | Verb::Fetch { key } => {
            made(play, line, point, &Event::Fetch { session, key })
        }
        Verb::Step | Verb::Finish => made(play, line, point, &Event::Step { session }),
        _ => other_next(play, leads, line, point),
    }
}

/// Makes the next event that serves the session's request; where none is left, a placing and then a completion goes on.
fn drive(
    play: &mut PlannedCluster,
    leads: &[u64],
    line: &Line,
    session: SessionNo,
) -> Result<Point, NoMemory>
    requires actor { line.now.actor ≡ Session session }
    requires can { CanGoOn play.old leads.now line.now Point.Drives }
    ensures { IfOk result (MakesNext play.old leads.now line.now Point.Drives play.new) }
{
    let (request, commit) = play.cluster.in_flight(session);
    match request {
        None => go_on(play, line, Point::Drives, session),
        Some((node, place)) => {
            if is_served(&line.verb, place) {
                serve(play, leads, line, session, (node, place), commit)
            } else {
                Ok(Point::Over)
            }
        }
    }
}

/// Makes the event that serves the session's request, which is in flight at this node, from this place on.
fn serve(
    play: &mut PlannedCluster,
    leads: &[u64],
    line: &Line,
    session: SessionNo,
    request: (NodeNo, Place),
    commit: bool,
) -> Result<Point, NoMemory>
    requires actor { line.now.actor ≡ Session session }
    requires request { place_of play.old.cluster.state session ≡ Some request }
    requires commit { asks_commit play.old.cluster.state session ≡ commit }
    requires served { next.is_served line.now.verb request.1 ≡ true }
    requires can { CanGoOn play.old leads.now line.now Point.Drives }
    ensures { IfOk result (MakesNext play.old leads.now line.now Point.Drives play.new) }
{
    let point = Point::Drives;
    let (node, place) = request;
    match place {
        Place::Asked => {
            let reading = reading_at(play.clock, leads, node);
            made(
                play,
                line,
                point,
                &Event::Accept {
                    node,
                    session,
                    reading,
                },
            )
        }
        Place::Accepted => made(play, line, point, &Event::Decide { node, session }),
        Place::Drawn if commit => made(play, line, point, &Event::Put { node, session }),
        Place::Drawn | Place::Settled => made(play, line, point, &Event::Answer { node, session }),
    }
}

/// Makes a step of what the session has under way, where the line goes on with that.
fn go_on(
    play: &mut PlannedCluster,
    line: &Line,
    point: Point,
    session: SessionNo,
) -> Result<Point, NoMemory>
    ensures { IfOk result (Makes play.old line.now point
        (step_next session line.now.verb point (doing_of play.old.cluster.state session)) play.new) }
{
    if goes_on(&line.verb, point, play.cluster.doing(session)) {
        made(play, line, point, &Event::Step { session })
    } else {
        Ok(Point::Over)
    }
}

/// Whether a line at this point goes on with what its session does.
fn goes_on(verb: &Verb, point: Point, doing: Doing) -> bool
    ensures { (session : ℕ) → step_next session verb.now point doing ≡ step_where session result }
{
    match (point, doing) {
        (Point::Drives, Doing::Placing) => places(verb),
        (Point::Steps, Doing::Reading | Doing::Placing | Doing::OpenOutcome) => true,
        (Point::Drives | Point::Finishes | Point::Steps, Doing::Completing) => true,
        (Point::Reads, Doing::Reading) => true,
        _ => false,
    }
}

// ---- a node's line

/// Makes the event of a node's line, which has no second one.
fn open_node(
    play: &mut PlannedCluster,
    leads: &[u64],
    line: &Line,
    node: NodeNo,
) -> Result<Point, NoMemory>
    requires actor { line.now.actor ≡ Node node }
    requires can { CanGoOn play.old leads.now line.now Point.Opens }
    ensures { IfOk result (MakesNext play.old leads.now line.now Point.Opens play.new) }
{
    let point = Point::Opens;
    match line.verb {
        Verb::Accept { session } => {
            let reading = reading_at(play.clock, leads, node);
            made(
                play,
                line,
                point,
                &Event::Accept {
                    node,
                    session,
                    reading,
                },
            )
        }
        Verb::Decide { session } => made(play, line, point, &Event::Decide { node, session }),
        Verb::Put { session } => made(play, line, point, &Event::Put { node, session }),
        Verb::Answer { session } => made(play, line, point, &Event::Answer { node, session }),
        _ => other_next(play, leads, line, point),
    }
}

// ---- what an event names

/// The node that a line asks.
fn node_of(master: NodeNo, target: Target) -> NodeNo
    ensures { result ≡ next.asked_node master target }
{
    match target {
        Target::Node(node) => node,
        Target::Master => master,
    }
}

/// What the node's clock shows.
fn reading_at(base: u64, leads: &[u64], node: NodeNo) -> u64
    requires base_fits { base ≤ 2 ^ 62 }
    requires leads_fit { All (λ lead. lead ≤ 2 ^ 62) leads.now }
    ensures { result ≡ next.reading_at (clocks base leads.now 0) node }
{
    let place = node.index();
    let lead = if place < leads.len() { leads[place] } else { 0 };
    base + lead
}
