// The next event of a line.
ghost use Rattle.std.specs.Prelude.{◌≡◌, ◌≢◌, ◌≤◌, ◌^◌, ℕ};
ghost use Rattle.command_semantics.specs.Next as next;
ghost use Rattle.command_semantics.specs.Clocks.{clocks, TicksWithin, HaveRoom};

use crate::point::{Point, View};
use history_book::{Actor, Note};
use machine::{Doing, Event};
use script_data::{Line, Target, Verb};
use stamp_base::{NodeNo, SessionNo};
use system_parts::Place;

/// The event that the run of the line makes next from this point on; None where the run is over. The base clock and the leads
/// of the nodes' clocks give the readings; `master` is the node that a line asks which names the master.
pub fn next_event(
    base: u64,
    leads: &[u64],
    master: NodeNo,
    line: &Line,
    point: Point,
    view: &View,
) -> Option<Event>
    requires { HaveRoom base leads.now line.now.verb }
    ensures { result ≡ next.next (clocks base leads.now master) line.now.actor line.now.verb point view.now }
{
    if point == Point::Opens {
        return opens(base, leads, master, line, view);
    }
    match line.actor {
        Actor::Session(session) => session_goes_on(base, leads, session, &line.verb, view, point),
        Actor::Janitor => janitor_goes_on(&line.verb, view, point),
        Actor::Clock | Actor::Node(_) => None,
    }
}

/// The next event of a session's line behind its first.
fn session_goes_on(
    base: u64,
    leads: &[u64],
    session: SessionNo,
    verb: &Verb,
    view: &View,
    point: Point,
) -> Option<Event>
    requires room { HaveRoom base leads.now verb.now }
    requires later { point ≢ Point.Opens }
    ensures { (master : ℕ) → result ≡ next.session_next (clocks base leads.now master) session verb.now view.now point }
{
    match point {
        Point::Drives => drive_next(base, leads, session, verb, view),
        Point::Extends => extend_next(view.request),
        Point::Finishes => finish_next(session, view.doing),
        Point::Reads => read_next(session, view.doing),
        Point::Steps => steps_next(session, view.doing),
        Point::Opens | Point::Over => None,
    }
}

/// The next event of a janitor's line behind its first.
fn janitor_goes_on(verb: &Verb, view: &View, point: Point) -> Option<Event>
    requires { point ≢ Point.Opens }
    ensures { result ≡ next.janitor_next verb.now view.now point }
{
    match point {
        Point::Steps if view.sweeping => Some(Event::SweepStep),
        _ => None,
    }
}

// ---- the first event of a line

fn opens(base: u64, leads: &[u64], master: NodeNo, line: &Line, view: &View) -> Option<Event>
    requires { HaveRoom base leads.now line.now.verb }
    ensures { result ≡ next.next (clocks base leads.now master) line.now.actor line.now.verb Point.Opens view.now }
{
    match line.actor {
        Actor::Clock => clock_opens(base, &line.verb),
        Actor::Node(node) => node_opens(base, leads, node, &line.verb),
        Actor::Session(session) => session_opens(base, leads, master, session, &line.verb, view),
        Actor::Janitor => janitor_opens(&line.verb),
    }
}

fn clock_opens(base: u64, verb: &Verb) -> Option<Event>
    requires base { base ≤ 2 ^ 62 }
    requires tick { TicksWithin (2 ^ 62) verb.now }
    ensures { result ≡ next.clock_opens base verb.now }
{
    match verb {
        Verb::Tick { by } => Some(Event::Tick { to: base + *by }),
        _ => name_opens(Actor::Clock, verb),
    }
}

fn node_opens(base: u64, leads: &[u64], node: NodeNo, verb: &Verb) -> Option<Event>
    requires { HaveRoom base leads.now verb.now }
    ensures { (master : ℕ) → result ≡ next.node_opens (clocks base leads.now master) node verb.now }
{
    let actor = Actor::Node(node);
    match *verb {
        Verb::Take => Some(Event::Take {
            node,
            reading: reading_at(base, leads, node),
        }),
        Verb::Renew => Some(Event::Renew {
            node,
            reading: reading_at(base, leads, node),
        }),
        Verb::Crash => Some(Event::Crash { node }),
        Verb::Extend => Some(Event::Extend { node }),
        Verb::Hold { stage } => Some(Event::Note {
            actor,
            note: Note::Hold(stage),
        }),
        Verb::Free { stage } => Some(Event::Note {
            actor,
            note: Note::Free(stage),
        }),
        Verb::Accept { session } => Some(Event::Accept {
            node,
            session,
            reading: reading_at(base, leads, node),
        }),
        Verb::Decide { session } => Some(Event::Decide { node, session }),
        Verb::Put { session } => Some(Event::Put { node, session }),
        Verb::Answer { session } => Some(Event::Answer { node, session }),
        _ => name_opens(actor, verb),
    }
}

fn session_opens(
    base: u64,
    leads: &[u64],
    master: NodeNo,
    session: SessionNo,
    verb: &Verb,
    view: &View,
) -> Option<Event>
    requires { HaveRoom base leads.now verb.now }
    ensures { result ≡ next.session_opens (clocks base leads.now master) session verb.now view.now }
{
    match *verb {
        Verb::Begin { target } => Some(Event::AskBegin {
            session,
            node: node_of(master, target),
        }),
        Verb::Commit { target } | Verb::Submit { target } => Some(Event::AskCommit {
            session,
            node: node_of(master, target),
        }),
        Verb::AskBegin { node } => Some(Event::AskBegin { session, node }),
        Verb::AskCommit { node } => Some(Event::AskCommit { session, node }),
        Verb::Write { key, value } => Some(Event::Write {
            session,
            key,
            value,
        }),
        Verb::Read { key } | Verb::Fetch { key } => Some(Event::Fetch { session, key }),
        Verb::Collect => collect_next(base, leads, session, verb, view),
        Verb::Abort => Some(Event::Abort { session }),
        Verb::Heal => Some(Event::Heal { session }),
        Verb::Vanish => Some(Event::Vanish { session }),
        Verb::Step | Verb::Finish => Some(Event::Step { session }),
        _ => name_opens(Actor::Session(session), verb),
    }
}

fn janitor_opens(verb: &Verb) -> Option<Event>
    ensures { result ≡ next.janitor_opens verb.now }
{
    match *verb {
        Verb::Sweep { node, txn } | Verb::OpenSweep { node, txn } => {
            Some(Event::SweepOpen { node, txn })
        }
        Verb::Step | Verb::Finish => Some(Event::SweepStep),
        _ => name_opens(Actor::Janitor, verb),
    }
}

/// An actor of any kind may post a name or await one.
fn name_opens(actor: Actor, verb: &Verb) -> Option<Event>
    ensures { result ≡ next.name_opens actor verb.now }
{
    match *verb {
        Verb::Post { name } => Some(Event::Note {
            actor,
            note: Note::Post(name),
        }),
        Verb::Await { name } => Some(Event::Note {
            actor,
            note: Note::Await(name),
        }),
        _ => None,
    }
}

// ---- serving a request

/// The next event that serves the session's request; where none is left, a placing and then a completion goes on.
fn drive_next(
    base: u64,
    leads: &[u64],
    session: SessionNo,
    verb: &Verb,
    view: &View,
) -> Option<Event>
    requires { HaveRoom base leads.now verb.now }
    ensures { (master : ℕ) → result ≡ next.drive_next (clocks base leads.now master) session verb.now view.now view.now.request }
{
    match view.request {
        None => placing_next(session, view.doing, places(verb)),
        Some((node, place)) if is_served(verb, place) => {
            Some(serves(base, leads, session, node, view.commit, place))
        }
        Some(_) => None,
    }
}

/// As `drive_next`, but that a session with nothing to collect makes a step, which is refused.
fn collect_next(
    base: u64,
    leads: &[u64],
    session: SessionNo,
    verb: &Verb,
    view: &View,
) -> Option<Event>
    requires verb { verb.now ≡ Verb.Collect }
    requires room { HaveRoom base leads.now verb.now }
    ensures { (master : ℕ) → result ≡ next.collect_next (clocks base leads.now master) session view.now view.now.request }
{
    match view.request {
        None => idle_next(session, view.doing),
        Some(_) => drive_next(base, leads, session, verb, view),
    }
}

/// Whether a line of this verb has its session's request served on from this place.
pub fn is_served(verb: &Verb, place: Place) -> bool
    ensures { result ≡ next.is_served verb.now place }
{
    match verb {
        Verb::Submit { .. } => !has_drawn(place),
        _ => true,
    }
}

fn has_drawn(place: Place) -> bool
    ensures { result ≡ next.has_drawn place }
{
    matches!(place, Place::Drawn | Place::Settled)
}

fn serves(
    base: u64,
    leads: &[u64],
    session: SessionNo,
    node: NodeNo,
    commit: bool,
    place: Place,
) -> Event
    requires { HaveRoom base leads.now Verb.Take }
    ensures { (master : ℕ) → result ≡ next.serves (clocks base leads.now master) session node commit place }
{
    match place {
        Place::Asked => Event::Accept {
            node,
            session,
            reading: reading_at(base, leads, node),
        },
        Place::Accepted => Event::Decide { node, session },
        Place::Drawn if commit => Event::Put { node, session },
        Place::Drawn | Place::Settled => Event::Answer { node, session },
    }
}

/// What the node's clock shows.
fn reading_at(base: u64, leads: &[u64], node: NodeNo) -> u64
    requires { HaveRoom base leads.now Verb.Take }
    ensures { result ≡ next.reading_at (clocks base leads.now 0) node }
{
    let place = node.value() as usize;
    let lead = if place < leads.len() { leads[place] } else { 0 };
    base + lead
}

fn node_of(master: NodeNo, target: Target) -> NodeNo
    ensures { result ≡ next.asked_node master target }
{
    match target {
        Target::Node(node) => node,
        Target::Master => master,
    }
}

fn extend_next(request: Option<(NodeNo, Place)>) -> Option<Event>
    ensures { result ≡ next.extend_next request }
{
    match request {
        Some((node, Place::Accepted)) => Some(Event::Extend { node }),
        _ => None,
    }
}

// ---- what is under way

/// A completion goes on.
fn finish_next(session: SessionNo, doing: Doing) -> Option<Event>
    ensures { result ≡ next.finish_next session doing }
{
    match doing {
        Doing::Completing => Some(Event::Step { session }),
        _ => None,
    }
}

/// Whether a line of this verb places a commit that was handed over.
pub fn places(verb: &Verb) -> bool
    ensures { result ≡ next.places verb.now }
{
    !matches!(verb, Verb::Submit { .. })
}

/// A commit that was handed over is placed, where the line places it, and a completion goes on.
pub fn placing_next(session: SessionNo, doing: Doing, places: bool) -> Option<Event>
    ensures { result ≡ next.placing_next session doing places }
{
    match doing {
        Doing::Placing if places => Some(Event::Step { session }),
        _ => finish_next(session, doing),
    }
}

/// A session with nothing to collect makes a step, which is refused, unless something else of it is under way.
pub fn idle_next(session: SessionNo, doing: Doing) -> Option<Event>
    ensures { result ≡ next.idle_next session doing }
{
    match doing {
        Doing::Free | Doing::Gone | Doing::Open => Some(Event::Step { session }),
        _ => None,
    }
}

fn read_next(session: SessionNo, doing: Doing) -> Option<Event>
    ensures { result ≡ next.read_next session doing }
{
    match doing {
        Doing::Reading => Some(Event::Step { session }),
        _ => None,
    }
}

fn steps_next(session: SessionNo, doing: Doing) -> Option<Event>
    ensures { result ≡ next.steps_next session doing }
{
    match doing {
        Doing::Reading | Doing::Placing | Doing::OpenOutcome | Doing::Completing => {
            Some(Event::Step { session })
        }
        _ => None,
    }
}
