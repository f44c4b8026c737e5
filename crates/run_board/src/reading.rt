// What a script run tells of actors and stages.
ghost use Rattle.std.specs.Prelude.{◌≡◌, ◌<◌, ◌↔◌, Some, None, true, length, slice_get, IsTrue, MatchOption, IfSome};
ghost use Rattle.machine.specs.Readers as read;
ghost use Rattle.command_semantics.specs.Clocks.{HaveRoom};
ghost use Rattle.command_semantics.specs.Next.{reading_at};
ghost use Rattle.command_semantics.specs.Runs.{clocks_of};
ghost use Rattle.turn_rules.specs.declared.ahead.NextAction.TheVariants.{Passes};
ghost use Rattle.turn_rules.specs.Seats.{lines_of};
ghost use Rattle.turn_rules.specs.Carried.{ahead_at, aimed_node, own_ahead, event_of, made_by, name_posted};
ghost use Rattle.turn_rules.specs.Lawful as lawful;
ghost use Rattle.run_board.specs.Run.{reached_by};
ghost use Rattle.run_board.specs.Steps.{HasEnded, IsStageHeld, state_of, place_of, has_turn, IsServable};

use crate::ScriptRun;
use crate::making::is_lacking;
use crate::marks::holds_at;
use crate::seated::seated_of;
use command_semantics::View;
use history_book::Actor;
use machine::{Doing, Event};
use script_data::{Line, Verb};
use stamp_base::{NodeNo, SessionNo, Stage, Term};
use system_parts::Place;
use turn_rules::{NextAction, Seat, Turn, own_event, stage_turn};

impl ScriptRun {
    /// How many of the actor's lines are passed.
    pub fn place(&self, actor: &Actor) -> usize
        ensures { result ≡ place_of self.now actor.now }
    {
        match seated_of(self.seated.as_slice(), actor) {
            Some(seated) => seated.seat.place,
            None => 0,
        }
    }

    /// Whether the actor has no line behind the first so many.
    pub(crate) fn ends_at(&self, actor: &Actor, done: u64) -> bool
        ensures { IsTrue result ↔ (slice_get (lines_of self.now.script actor.now) done ≡ None) }
    {
        match seated_of(self.seated.as_slice(), actor) {
            Some(seated) => seated.lines.len() as u64 <= done,
            None => true,
        }
    }

    /// What is ahead of the actor's present line, where its share is aimed at this node.
    pub(crate) fn ahead(&self, actor: &Actor, aim: NodeNo) -> NextAction
        ensures ahead { result ≡ own_ahead self.now.script (reached_by self.now) actor.now aim }
        ensures ended { result ≡ Passes → HasEnded self.now actor.now }
    {
        match seated_of(self.seated.as_slice(), actor) {
            Some(seated) => self.ahead_at(&seated.seat, seated.line(), aim),
            None => NextAction::Passes,
        }
    }

    fn ahead_at(&self, seat: &Seat, line: Option<Line>, aim: NodeNo) -> NextAction
        requires { IfSome line (λ l. HaveRoom (reached_by self.now).played.clock self.now.script.leads l.verb) }
        ensures { result ≡ ahead_at self.now.script (reached_by self.now) seat.now line aim }
    {
        match line {
            None => NextAction::Passes,
            Some(line) => {
                own_event(
                    self.planned.clock,
                    self.script.leads.as_slice(),
                    self.aimed(aim),
                    self.name_posted(&line.verb),
                    &line,
                    seat.point,
                    &self.planned.view(seat.actor),
                    seat.unawaited,
                )
            }
        }
    }

    // The node that a line asks which names the master. Without a take so far no node is master, whoever is aimed at.
    fn aimed(&self, aim: NodeNo) -> NodeNo
        ensures { result ≡ aimed_node (reached_by self.now).played.items aim }
    {
        if self.planned.cluster.has_taken(aim) {
            return aim;
        }
        NodeNo::FIRST
    }

    fn name_posted(&self, verb: &Verb) -> bool
        ensures { result ≡ name_posted (reached_by self.now).names verb.now }
    {
        match verb {
            Verb::Await { name } => self.names.contains(name),
            _ => true,
        }
    }

    /// Whether the node's stage is held.
    pub fn is_held(&self, node: NodeNo, stage: Stage) -> bool
        ensures { result ≡ IsStageHeld self.now node stage }
    {
        holds_at(self.held.as_slice(), node).is_held(stage)
    }

    /// How many turns were made.
    pub fn turns_made(&self) -> usize
        ensures { result ≡ length self.now.turns }
    {
        self.turns.len()
    }

    /// The term of the node's oracle.
    pub fn term_of(&self, node: NodeNo) -> Option<Term>
        ensures { result ≡ read.term_of (state_of self.now) node }
    {
        self.planned.cluster.term_of(node)
    }

    /// The turn by which the node's stage serves the session's request as it stands: where the node's last decision found no stamp,
    /// for this session or another, the range is extended first.
    pub(crate) fn turn_of(&self, stage: Stage, node: NodeNo, session: SessionNo) -> Option<Turn>
        ensures { MatchOption result (lawful.stage_turn stage node session (lawful.session_view (state_of self.now) session) ≡ None)
            (λ turn. IsServable self.now node stage session turn) }
    {
        let view = self.planned.view(Actor::Session(session));
        match stage_turn(stage, node, session, &view) {
            Some(Turn::Decide { .. }) if is_lacking(self.lacking.as_slice(), &node) => {
                Some(Turn::Extend { node })
            }
            found => found,
        }
    }

    /// Whether the node's stage has a turn to make of the session's request as it stands.
    pub fn has_turn(&self, node: NodeNo, stage: Stage, session: SessionNo) -> bool
        ensures { result ≡ has_turn (state_of self.now) node stage session }
    {
        let (request, commit) = self.planned.cluster.in_flight(session);
        stage_turn(stage, node, session, &asking(request, commit)).is_some()
    }

    /// The event of a stage's turn.
    pub(crate) fn event_of(&self, turn: &Turn) -> Option<Event>
        ensures { result ≡ event_of self.now.script (reached_by self.now) turn.now }
    {
        match *turn {
            Turn::Own { actor, aim } => event_ahead(&self.ahead(&actor, aim)),
            Turn::Accept { node, session } => {
                Some(Event::Accept {
                    node,
                    session,
                    reading: self.reading_at(node),
                })
            }
            Turn::Decide { node, session } => Some(Event::Decide { node, session }),
            Turn::Put { node, session } => Some(Event::Put { node, session }),
            Turn::Answer { node, session } => Some(Event::Answer { node, session }),
            Turn::Extend { node } => Some(Event::Extend { node }),
        }
    }

    /// What the node's clock shows.
    fn reading_at(&self, node: NodeNo) -> u64
        ensures { result ≡ reading_at (clocks_of self.now.script (reached_by self.now).played) node }
    {
        let lead = match self.script.leads.get(node.index()) {
            Some(lead) => *lead,
            None => 0,
        };
        self.planned.clock + lead
    }
}

/// The event that is ahead, if there is one.
fn event_ahead(ahead: &NextAction) -> Option<Event>
    ensures { result ≡ made_by ahead.now }
{
    match ahead {
        NextAction::Makes(event) => Some(*event),
        NextAction::Waits(_) | NextAction::Passes => None,
    }
}

// What a stage looks at of a session that has this in flight.
fn asking(request: Option<(NodeNo, Place)>, commit: bool) -> View
    ensures { (result.request ≡ request) × (result.commit ≡ commit) }
{
    View {
        doing: Doing::Gone,
        request,
        commit,
        sweeping: false,
    }
}
