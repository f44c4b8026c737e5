// The seats of the actors, each with its actor's lines.
ghost use Rattle.std.specs.Prelude.{◌≡◌, ◌<◌, ◌≤◌, [], All, true, length, map, IfNone, IfOk, IfSome, OnOk, MatchOption, None, Some};
ghost use Rattle.history_book.specs.declared.item.Actor.TheVariants.{Node, Session};
ghost use Rattle.planned_cluster.specs.Fitting.{SessionIsThere};
ghost use Rattle.planned_cluster.specs.Standing.{clocks_at};
ghost use Rattle.run_board.specs.Seating.{line_of, seated_of, sits_at, gone_on_with, after_turn, after_passing, after_passes, passing_of, touched, CanPass, AreSeatedFirst, SitOnce, SitsDown, TakesLine};

use command_semantics::Interruption;
use history_book::Actor;
use planned_cluster::{PlannedCluster, see_session};
use script_data::Line;
use stamp_base::{NoMemory, NodeNo, SessionNo};
use std::alloc::Global;
use turn_rules::{Seat, Turn, pass};

/// How far an actor has come, and its lines.
#[derive(Drop)]
pub struct Seated {
    /// How far the actor has come.
    pub seat: Seat,
    /// Its lines, in file order.
    pub lines: Vec<Line>,
}

impl Seated {
    /// The actor's present line.
    pub fn line(&self) -> Option<Line>
        ensures { result ≡ line_of self.now }
    {
        self.lines.get(self.seat.place).copied()
    }

    fn go_on(&mut self, halt: Option<Interruption>, asked: bool)
        ensures { self.new ≡ gone_on_with halt asked self.old }
    {
        if let Some(line) = self.line() {
            self.seat.go_on(&line.verb, halt, asked);
        }
    }

    fn pass(&mut self, planned: &PlannedCluster, leads: &[u64])
        requires { CanPass planned.now.clock leads.now self.old }
        ensures { self.new ≡ after_passing (clocks_at planned.now.cluster planned.now.clock leads.now) planned.now.cluster.state self.old }
    {
        let view = planned.view(self.seat.actor);
        pass(
            planned.clock,
            leads,
            planned.cluster.master(),
            &view,
            self.lines.as_slice(),
            &mut self.seat,
        );
    }
}

/// Sessions that the lines name are those that there are, as their types say.
pub fn see_sessions(lines: &[Line])
    ensures { All (λ line. SessionIsThere line.actor) lines.now }
{
    for line in lines {
        see_session(&line.actor);
    }
}

/// All actors before their first lines: clock, janitor, nodes and sessions. NoMemory where memory is refused.
pub fn all_seated(alloc: Global, nodes: u64, lines: &[Line]) -> Result<Vec<Seated>, NoMemory>
    requires { nodes ≤ 8 }
    ensures { IfOk result (λ all. AreSeatedFirst nodes lines.now all.items) }
{
    let mut all = without_lines(alloc, nodes)?;
    for line in lines {
        give_line(line, &mut all)?;
    }
    Ok(all)
}

// The seats of all actors, each without a line.
fn without_lines(alloc: Global, nodes: u64) -> Result<Vec<Seated>, NoMemory>
    requires { nodes ≤ 8 }
    ensures { IfOk result (λ all. AreSeatedFirst nodes [] all.items) }
{
    let mut all = Vec::new(alloc);
    seat(alloc, Actor::Clock, &mut all)?;
    seat(alloc, Actor::Janitor, &mut all)?;
    for node in 0..nodes {
        seat_node(alloc, node, &mut all)?;
    }
    for session in 0..SessionNo::COUNT as u64 {
        seat_session(alloc, session, &mut all)?;
    }
    Ok(all)
}

fn seat_node(alloc: Global, number: u64, all: &mut Vec<Seated>) -> Result<(), NoMemory>
    requires { number < 8 }
    ensures { OnOk result (SitsDown (Node number) all.old.items all.new.items) }
{
    match NodeNo::new(number) {
        Some(node) => seat(alloc, Actor::Node(node), all),
        None => unreachable!(),
    }
}

fn seat_session(alloc: Global, number: u64, all: &mut Vec<Seated>) -> Result<(), NoMemory>
    requires { number < 16 }
    ensures { OnOk result (SitsDown (Session number) all.old.items all.new.items) }
{
    match SessionNo::new(number) {
        Some(session) => seat(alloc, Actor::Session(session), all),
        None => unreachable!(),
    }
}

fn seat(alloc: Global, actor: Actor, all: &mut Vec<Seated>) -> Result<(), NoMemory>
    ensures { OnOk result (SitsDown actor all.old.items all.new.items) }
{
    all.push(Seated {
        seat: Seat::first(actor),
        lines: Vec::new(alloc),
    })?;
    Ok(())
}

// The line behind those of its actor.
fn give_line(line: &Line, all: &mut Vec<Seated>) -> Result<(), NoMemory>
    ensures { OnOk result (TakesLine line.now all.old.items all.new.items) }
{
    if let Some(index) = index_of(all.as_slice(), &line.actor) {
        all[index].lines.extend_from_slice(&[*line])?;
    }
    Ok(())
}

/// Where the actor sits.
pub fn seated_of<'a>(seated: &'a [Seated], actor: &Actor) -> Option<&'a Seated>
    requires { SitOnce seated.now }
    ensures { MatchOption result (seated_of seated.now actor.now ≡ None) (λ found. seated_of seated.now actor.now ≡ Some found.now) }
{
    match index_of(seated, actor) {
        Some(index) => Some(&seated[index]),
        None => None,
    }
}

/// The index of the actor's seat: looked for where it lies in a list of first seats, and only then seat by seat.
fn index_of(seated: &[Seated], actor: &Actor) -> Option<usize>
    ensures sits { IfSome result (λ index. sits_at seated.now index actor.now ≡ true) }
    ensures inside { IfSome result (λ index. index < length seated.now) }
    ensures missing { IfNone result (seated_of seated.now actor.now ≡ None) }
{
    let usual = usual_index(seated.len(), actor);
    if sits_at(seated, usual, actor) {
        return Some(usual);
    }
    searched_index(seated, actor)
}

// First seats lie in this order: clock, janitor, nodes, sessions. It is a guess: whoever asks looks who sits there.
fn usual_index(seats: usize, actor: &Actor) -> usize {
    match actor {
        Actor::Clock => 0,
        Actor::Janitor => 1,
        Actor::Node(node) => 2 + node.index(),
        Actor::Session(session) => seats.saturating_sub(SessionNo::COUNT - session.index()),
    }
}

fn sits_at(seated: &[Seated], index: usize, actor: &Actor) -> bool
    ensures value { result ≡ sits_at seated.now index actor.now }
    ensures inside { result ≡ true → index < length seated.now }
{
    match seated.get(index) {
        Some(one) => one.seat.actor == *actor,
        None => false,
    }
}

fn searched_index(seated: &[Seated], actor: &Actor) -> Option<usize>
    ensures sits { IfSome result (λ index. sits_at seated.now index actor.now ≡ true) }
    ensures inside { IfSome result (λ index. index < length seated.now) }
    ensures missing { IfNone result (seated_of seated.now actor.now ≡ None) }
{
    for index in 0..seated.len() {
        if sits_at(seated, index, actor) {
            return Some(index);
        }
    }
    None
}

/// An own turn's event moves its actor's seat.
pub fn go_on(seated: &mut Vec<Seated>, turn: &Turn, halt: Option<Interruption>, asked: bool)
    requires { SitOnce seated.old.items }
    ensures { seated.new.items ≡ map (after_turn turn.now halt asked) seated.old.items }
{
    let Turn::Own { actor, .. } = turn else {
        return;
    };
    if let Some(index) = index_of(seated.as_slice(), actor) {
        seated[index].go_on(halt, asked);
    }
}

/// The session of which the turn is, where it is one of a session or one that serves its request.
fn touched(turn: &Turn) -> Option<SessionNo>
    ensures { result ≡ touched turn.now }
{
    match turn {
        Turn::Own {
            actor: Actor::Session(session),
            ..
        } => Some(*session),
        Turn::Own { .. } => None,
        Turn::Accept { session, .. } => Some(*session),
        Turn::Decide { session, .. } => Some(*session),
        Turn::Put { session, .. } => Some(*session),
        Turn::Answer { session, .. } => Some(*session),
        Turn::Extend { .. } => None,
    }
}

/// The session of the turn passes its lines with nothing left to do, or each actor does where the turn is of no session.
pub fn pass_touched(planned: &PlannedCluster, leads: &[u64], seated: &mut Vec<Seated>, turn: &Turn)
    requires once { SitOnce seated.old.items }
    requires can_pass { All (CanPass planned.now.clock leads.now) seated.old.items }
    ensures { seated.new.items ≡ after_passes (touched turn.now) (clocks_at planned.now.cluster planned.now.clock leads.now) planned.now.cluster.state seated.old.items }
{
    match touched(turn) {
        Some(session) => pass_one(planned, leads, seated, session),
        None => pass_all(planned, leads, seated),
    }
}

/// The session passes its lines with nothing left to do.
fn pass_one(planned: &PlannedCluster, leads: &[u64], seated: &mut Vec<Seated>, session: SessionNo)
    requires once { SitOnce seated.old.items }
    requires can_pass { All (CanPass planned.now.clock leads.now) seated.old.items }
    ensures { seated.new.items ≡ map (passing_of session (clocks_at planned.now.cluster planned.now.clock leads.now) planned.now.cluster.state) seated.old.items }
{
    if let Some(index) = index_of(seated.as_slice(), &Actor::Session(session)) {
        seated[index].pass(planned, leads);
    }
}

/// Each actor passes its lines with nothing left to do.
pub fn pass_all(planned: &PlannedCluster, leads: &[u64], seated: &mut Vec<Seated>)
    requires { All (CanPass planned.now.clock leads.now) seated.old.items }
    ensures { seated.new.items ≡ map (after_passing (clocks_at planned.now.cluster planned.now.clock leads.now) planned.now.cluster.state) seated.old.items }
{
    for number in 0..seated.len() {
        seated[number].pass(planned, leads);
    }
}
