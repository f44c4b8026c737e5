// The parts that are lent to one event.
ghost use Rattle.std.specs.Prelude.{◌≡◌, ◌<◌, slice_index_or, slice_set, None};
ghost use Rattle.split_parts.specs.Parts.{behind, given_client, session_of, sessions_seen, rest_of};
ghost use Rattle.split_parts.specs.Swaps.{client_at, client_in};

use crate::parts::{
    CellsPart, ClockPart, JanitorPart, MasterPart, NamesPart, NodePart, SessionPart, TablePart,
};
use crate::plan::Plan;
use cluster_core::ClusterState;
use stamp_base::SessionNo;

/// What the script sets, and the parts that are lent to an event: sixteen sessions by their numbers, the janitor, the clock, a
/// node, the three stores, and the posted names. More may be lent than the event has to do with.
#[derive(Drop)]
pub struct Lent<'a> {
    /// What the script sets.
    pub plan: &'a Plan,
    /// Session 0.
    pub s0: Option<&'a mut SessionPart>,
    /// Session 1.
    pub s1: Option<&'a mut SessionPart>,
    /// Session 2.
    pub s2: Option<&'a mut SessionPart>,
    /// Session 3.
    pub s3: Option<&'a mut SessionPart>,
    /// Session 4.
    pub s4: Option<&'a mut SessionPart>,
    /// Session 5.
    pub s5: Option<&'a mut SessionPart>,
    /// Session 6.
    pub s6: Option<&'a mut SessionPart>,
    /// Session 7.
    pub s7: Option<&'a mut SessionPart>,
    /// Session 8.
    pub s8: Option<&'a mut SessionPart>,
    /// Session 9.
    pub s9: Option<&'a mut SessionPart>,
    /// Session 10.
    pub s10: Option<&'a mut SessionPart>,
    /// Session 11.
    pub s11: Option<&'a mut SessionPart>,
    /// Session 12.
    pub s12: Option<&'a mut SessionPart>,
    /// Session 13.
    pub s13: Option<&'a mut SessionPart>,
    /// Session 14.
    pub s14: Option<&'a mut SessionPart>,
    /// Session 15.
    pub s15: Option<&'a mut SessionPart>,
    /// The janitor, with its sweep.
    pub janitor: Option<&'a mut JanitorPart>,
    /// The base clock.
    pub clock: Option<&'a mut ClockPart>,
    /// The node of the event.
    pub node: Option<&'a mut NodePart>,
    /// The rows.
    pub cells: Option<&'a mut CellsPart>,
    /// The commit table.
    pub table: Option<&'a mut TablePart>,
    /// The master record.
    pub master: Option<&'a mut MasterPart>,
    /// The posted names.
    pub names: Option<&'a mut NamesPart>,
}

impl Lent<'_> {
    /// The session's client and the engine's stand for each other from now on, where the session is lent.
    pub(crate) fn swap_session(&mut self, engine: &mut ClusterState, number: usize)
        requires { number < 16 }
        ensures state { engine.new.state ≡ client_in engine.old.state number (slice_index_or (sessions_seen self.old) number None) }
        ensures history { engine.new.history ≡ engine.old.history }
        ensures sessions { sessions_seen self.new ≡ slice_set (sessions_seen self.old) number
            (given_client (slice_index_or (sessions_seen self.old) number None) (client_at engine.old.state number)) }
        ensures rest { rest_of self.new ≡ rest_of self.old }
    {
        match number {
            0 => swap_session(engine, number, &mut self.s0),
            1 => swap_session(engine, number, &mut self.s1),
            2 => swap_session(engine, number, &mut self.s2),
            3 => swap_session(engine, number, &mut self.s3),
            4 => swap_session(engine, number, &mut self.s4),
            5 => swap_session(engine, number, &mut self.s5),
            6 => swap_session(engine, number, &mut self.s6),
            7 => swap_session(engine, number, &mut self.s7),
            8 => swap_session(engine, number, &mut self.s8),
            9 => swap_session(engine, number, &mut self.s9),
            10 => swap_session(engine, number, &mut self.s10),
            11 => swap_session(engine, number, &mut self.s11),
            12 => swap_session(engine, number, &mut self.s12),
            13 => swap_session(engine, number, &mut self.s13),
            14 => swap_session(engine, number, &mut self.s14),
            15 => swap_session(engine, number, &mut self.s15),
            _ => {}
        }
    }
}

fn swap_session(engine: &mut ClusterState, number: usize, part: &mut Option<&mut SessionPart>)
    requires { number < 16 }
    ensures state { engine.new.state ≡ client_in engine.old.state number (behind session_of part.old) }
    ensures history { engine.new.history ≡ engine.old.history }
    ensures session { behind session_of part.new ≡ given_client (behind session_of part.old) (client_at engine.old.state number) }
{
    let Some(session) = SessionNo::new(number as u64) else {
        unreachable!();
    };
    if let Some(place) = part {
        let part = &mut **place;
        engine.swap_client(session, &mut part.client);
    }
}
