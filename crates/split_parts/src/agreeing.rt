// Whether the parts that are lent agree, so that the event can be made of them.
ghost use Rattle.std.specs.Prelude.{◌≡◌, ◌↔◌, ◌<◌, ℕ, IsSome, IsTrue, option_map};
ghost use Rattle.system_parts.specs.declared.session.State.TheVariants.{Free, Open};
ghost use Rattle.machine.specs.Events.Put.{to_place};
ghost use Rattle.cluster_core.specs.Required.{MayExtend, MayHeal, MayMakeStep, MaySweep};
ghost use Rattle.cluster_core.specs.Served.{held_in};
ghost use Rattle.split_parts.specs.Acts.{asked_of, timed_by};
ghost use Rattle.split_parts.specs.Agrees.{Agrees, CallsFit, ClockFits, Fits, HasNode, HasParts, HasSession, HoldsNoneIn, IsAsked, NotPlaced, store_by, WritesBare};
ghost use Rattle.split_parts.specs.Lookups.{client_lent, post_by, session_at};
ghost use Rattle.split_parts.specs.Parts.{behind, filled, node_asked, seen, session_of};

use crate::parts::SessionPart;
use crate::{Event, Lent, deciding};
use event_parts::Client;
use script_data::Target;
use stamp_base::{KeyNo, NodeNo, SessionNo, Store};
use system_parts::State;
use takeover_core::Post;

/// The base clock goes up to here, and fewer calls than this are made on a store.
const FAR: u64 = 1 << 60;

/// Whether the event's parts, which are all lent, agree, so that `act` can make the event of them: the numbers of clock and calls
/// are far from their end, a session has asked for just the request that the node holds of it, and holds none where it may ask;
/// a write meets a bare cell and a shadow no other one; a commit that is to be placed is not placed; and the record reaches as far
/// as the instance of its own term. It asks no weather and takes no memory.
pub fn agrees(lent: &Lent<'_>, event: &Event) -> bool
    requires { HasParts (seen lent.now) event.now }
    ensures { IsTrue result ↔ Agrees (seen lent.now) event.now }
{
    lent.clock_fits(event) && lent.calls_fit(event) && lent.parts_fit(event)
}

impl Lent<'_> {
    fn clock_fits(&self, event: &Event) -> bool
        ensures { IsTrue result ↔ ClockFits (seen self.now) event.now }
    {
        match event {
            Event::Tick { by } => self.base() <= FAR && *by <= FAR - self.base(),
            Event::Take { .. } | Event::Renew { .. } | Event::Accept { .. } => self.base() <= FAR,
            _ => true,
        }
    }

    fn calls_fit(&self, event: &Event) -> bool
        requires { HasParts (seen self.now) event.now }
        ensures { IsTrue result ↔ CallsFit (seen self.now) (store_by (seen self.now) event.now) }
    {
        self.are_few(self.store_of(event))
    }

    /// The store that the event has to do with.
    fn store_of(&self, event: &Event) -> Option<Store>
        requires { HasParts (seen self.now) event.now }
        ensures { result ≡ store_by (seen self.now) event.now }
    {
        match event {
            Event::Take { .. } | Event::Renew { .. } | Event::Extend { .. } => Some(Store::Master),
            Event::Put { .. } => Some(Store::Table),
            Event::Write { .. } | Event::Fetch { .. } | Event::Heal { .. } => Some(Store::Cells),
            Event::Step { session } => self.step_store(*session),
            Event::SweepStep => self.sweep_store(),
            _ => None,
        }
    }

    fn step_store(&self, session: SessionNo) -> Option<Store>
        requires { HasSession (seen self.now) session }
        ensures { result ≡ asked_of (seen self.now) (timed_by (seen self.now) (Event.Step session)) }
    {
        session_events::next_store(self.client(session)?)
    }

    pub(crate) fn sweep_store(&self) -> Option<Store>
        ensures { result ≡ asked_of (seen self.now) (timed_by (seen self.now) Event.SweepStep) }
    {
        match &self.janitor {
            Some(part) => session_events::sweep_store(&part.sweep),
            None => None,
        }
    }

    /// Few calls were made on the store so far.
    fn are_few(&self, store: Option<Store>) -> bool
        ensures { IsTrue result ↔ CallsFit (seen self.now) store }
    {
        match store {
            Some(Store::Cells) => match &self.cells {
                Some(part) => part.calls < FAR,
                None => true,
            },
            Some(Store::Table) => match &self.table {
                Some(part) => part.calls < FAR,
                None => true,
            },
            Some(Store::Master) => match &self.master {
                Some(part) => part.calls < FAR,
                None => true,
            },
            None => true,
        }
    }

    fn parts_fit(&self, event: &Event) -> bool
        requires { HasParts (seen self.now) event.now }
        ensures { IsTrue result ↔ Fits (seen self.now) event.now }
    {
        match event {
            Event::Extend { node } => self.extend_fits(*node),
            Event::Crash { node } => self.crash_fits(*node),
            Event::AskBegin { session, target } => self.begin_fits(*session, *target),
            Event::AskCommit { session, target } => self.commit_fits(*session, *target),
            Event::Accept { node, session } => self.request_fits(*node, *session),
            Event::Decide { node, session } => self.request_fits(*node, *session),
            Event::Answer { node, session } => self.request_fits(*node, *session),
            Event::Put { node, session } => self.put_fits(*node, *session),
            Event::Write { session, key, .. } => self.write_fits(*session, *key),
            Event::Step { session } => self.step_fits(*session),
            Event::Heal { session } => self.heal_fits(*session),
            Event::SweepStep => self.sweep_fits(),
            _ => true,
        }
    }
}

impl Lent<'_> {
    /// What is lent as the session's part.
    pub fn session(&self, session: SessionNo) -> Option<&SessionPart>
        ensures { option_map (λ p. session_of p.now) result ≡ session_at (seen self.now) session }
    {
        match session.index() {
            0 => part_of(&self.s0),
            1 => part_of(&self.s1),
            2 => part_of(&self.s2),
            3 => part_of(&self.s3),
            4 => part_of(&self.s4),
            5 => part_of(&self.s5),
            6 => part_of(&self.s6),
            7 => part_of(&self.s7),
            8 => part_of(&self.s8),
            9 => part_of(&self.s9),
            10 => part_of(&self.s10),
            11 => part_of(&self.s11),
            12 => part_of(&self.s12),
            13 => part_of(&self.s13),
            14 => part_of(&self.s14),
            15 => part_of(&self.s15),
            _ => None,
        }
    }

    /// The lent client of the session.
    pub(crate) fn client(&self, session: SessionNo) -> Option<&Client>
        ensures { option_map (λ c. c.now) result ≡ client_lent (seen self.now) session }
    {
        match self.session(session) {
            Some(part) => Some(&part.client),
            None => None,
        }
    }

    /// What stands at the lent node, where the setup has such a node.
    pub(crate) fn post(&self) -> Option<&Post>
        ensures { option_map (λ p. p.now) result ≡ post_by (seen self.now).plan.setup.nodes (seen self.now).node }
    {
        match &self.node {
            Some(part) if part.node.value() < self.plan.setup.nodes => Some(&part.post),
            _ => None,
        }
    }

    fn extend_fits(&self, node: NodeNo) -> bool
        requires { HasNode (seen self.now) node × IsSome (seen self.now).master }
        ensures { IsTrue result ↔ MayExtend (filled (seen self.now)) node }
    {
        let Some(post) = self.post() else {
            return true;
        };
        match &self.master {
            Some(part) => deciding::is_covered(post, &part.master),
            None => true,
        }
    }

    fn begin_fits(&self, session: SessionNo, target: Target) -> bool
        requires { HasSession (seen self.now) session × HasNode (seen self.now) (node_asked (seen self.now) target) }
        ensures { IsTrue result ↔ HoldsNoneIn Free (filled (seen self.now)) session (node_asked (seen self.now) target) }
    {
        let Some(client) = self.client(session) else {
            return true;
        };
        let Some(post) = self.post() else {
            return true;
        };
        deciding::holds_none_in(client, State::Free, post, session)
    }

    fn commit_fits(&self, session: SessionNo, target: Target) -> bool
        requires { HasSession (seen self.now) session × HasNode (seen self.now) (node_asked (seen self.now) target) }
        ensures { IsTrue result ↔ HoldsNoneIn Open (filled (seen self.now)) session (node_asked (seen self.now) target) }
    {
        let Some(client) = self.client(session) else {
            return true;
        };
        let Some(post) = self.post() else {
            return true;
        };
        deciding::holds_none_in(client, State::Open, post, session)
    }

    fn request_fits(&self, node: NodeNo, session: SessionNo) -> bool
        requires { HasSession (seen self.now) session × HasNode (seen self.now) node }
        ensures { IsTrue result ↔ IsAsked (filled (seen self.now)) node session }
    {
        let Some(client) = self.client(session) else {
            return true;
        };
        let Some(post) = self.post() else {
            return true;
        };
        deciding::has_asked(client, post, session)
    }

    /// Each session has asked for the request that the node holds of it.
    fn crash_fits(&self, node: NodeNo) -> bool
        requires { ((session : ℕ) → session < 16 → HasSession (seen self.now) session) × HasNode (seen self.now) node }
        ensures { IsTrue result ↔ ((session : ℕ) → IsAsked (filled (seen self.now)) node session) }
    {
        for number in 0..SessionNo::COUNT as u64 {
            let Some(session) = SessionNo::new(number) else {
                unreachable!();
            };
            if !self.request_fits(node, session) {
                return false;
            }
        }
        true
    }

    fn put_fits(&self, node: NodeNo, session: SessionNo) -> bool
        requires { HasNode (seen self.now) node × IsSome (seen self.now).table }
        ensures { IsTrue result ↔ NotPlaced (filled (seen self.now)).pairs (to_place (held_in (filled (seen self.now)) node session)) }
    {
        let Some(post) = self.post() else {
            return true;
        };
        match &self.table {
            Some(part) => deciding::is_not_placed(post, session, &part.table),
            None => true,
        }
    }

    fn write_fits(&self, session: SessionNo, key: KeyNo) -> bool
        requires { HasSession (seen self.now) session × IsSome (seen self.now).cells }
        ensures { IsTrue result ↔ WritesBare (filled (seen self.now)) session key }
    {
        let Some(client) = self.client(session) else {
            return true;
        };
        match &self.cells {
            Some(part) => deciding::writes_bare(client, &part.cells, key),
            None => true,
        }
    }

    fn heal_fits(&self, session: SessionNo) -> bool
        requires { HasSession (seen self.now) session × IsSome (seen self.now).cells }
        ensures { IsTrue result ↔ MayHeal (filled (seen self.now)) session }
    {
        let Some(client) = self.client(session) else {
            return true;
        };
        match &self.cells {
            Some(part) => deciding::heals_only(client, &part.cells),
            None => true,
        }
    }

    /// Where the cells are not lent, they are empty, and have no shadow.
    fn step_fits(&self, session: SessionNo) -> bool
        requires { HasSession (seen self.now) session }
        ensures { IsTrue result ↔ MayMakeStep (filled (seen self.now)) session }
    {
        let Some(client) = self.client(session) else {
            return true;
        };
        match &self.cells {
            Some(part) => deciding::steps_keep(client, &part.cells),
            None => true,
        }
    }

    fn sweep_fits(&self) -> bool
        ensures { IsTrue result ↔ MaySweep (filled (seen self.now)) }
    {
        let Some(janitor) = &self.janitor else {
            return true;
        };
        match &self.cells {
            Some(part) => deciding::sweeps_keep(&janitor.sweep, &part.cells),
            None => true,
        }
    }
}

fn part_of<'a>(part: &'a Option<&mut SessionPart>) -> Option<&'a SessionPart>
    ensures { option_map (λ p. session_of p.now) result ≡ behind session_of part.now }
{
    match part {
        Some(part) => Some(part),
        None => None,
    }
}
