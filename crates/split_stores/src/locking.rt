// The parts that an event has to do with, locked. Locks are taken in the order sessions by their numbers, janitor, clock,
// master record, node, cells, table, names.
ghost use Rattle.std.specs.Prelude.{◌≡◌, ◌≤◌, IsSome, length};
ghost use Rattle.split_parts.specs.declared.event.Event.TheVariants as event;
ghost use Rattle.split_parts.specs.Agrees.{HasRecordFor};
ghost use Rattle.split_parts.specs.Lending.{LendsBelow, LendsSession};
ghost use Rattle.split_stores.specs.Locks.{IsReady, Suffices};
ghost use Rattle.split_stores.specs.Logs.{CanRise};
ghost use Rattle.split_stores.specs.Makes.{IsSpent, MadeOf, MadeOfParts, Makes};
ghost use Rattle.tick_word.specs.Rule.{seat_limit};

use crate::inside::Turn;
use crate::{ActorSeat, Event, Lent, Made, PartGate, Split};
use script_data::Target;
use session_events::{next_store, sweep_store};
use stamp_base::{NodeNo, SessionNo, Store};
use std::alloc::Global;
use std::sync::Wait;
use tick_word::SEAT_LIMIT;

impl Split {
    /// Makes the event of its parts under their locks, which pass the gate, by what the script sets, and logs it under one tick
    /// with the items that it appends. Where the parts do not agree it is logged alone. Where memory is refused, or the seat has
    /// drawn all its ticks, no tick is drawn and all is as before.
    pub fn make<R: Wait, G: PartGate>(
        &self,
        rt: &R,
        alloc: Global,
        seat: &mut ActorSeat,
        event: Event,
        gate: &G,
    ) -> Made
        requires seat { seat.old.word ≡ self.now.id }
        requires rises { CanRise event seat.old.entries }
        ensures word { seat.new.word ≡ seat.old.word }
        ensures made { Makes event result seat.old seat.new }
        ensures parts { MadeOf self.now.plan event result seat.old seat.new }
        ensures spent { seat_limit ≤ length seat.old.entries → IsSpent result }
    {
        let drawn = seat.entries().len() as u64;
        if drawn >= SEAT_LIMIT {
            return Made::Spent { drawn };
        }
        if seat.reserve().is_err() {
            return Made::NoMemory;
        }
        let turn = Turn {
            rt,
            alloc,
            event,
            gate,
        };
        self.at_parts(&turn, seat)
    }

    /// Locks the event's parts, and makes it there.
    #[tactic(auto, using(crate::proofs::LockLemmas::has_node, crate::proofs::LockLemmas::has_session))]
    fn at_parts<R: Wait, G: PartGate>(&self, turn: &Turn<'_, R, G>, seat: &mut ActorSeat) -> Made
        requires { IsReady self.now.id turn.now.event seat.old }
        ensures { MadeOfParts self.now.plan turn.now.event result seat.old seat.new }
    {
        match turn.event {
            Event::Tick { .. } => self.at_clock(turn, seat),
            Event::Note { .. } => self.at_names(turn, seat),
            Event::Take { node } => self.at_clock_and_record(turn, seat, node),
            Event::Renew { node } => self.at_clock_and_record(turn, seat, node),
            Event::Extend { node } => self.at_record(turn, seat, node),
            Event::Crash { node } => self.at_all_sessions(turn, seat, node),
            Event::AskBegin { session, target } => self.at_target(turn, seat, session, target),
            Event::AskCommit { session, target } => self.at_target(turn, seat, session, target),
            Event::Accept { node, session } => self.at_session_and_clock(turn, seat, session, node),
            Event::Decide { node, session } => self.at_session_and_node(turn, seat, session, node),
            Event::Put { node, .. } => self.at_node_and_table(turn, seat, node),
            Event::Answer { node, session } => self.at_session_and_node(turn, seat, session, node),
            Event::Write { session, .. } => self.at_session_and_cells(turn, seat, session),
            Event::Fetch { session, .. } => self.at_session_and_cells(turn, seat, session),
            Event::Step { session } => self.at_next_step(turn, seat, session),
            Event::Heal { session } => self.at_session_and_cells(turn, seat, session),
            Event::Abort { session } => self.at_session(turn, seat, session),
            Event::Vanish { session } => self.at_session(turn, seat, session),
            Event::SweepOpen { node, .. } => self.at_janitor_and_node(turn, seat, node),
            Event::SweepStep => self.at_next_sweep_step(turn, seat),
        }
    }

    fn at_clock<R: Wait, G: PartGate>(&self, turn: &Turn<'_, R, G>, seat: &mut ActorSeat) -> Made
        requires ready { IsReady self.now.id turn.now.event seat.old }
        requires parts { Suffices (λ l. IsSome l.clock) turn.now.event }
        ensures { MadeOfParts self.now.plan turn.now.event result seat.old seat.new }
    {
        let mut clock = self.clock.lock(turn.rt);
        let mut lent = Lent::none(&self.plan).with_clock(&mut clock);
        turn.inside(self, seat, &mut lent)
    }

    fn at_names<R: Wait, G: PartGate>(&self, turn: &Turn<'_, R, G>, seat: &mut ActorSeat) -> Made
        requires ready { IsReady self.now.id turn.now.event seat.old }
        requires parts { Suffices (λ l. IsSome l.names) turn.now.event }
        ensures { MadeOfParts self.now.plan turn.now.event result seat.old seat.new }
    {
        let mut names = self.names.lock(turn.rt);
        let mut lent = Lent::none(&self.plan).with_names(&mut names);
        turn.inside(self, seat, &mut lent)
    }

    fn at_clock_and_record<R: Wait, G: PartGate>(
        &self,
        turn: &Turn<'_, R, G>,
        seat: &mut ActorSeat,
        node: NodeNo,
    ) -> Made
        requires ready { IsReady self.now.id turn.now.event seat.old }
        requires parts { Suffices (λ l. IsSome l.clock × IsSome l.node × IsSome l.master) turn.now.event }
        ensures { MadeOfParts self.now.plan turn.now.event result seat.old seat.new }
    {
        let mut clock = self.clock.lock(turn.rt);
        let mut master = self.master.lock(turn.rt);
        let mut post = self.nodes[node.index()].lock(turn.rt);
        let mut lent = Lent::none(&self.plan)
            .with_clock(&mut clock)
            .with_node(&mut post)
            .with_master(&mut master);
        turn.inside(self, seat, &mut lent)
    }

    fn at_record<R: Wait, G: PartGate>(
        &self,
        turn: &Turn<'_, R, G>,
        seat: &mut ActorSeat,
        node: NodeNo,
    ) -> Made
        requires ready { IsReady self.now.id turn.now.event seat.old }
        requires parts { Suffices (λ l. IsSome l.node × IsSome l.master) turn.now.event }
        ensures { MadeOfParts self.now.plan turn.now.event result seat.old seat.new }
    {
        let mut master = self.master.lock(turn.rt);
        let mut post = self.nodes[node.index()].lock(turn.rt);
        let mut lent = Lent::none(&self.plan)
            .with_node(&mut post)
            .with_master(&mut master);
        turn.inside(self, seat, &mut lent)
    }

    #[tactic(auto, using(split_parts::proofs::LentSessions::none_below))]
    fn at_all_sessions<R: Wait, G: PartGate>(
        &self,
        turn: &Turn<'_, R, G>,
        seat: &mut ActorSeat,
        node: NodeNo,
    ) -> Made
        requires ready { IsReady self.now.id turn.now.event seat.old }
        requires parts { Suffices (λ l. LendsBelow 16 l × IsSome l.node) turn.now.event }
        ensures { MadeOfParts self.now.plan turn.now.event result seat.old seat.new }
    {
        let mut s0 = self.sessions[0].lock(turn.rt);
        let mut s1 = self.sessions[1].lock(turn.rt);
        let mut s2 = self.sessions[2].lock(turn.rt);
        let mut s3 = self.sessions[3].lock(turn.rt);
        let mut s4 = self.sessions[4].lock(turn.rt);
        let mut s5 = self.sessions[5].lock(turn.rt);
        let mut s6 = self.sessions[6].lock(turn.rt);
        let mut s7 = self.sessions[7].lock(turn.rt);
        let mut s8 = self.sessions[8].lock(turn.rt);
        let mut s9 = self.sessions[9].lock(turn.rt);
        let mut s10 = self.sessions[10].lock(turn.rt);
        let mut s11 = self.sessions[11].lock(turn.rt);
        let mut s12 = self.sessions[12].lock(turn.rt);
        let mut s13 = self.sessions[13].lock(turn.rt);
        let mut s14 = self.sessions[14].lock(turn.rt);
        let mut s15 = self.sessions[15].lock(turn.rt);
        let mut post = self.nodes[node.index()].lock(turn.rt);
        let mut lent = Lent::none(&self.plan)
            .with_next_session(0, &mut s0)
            .with_next_session(1, &mut s1)
            .with_next_session(2, &mut s2)
            .with_next_session(3, &mut s3)
            .with_next_session(4, &mut s4)
            .with_next_session(5, &mut s5)
            .with_next_session(6, &mut s6)
            .with_next_session(7, &mut s7)
            .with_next_session(8, &mut s8)
            .with_next_session(9, &mut s9)
            .with_next_session(10, &mut s10)
            .with_next_session(11, &mut s11)
            .with_next_session(12, &mut s12)
            .with_next_session(13, &mut s13)
            .with_next_session(14, &mut s14)
            .with_next_session(15, &mut s15)
            .with_node(&mut post);
        turn.inside(self, seat, &mut lent)
    }

    #[tactic(auto, using(split_parts::proofs::LentSessions::has_set))]
    fn at_session<R: Wait, G: PartGate>(
        &self,
        turn: &Turn<'_, R, G>,
        seat: &mut ActorSeat,
        session: SessionNo,
    ) -> Made
        requires ready { IsReady self.now.id turn.now.event seat.old }
        requires parts { Suffices (λ l. LendsSession l session) turn.now.event }
        ensures { MadeOfParts self.now.plan turn.now.event result seat.old seat.new }
    {
        let mut client = self.sessions[session.index()].lock(turn.rt);
        let mut lent = Lent::none(&self.plan).with_session(session.index(), &mut client);
        turn.inside(self, seat, &mut lent)
    }

    #[tactic(auto, using(split_parts::proofs::LentSessions::has_set))]
    fn at_session_and_node<R: Wait, G: PartGate>(
        &self,
        turn: &Turn<'_, R, G>,
        seat: &mut ActorSeat,
        session: SessionNo,
        node: NodeNo,
    ) -> Made
        requires ready { IsReady self.now.id turn.now.event seat.old }
        requires parts { Suffices (λ l. LendsSession l session × IsSome l.node) turn.now.event }
        ensures { MadeOfParts self.now.plan turn.now.event result seat.old seat.new }
    {
        let mut client = self.sessions[session.index()].lock(turn.rt);
        let mut post = self.nodes[node.index()].lock(turn.rt);
        let mut lent = Lent::none(&self.plan)
            .with_session(session.index(), &mut client)
            .with_node(&mut post);
        turn.inside(self, seat, &mut lent)
    }

    /// The parts of an ask. Who asks the master locks the record first, which tells the node.
    fn at_target<R: Wait, G: PartGate>(
        &self,
        turn: &Turn<'_, R, G>,
        seat: &mut ActorSeat,
        session: SessionNo,
        target: Target,
    ) -> Made
        requires ready { IsReady self.now.id turn.now.event seat.old }
        requires parts { Suffices (λ l. LendsSession l session × IsSome l.node × HasRecordFor l target) turn.now.event }
        ensures { MadeOfParts self.now.plan turn.now.event result seat.old seat.new }
    {
        match target {
            Target::Node(node) => self.at_session_and_node(turn, seat, session, node),
            Target::Master => self.at_session_and_holder(turn, seat, session),
        }
    }

    #[tactic(auto, using(split_parts::proofs::LentSessions::has_set))]
    fn at_session_and_holder<R: Wait, G: PartGate>(
        &self,
        turn: &Turn<'_, R, G>,
        seat: &mut ActorSeat,
        session: SessionNo,
    ) -> Made
        requires ready { IsReady self.now.id turn.now.event seat.old }
        requires parts { Suffices (λ l. LendsSession l session × IsSome l.node × IsSome l.master) turn.now.event }
        ensures { MadeOfParts self.now.plan turn.now.event result seat.old seat.new }
    {
        let mut client = self.sessions[session.index()].lock(turn.rt);
        let mut master = self.master.lock(turn.rt);
        let node = master.holder();
        let mut post = self.nodes[node.index()].lock(turn.rt);
        let mut lent = Lent::none(&self.plan)
            .with_session(session.index(), &mut client)
            .with_master(&mut master)
            .with_node(&mut post);
        turn.inside(self, seat, &mut lent)
    }

    #[tactic(auto, using(split_parts::proofs::LentSessions::has_set))]
    fn at_session_and_clock<R: Wait, G: PartGate>(
        &self,
        turn: &Turn<'_, R, G>,
        seat: &mut ActorSeat,
        session: SessionNo,
        node: NodeNo,
    ) -> Made
        requires ready { IsReady self.now.id turn.now.event seat.old }
        requires parts { Suffices (λ l. LendsSession l session × IsSome l.clock × IsSome l.node) turn.now.event }
        ensures { MadeOfParts self.now.plan turn.now.event result seat.old seat.new }
    {
        let mut client = self.sessions[session.index()].lock(turn.rt);
        let mut clock = self.clock.lock(turn.rt);
        let mut post = self.nodes[node.index()].lock(turn.rt);
        let mut lent = Lent::none(&self.plan)
            .with_session(session.index(), &mut client)
            .with_clock(&mut clock)
            .with_node(&mut post);
        turn.inside(self, seat, &mut lent)
    }

    fn at_node_and_table<R: Wait, G: PartGate>(
        &self,
        turn: &Turn<'_, R, G>,
        seat: &mut ActorSeat,
        node: NodeNo,
    ) -> Made
        requires ready { IsReady self.now.id turn.now.event seat.old }
        requires parts { Suffices (λ l. IsSome l.node × IsSome l.table) turn.now.event }
        ensures { MadeOfParts self.now.plan turn.now.event result seat.old seat.new }
    {
        let mut post = self.nodes[node.index()].lock(turn.rt);
        let mut table = self.table.lock(turn.rt);
        let mut lent = Lent::none(&self.plan)
            .with_node(&mut post)
            .with_table(&mut table);
        turn.inside(self, seat, &mut lent)
    }

    #[tactic(auto, using(split_parts::proofs::LentSessions::has_set))]
    fn at_session_and_cells<R: Wait, G: PartGate>(
        &self,
        turn: &Turn<'_, R, G>,
        seat: &mut ActorSeat,
        session: SessionNo,
    ) -> Made
        requires ready { IsReady self.now.id turn.now.event seat.old }
        requires parts { Suffices (λ l. LendsSession l session × IsSome l.cells) turn.now.event }
        ensures { MadeOfParts self.now.plan turn.now.event result seat.old seat.new }
    {
        let mut client = self.sessions[session.index()].lock(turn.rt);
        let mut cells = self.cells.lock(turn.rt);
        let mut lent = Lent::none(&self.plan)
            .with_session(session.index(), &mut client)
            .with_cells(&mut cells);
        turn.inside(self, seat, &mut lent)
    }

    fn at_janitor_and_node<R: Wait, G: PartGate>(
        &self,
        turn: &Turn<'_, R, G>,
        seat: &mut ActorSeat,
        node: NodeNo,
    ) -> Made
        requires ready { IsReady self.now.id turn.now.event seat.old }
        requires parts { Suffices (λ l. IsSome l.janitor × IsSome l.node) turn.now.event }
        ensures { MadeOfParts self.now.plan turn.now.event result seat.old seat.new }
    {
        let mut janitor = self.janitor.lock(turn.rt);
        let mut post = self.nodes[node.index()].lock(turn.rt);
        let mut lent = Lent::none(&self.plan)
            .with_janitor(&mut janitor)
            .with_node(&mut post);
        turn.inside(self, seat, &mut lent)
    }

    /// The store that a step asks is known once its session is locked.
    #[tactic(auto, using(split_parts::proofs::LentSessions::has_set, crate::proofs::LockLemmas::step_holds))]
    fn at_next_step<R: Wait, G: PartGate>(
        &self,
        turn: &Turn<'_, R, G>,
        seat: &mut ActorSeat,
        session: SessionNo,
    ) -> Made
        requires ready { IsReady self.now.id turn.now.event seat.old }
        requires step { turn.now.event ≡ event.Step session }
        ensures { MadeOfParts self.now.plan turn.now.event result seat.old seat.new }
    {
        let mut client = self.sessions[session.index()].lock(turn.rt);
        match next_store(client.client()) {
            None => {
                let mut lent = Lent::none(&self.plan).with_session(session.index(), &mut client);
                turn.inside(self, seat, &mut lent)
            }
            Some(Store::Cells) => {
                let mut cells = self.cells.lock(turn.rt);
                let mut lent = Lent::none(&self.plan)
                    .with_session(session.index(), &mut client)
                    .with_cells(&mut cells);
                turn.inside(self, seat, &mut lent)
            }
            Some(Store::Table) => {
                let mut table = self.table.lock(turn.rt);
                let mut lent = Lent::none(&self.plan)
                    .with_session(session.index(), &mut client)
                    .with_table(&mut table);
                turn.inside(self, seat, &mut lent)
            }
            Some(Store::Master) => {
                let mut master = self.master.lock(turn.rt);
                let mut lent = Lent::none(&self.plan)
                    .with_session(session.index(), &mut client)
                    .with_master(&mut master);
                turn.inside(self, seat, &mut lent)
            }
        }
    }

    /// The store that a step of a sweep asks is known once the janitor is locked.
    #[tactic(auto, using(crate::proofs::LockLemmas::sweep_holds))]
    fn at_next_sweep_step<R: Wait, G: PartGate>(
        &self,
        turn: &Turn<'_, R, G>,
        seat: &mut ActorSeat,
    ) -> Made
        requires ready { IsReady self.now.id turn.now.event seat.old }
        requires step { turn.now.event ≡ event.SweepStep }
        ensures { MadeOfParts self.now.plan turn.now.event result seat.old seat.new }
    {
        let mut janitor = self.janitor.lock(turn.rt);
        match sweep_store(janitor.sweep()) {
            None => {
                let mut lent = Lent::none(&self.plan).with_janitor(&mut janitor);
                turn.inside(self, seat, &mut lent)
            }
            Some(Store::Cells) => {
                let mut cells = self.cells.lock(turn.rt);
                let mut lent = Lent::none(&self.plan)
                    .with_janitor(&mut janitor)
                    .with_cells(&mut cells);
                turn.inside(self, seat, &mut lent)
            }
            Some(Store::Table) => {
                let mut table = self.table.lock(turn.rt);
                let mut lent = Lent::none(&self.plan)
                    .with_janitor(&mut janitor)
                    .with_table(&mut table);
                turn.inside(self, seat, &mut lent)
            }
            Some(Store::Master) => {
                let mut master = self.master.lock(turn.rt);
                let mut lent = Lent::none(&self.plan)
                    .with_janitor(&mut janitor)
                    .with_master(&mut master);
                turn.inside(self, seat, &mut lent)
            }
        }
    }
}
