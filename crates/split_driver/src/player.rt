// One actor that carries out its lines.
ghost use Rattle.std.specs.Prelude.{◌≡◌, ◌≤◌, ◌<◌, ◌-◌, [], IfErr, IfOk, IfSome, OnOk, Some, None, OnErr, true, false, length, slice_index_or};
ghost use Rattle.stamp_base.specs.declared.limits.TheConstants.{LINE_LIMIT};
ghost use Rattle.script_data.specs.declared.line.Verb.{Verb as Form};
ghost use Rattle.script_data.specs.Ticks.{tick_of};
ghost use Rattle.split_stores.specs.declared.seat.Entry.{Entry};
ghost use Rattle.split_parts.specs.declared.event.Event.{Event};
ghost use Rattle.split_stores.specs.Logs.{CanRise, Logged, rise_of};
ghost use Rattle.split_stores.specs.Makes.{Makes};
ghost use Rattle.log_refinement.specs.Follows as follows;
ghost use Rattle.log_refinement.specs.Owed.{is_paid, first_standing};
ghost use Rattle.split_driver.specs.Runs.{CanOpen, Enters, GoesOn, MayRun, OpensLine, PlaysLine, RisesInBounds, RiseInBounds, StopsIn, StopsOn, StopsOpening, TellsDrawn, stand};

use crate::account::Account;
use crate::choosing::{Choice, choose};
use crate::looking::look;
use crate::naming::{tell, wait_for};
use crate::opening::first_event;
use crate::owing::same_actor;
use crate::plain::plain_event;
use crate::{PlayStop, Posting};
use command_semantics::{Interruption, Point, follows, refused};
use event_parts::Stopped;
use history_book::{Actor, Cause, Item};
use script_data::{Line, Verb};
use split_stores::{ActorSeat, Entry, Event, Made, PartGate, Split};
use std::alloc::Global;
use std::sync::Wait;

/// An actor, with the stores over which it carries out its lines.
#[derive(Drop)]
pub(crate) struct Player<'a, R, G> {
    pub(crate) rt: &'a R,
    pub(crate) alloc: Global,
    pub(crate) split: &'a Split,
    pub(crate) posting: &'a Posting,
    pub(crate) gate: &'a G,
    pub(crate) actor: Actor,
}

impl<R: Wait, G: PartGate> Player<'_, R, G> {
    /// Carries out the actor's lines one after the other, each to its end.
    pub(crate) fn play_all(
        &self,
        seat: &mut ActorSeat,
        account: &mut Account,
        lines: &[Line],
    ) -> Result<(), PlayStop>
        requires word { seat.old.word ≡ self.now.split.now.id }
        requires fresh { (seat.old.entries ≡ []) × (account.old ≡ first_standing) }
        requires few { length lines.now ≤ LINE_LIMIT }
        requires ticks { RiseInBounds lines.now }
        ensures word { seat.new.word ≡ seat.old.word }
        ensures follows { OnOk result (follows.FollowsLines lines.now self.now.actor seat.new.entries) }
        ensures front { follows.FollowsSome lines.now self.now.actor seat.new.entries }
        ensures spent { IfErr result (TellsDrawn seat.new.entries) }
    {
        for line in lines {
            self.play_line(seat, account, line)?;
        }
        Ok(())
    }

    /// Carries out a line, if it is the actor's.
    fn play_line(
        &self,
        seat: &mut ActorSeat,
        account: &mut Account,
        line: &Line,
    ) -> Result<(), PlayStop>
        requires word { seat.old.word ≡ self.now.split.now.id }
        requires paid { is_paid account.old ≡ true }
        requires rises { CanOpen line.now.verb seat.old.entries }
        requires ticks { RisesInBounds line.now.verb }
        ensures word { seat.new.word ≡ seat.old.word }
        ensures plays { OnOk result (PlaysLine self.now.actor line.now (stand seat.old account.old) (stand seat.new account.new)) }
        ensures stops { OnErr result (StopsIn self.now.actor line.now (stand seat.old account.old) seat.new.entries) }
        ensures spent { IfErr result (TellsDrawn seat.new.entries) }
    {
        if !same_actor(&line.actor, &self.actor) {
            return Ok(());
        }
        match first_event(self.actor, &line.verb) {
            Some(event) => self.play_opening(seat, account, line, event),
            None => self.play_other(seat, account, line),
        }
    }

    /// Carries out a line of a form that has no opening item. Where the form tells no first event either, what is seen decides
    /// whether there is one.
    fn play_other(
        &self,
        seat: &mut ActorSeat,
        account: &mut Account,
        line: &Line,
    ) -> Result<(), PlayStop>
        requires word { seat.old.word ≡ self.now.split.now.id }
        requires paid { is_paid account.old ≡ true }
        requires ticks { RisesInBounds line.now.verb }
        requires none { follows.first_event self.now.actor line.now.verb ≡ None }
        requires own { follows.is_own self.now.actor line.now ≡ true }
        ensures word { seat.new.word ≡ seat.old.word }
        ensures plays { OnOk result (PlaysLine self.now.actor line.now (stand seat.old account.old) (stand seat.new account.new)) }
        ensures stops { OnErr result (StopsIn self.now.actor line.now (stand seat.old account.old) seat.new.entries) }
        ensures spent { IfErr result (TellsDrawn seat.new.entries) }
    {
        match plain_event(self.actor, &line.verb) {
            Some(event) => self.play_plain(seat, account, line, event),
            None => {
                self.run(seat, account, line, Point::Opens)?;
                Ok(())
            }
        }
    }

    /// Carries out a line that begins with this event, which appends no opening item.
    fn play_plain(
        &self,
        seat: &mut ActorSeat,
        account: &mut Account,
        line: &Line,
        event: Event,
    ) -> Result<(), PlayStop>
        requires word { seat.old.word ≡ self.now.split.now.id }
        requires paid { is_paid account.old ≡ true }
        requires rises { CanRise event seat.old.entries }
        requires ticks { RisesInBounds line.now.verb }
        requires first { follows.plain_event self.now.actor line.now.verb ≡ Some event }
        requires tick { rise_of event ≡ 0 }
        requires own { follows.is_own self.now.actor line.now ≡ true }
        ensures word { seat.new.word ≡ seat.old.word }
        ensures plays { OnOk result (PlaysLine self.now.actor line.now (stand seat.old account.old) (stand seat.new account.new)) }
        ensures stops { OnErr result (StopsOpening self.now.actor line.now.verb (stand seat.old account.old) seat.new.entries) }
        ensures spent { IfErr result (TellsDrawn seat.new.entries) }
    {
        let halt = self.open_plain(seat, account, event)?;
        let point = follows(&line.verb, Point::Opens, halt);
        self.run(seat, account, line, point)?;
        Ok(())
    }

    /// Carries out a line that has an opening item.
    fn play_opening(
        &self,
        seat: &mut ActorSeat,
        account: &mut Account,
        line: &Line,
        event: Event,
    ) -> Result<(), PlayStop>
        requires word { seat.old.word ≡ self.now.split.now.id }
        requires paid { is_paid account.old ≡ true }
        requires rises { CanRise event seat.old.entries }
        requires ticks { RisesInBounds line.now.verb }
        requires first { follows.first_event self.now.actor line.now.verb ≡ Some event }
        requires tick { rise_of event ≤ tick_of line.now.verb }
        requires own { follows.is_own self.now.actor line.now ≡ true }
        ensures word { seat.new.word ≡ seat.old.word }
        ensures plays { OnOk result (PlaysLine self.now.actor line.now (stand seat.old account.old) (stand seat.new account.new)) }
        ensures stops { OnErr result (StopsOpening self.now.actor line.now.verb (stand seat.old account.old) seat.new.entries) }
        ensures spent { IfErr result (TellsDrawn seat.new.entries) }
    {
        if let Err(stop) = wait_for(self.rt, self.split, self.posting, &line.verb) {
            return Err(stop);
        }
        let halt = self.open(seat, account, &line.verb, event)?;
        tell(self.rt, self.posting, &line.verb);
        let point = follows(&line.verb, Point::Opens, halt);
        self.run(seat, account, line, point)?;
        Ok(())
    }

    /// Makes the events of the line from this point on, until nothing is left to do.
    fn run(
        &self,
        seat: &mut ActorSeat,
        account: &mut Account,
        line: &Line,
        from: Point,
    ) -> Result<(), PlayStop>
        requires word { seat.old.word ≡ self.now.split.now.id }
        requires own { line.now.actor ≡ self.now.actor }
        requires ticks { RisesInBounds line.now.verb }
        requires may { MayRun self.now.actor line.now.verb from }
        ensures word { seat.new.word ≡ seat.old.word }
        ensures on { OnOk result (GoesOn self.now.actor (stand seat.old account.old) (stand seat.new account.new)) }
        ensures stops { OnErr result (StopsOn self.now.actor (stand seat.old account.old) seat.new.entries) }
        ensures paid { OnOk result (is_paid account.new ≡ true) }
        ensures spent { IfErr result (TellsDrawn seat.new.entries) }
    {
        let mut point = from;
        for _ in self.rt.forever() {
            match self.turn(seat, account, line, point)? {
                Some(then) => point = then,
                None => return Ok(()),
            }
        }
        unreachable!()
    }

    /// The next event of the line, and where the line stands then. None where nothing is left to do.
    fn turn(
        &self,
        seat: &mut ActorSeat,
        account: &mut Account,
        line: &Line,
        point: Point,
    ) -> Result<Option<Point>, PlayStop>
        requires word { seat.old.word ≡ self.now.split.now.id }
        requires own { line.now.actor ≡ self.now.actor }
        requires ticks { RisesInBounds line.now.verb }
        requires may { MayRun self.now.actor line.now.verb point }
        ensures word { seat.new.word ≡ seat.old.word }
        ensures on { OnOk result (GoesOn self.now.actor (stand seat.old account.old) (stand seat.new account.new)) }
        ensures stops { OnErr result (StopsOn self.now.actor (stand seat.old account.old) seat.new.entries) }
        ensures may { IfOk result (λ then. IfSome then (MayRun self.now.actor line.now.verb)) }
        ensures paid { IfOk result (λ then. then ≡ None → is_paid account.new ≡ true) }
        ensures spent { IfErr result (TellsDrawn seat.new.entries) }
    {
        let sight = look(self.rt, self.split, self.actor);
        match choose(line, point, &sight, account) {
            Choice::Event(event) => {
                let halt = self.go_on(seat, account, event)?;
                Ok(Some(follows(&line.verb, point, halt)))
            }
            Choice::Over => Ok(None),
            Choice::Stuck => Err(PlayStop::GaveUp),
        }
    }

    /// Makes the event with which a line opens.
    fn open(
        &self,
        seat: &mut ActorSeat,
        account: &mut Account,
        verb: &Verb,
        event: Event,
    ) -> Result<Option<Interruption>, PlayStop>
        requires word { seat.old.word ≡ self.now.split.now.id }
        requires paid { is_paid account.old ≡ true }
        requires rises { CanRise event seat.old.entries }
        requires first { follows.first_event self.now.actor verb.now ≡ Some event }
        requires tick { rise_of event ≤ tick_of verb.now }
        ensures word { seat.new.word ≡ seat.old.word }
        ensures opens { OnOk result (OpensLine self.now.actor verb.now (stand seat.old account.old) (stand seat.new account.new)) }
        ensures stops { OnErr result (StopsOpening self.now.actor verb.now (stand seat.old account.old) seat.new.entries) }
        ensures spent { IfErr result (TellsDrawn seat.new.entries) }
    {
        let halt = self.make(seat, event)?;
        let entry = newest(seat);
        account.open(&self.actor, verb, entry)?;
        if is_lost(entry, halt, account.is_paid()) {
            return Err(PlayStop::GaveUp);
        }
        Ok(halt)
    }

    /// Makes the event with which a line opens that has no opening item.
    fn open_plain(
        &self,
        seat: &mut ActorSeat,
        account: &mut Account,
        event: Event,
    ) -> Result<Option<Interruption>, PlayStop>
        requires word { seat.old.word ≡ self.now.split.now.id }
        requires paid { is_paid account.old ≡ true }
        requires rises { CanRise event seat.old.entries }
        requires tick { rise_of event ≡ 0 }
        ensures word { seat.new.word ≡ seat.old.word }
        ensures opens { OnOk result ((verb : Form) → follows.plain_event self.now.actor verb ≡ Some event → OpensLine self.now.actor verb (stand seat.old account.old) (stand seat.new account.new)) }
        ensures stops { OnErr result ((verb : Form) → follows.plain_event self.now.actor verb ≡ Some event → StopsOpening self.now.actor verb (stand seat.old account.old) seat.new.entries) }
        ensures spent { IfErr result (TellsDrawn seat.new.entries) }
    {
        let halt = self.make(seat, event)?;
        let entry = newest(seat);
        account.go_on(&self.actor, entry)?;
        if is_lost(entry, halt, account.is_paid()) {
            return Err(PlayStop::GaveUp);
        }
        Ok(halt)
    }

    /// Makes an event that goes on with a line.
    fn go_on(
        &self,
        seat: &mut ActorSeat,
        account: &mut Account,
        event: Event,
    ) -> Result<Option<Interruption>, PlayStop>
        requires word { seat.old.word ≡ self.now.split.now.id }
        requires later { follows.IsLater self.now.actor event }
        ensures word { seat.new.word ≡ seat.old.word }
        ensures on { OnOk result (GoesOn self.now.actor (stand seat.old account.old) (stand seat.new account.new)) }
        ensures stops { OnErr result (StopsOn self.now.actor (stand seat.old account.old) seat.new.entries) }
        ensures spent { IfErr result (TellsDrawn seat.new.entries) }
    {
        let halt = self.make(seat, event)?;
        let entry = newest(seat);
        account.go_on(&self.actor, entry)?;
        if is_lost(entry, halt, account.is_paid()) {
            return Err(PlayStop::GaveUp);
        }
        Ok(halt)
    }

    /// Makes an event, and says how it stopped, if it did.
    fn make(&self, seat: &mut ActorSeat, event: Event) -> Result<Option<Interruption>, PlayStop>
        requires word { seat.old.word ≡ self.now.split.now.id }
        requires rises { CanRise event seat.old.entries }
        ensures word { seat.new.word ≡ seat.old.word }
        ensures enters { Enters event seat.old seat.new result }
    {
        let made = self.split.make(self.rt, self.alloc, seat, event, self.gate);
        told(made)
    }
}

/// How an event stopped. A refusal and a fault are no end of the lines: they stand in the log.
fn told(made: Made) -> Result<Option<Interruption>, PlayStop>
    ensures { (event : Event) (old new : Logged) → Makes event made old new → Enters event old new result }
{
    match made {
        Made::Did => Ok(None),
        Made::Stopped(Stopped::Refused(cause)) => Ok(Some(refused(&cause))),
        Made::Stopped(Stopped::StoreFault(_)) => Ok(Some(Interruption::Faulted)),
        Made::Stopped(Stopped::NoMemory) => Err(PlayStop::NoMemory),
        Made::Spent { drawn } => Err(PlayStop::Spent { drawn }),
        Made::NoMemory => Err(PlayStop::NoMemory),
    }
}

/// The last entry of the log.
fn newest(seat: &ActorSeat) -> &Entry
    requires { 0 < length seat.now.entries }
    ensures { result.now ≡ slice_index_or seat.now.entries (length seat.now.entries - 1) result.now }
{
    let entries = seat.entries();
    &entries[entries.len() - 1]
}

/// Whether the line cannot go on: the parts of the event did not agree, or nothing is under way and yet something is owed.
fn is_lost(entry: &Entry, halt: Option<Interruption>, paid: bool) -> bool {
    is_torn(entry, halt) || !paid && shows_idle(entry.kept.as_slice())
}

/// The parts of the event did not agree. An open of a sweep alone appends nothing where it is made.
fn is_torn(entry: &Entry, halt: Option<Interruption>) -> bool {
    match (entry.event, halt) {
        (Event::SweepOpen { .. }, _) => false,
        (_, None) => entry.kept.is_empty(),
        _ => false,
    }
}

/// Nothing is under way, as the event has told.
fn shows_idle(items: &[Item]) -> bool {
    items.iter().any(|item| {
        matches!(
            item,
            Item::Refused {
                cause: Cause::Idle,
                ..
            }
        )
    })
}
