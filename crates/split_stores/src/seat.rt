// The log of an actor, whose ticks rise.
ghost use Rattle.std.specs.Prelude.{◌≡◌, ◌+◌, ◌<◌, ◌^◌, [], true, false, OnOk, MatchOption, length, slice_get};
ghost use Rattle.tick_word.specs.Rule.{seat_limit};
ghost use Rattle.split_stores.specs.Logs.{IsNew, Adds, SameLog, Strikes, CanRise, ticks_of, rises_above, risen_by, rise_of};

use crate::Event;
use history_book::Item;
use stamp_base::NoMemory;
use std::alloc::Global;
use std::marker::Model;
use tick_word::{TickHandle, TickWord};

/// An event, the tick that it drew, and the items that it appended.
#[derive(Drop)]
pub struct Entry {
    /// The tick that it drew: its place in the order of all logs.
    pub tick: u64,
    /// The event.
    pub event: Event,
    /// The items that it appended, in order.
    pub kept: Vec<Item>,
}

/// The log of one actor, and its right to draw ticks.
#[derive(Drop)]
pub struct ActorSeat {
    pub(crate) entries: Vec<Entry>,
    pub(crate) risen: u64,
    pub(crate) seat: TickHandle,
}

impl Model for ActorSeat {
    ghost use Rattle.std.specs.Prelude.{◌≡◌, ◌<◌, ◌^◌, nat_lt, vec_len};
    ghost use Rattle.std.specs.Vec.{vec_capacity};
    ghost use Rattle.split_stores.specs.Logs.{Logged, IsKept, risen_by};

    ghost Value = { Logged };

    ghost view = { λ s. record { word = s.seat.word; entries = s.entries.items; ready = nat_lt (vec_len s.entries) (vec_capacity s.entries) } };

    ghost invariant = { λ s. IsKept s.entries.items s.seat × (s.risen ≡ risen_by s.entries.items) × (s.risen < 2 ^ 40) };
}

impl ActorSeat {
    pub(crate) fn new(alloc: Global, seat: TickHandle) -> ActorSeat
        requires { (seat.parts ≡ 1) × (seat.drawn ≡ []) }
        ensures { IsNew seat.word result }
    {
        ActorSeat {
            entries: Vec::new(alloc),
            risen: 0,
            seat,
        }
    }

    /// The log, in the order of its ticks, which rise.
    pub fn entries(&self) -> &[Entry]
        ensures { result.now ≡ self.now.entries }
    {
        self.entries.as_slice()
    }

    /// By how much the ticks of the clock in the log raise it, all together.
    pub fn risen(&self) -> u64
        ensures value { result ≡ risen_by self.now.entries }
        ensures far { risen_by self.now.entries < 2 ^ 40 }
    {
        self.risen
    }

    /// The ticks of the log rise, as this type says.
    pub fn rises(&self)
        ensures { rises_above 0 (ticks_of self.now.entries) ≡ true }
    {
        // (what a type says of a value is known once a field was read)
        let _risen = self.risen;
    }

    /// Takes what the entry at this place kept, counted from 0, and changes nothing else. False where there is no such entry.
    pub fn strike(&mut self, place: usize) -> bool
        ensures { MatchOption (slice_get self.old.entries place) ((result ≡ false) × SameLog self.old self.new) (λ was. (result ≡ true) × Strikes place was self.old self.new) }
    {
        if place >= self.entries.len() {
            return false;
        }
        self.entries[place].kept.clear();
        true
    }

    /// Makes room for one entry.
    pub(crate) fn reserve(&mut self) -> Result<(), NoMemory>
        ensures same { SameLog self.old self.new }
        ensures room { OnOk result (self.new.ready ≡ true) }
    {
        self.entries.reserve(1)?;
        Ok(())
    }

    /// Logs the event under the next tick, in the room that was made.
    pub(crate) fn log(&mut self, word: &TickWord, event: Event, kept: Vec<Item>)
        requires word { self.old.word ≡ word.now.id }
        requires few { length self.old.entries < seat_limit }
        requires rises { CanRise event self.old.entries }
        requires room { self.old.ready ≡ true }
        ensures { Adds event kept.items self.old self.new }
    {
        let tick = word.draw(&mut self.seat);
        self.risen += rise_of(&event);
        self.entries.push_reserved(Entry { tick, event, kept });
    }
}

/// By how much the event raises the base clock.
fn rise_of(event: &Event) -> u64
    ensures { result ≡ rise_of event.now }
{
    match event {
        Event::Tick { by } => *by,
        _ => 0,
    }
}
