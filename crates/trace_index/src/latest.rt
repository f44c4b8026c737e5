// The latest event of each process.
ghost use Rattle.std.specs.Prelude.{◌≡◌, [], length, option_map, slice_get, OnOk};

use indexmap::IndexMap;
use stamp_base::NoMemory;
use std::alloc::Global;
use std::marker::Model;
use trace_reading::Event;

/// The latest event of each process, in the order in which the processes came.
#[derive(Drop)]
pub struct Latest {
    events: IndexMap<u64, Event>,
}

impl Model for Latest {
    ghost use Rattle.std.specs.Prelude.{ℕ, List};
    ghost use Rattle.trace_reading.specs.declared.event.Event.{Event};

    ghost Value = { List (ℕ × Event) };

    ghost view = { λ l. l.events.entries };
}

impl Latest {
    ghost use Rattle.trace_index.specs.Attempts.{latest_of, with_latest};

    /// The latest of no events.
    pub fn new(alloc: Global) -> Latest
        ensures { result ≡ [] }
    {
        Latest {
            events: IndexMap::new(alloc),
        }
    }

    /// The latest event of the process.
    pub fn of(&self, process: u64) -> Option<Event>
        ensures { result ≡ latest_of process self.now }
    {
        self.events.get(&process).copied()
    }

    /// Notes the event as the latest of its process. NoMemory where memory is refused.
    pub fn note(&mut self, event: Event) -> Result<(), NoMemory>
        ensures { OnOk result (self.new ≡ with_latest event self.old) }
    {
        self.events.insert(event.process, event)?;
        Ok(())
    }

    /// How many processes there are.
    pub fn len(&self) -> usize
        ensures { result ≡ length self.now }
    {
        self.events.len()
    }

    /// The latest event of the process that came behind so many others.
    pub fn at(&self, place: usize) -> Option<Event>
        ensures { result ≡ option_map (λ e. e.1) (slice_get self.now place) }
    {
        match self.events.get_index(place) {
            Some((_, event)) => Some(*event),
            None => None,
        }
    }
}
