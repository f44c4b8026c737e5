// What an event asks of the parts besides the engine that they fill up: clock and setup, planned fates, and posted names.
ghost use Rattle.std.specs.Prelude.{◌≡◌, ◌≤◌, ◌↔◌, All, IfOk, IsTrue, option_map};
ghost use Rattle.stamp_base.specs.Setups.{numbers_of};
ghost use Rattle.machine.specs.Machine.{asks, stepped};
ghost use Rattle.cluster_core.specs.Required.{CanMake};
ghost use Rattle.cluster_core.specs.ClusterModel.{MakesStep};
ghost use Rattle.split_parts.specs.Acts.{noted, timed_by};
ghost use Rattle.split_parts.specs.Agrees.{CallsFit, ClockFits};
ghost use Rattle.split_parts.specs.Making.{AddsIf, called_after};
ghost use Rattle.split_parts.specs.Parts.{base_by, behind, called, fate_of, holder_by, LeasesBySetup, node_asked, posted_of, seen, setup_of};

use crate::fates::planned_fate;
use crate::timing::{node_for, timed};
use crate::{Event, Lent};
use cluster_core::ClusterState;
use event_parts::Stopped;
use machine::Event as TimedEvent;
use port_io::{Fate, OneFate};
use script_data::Target;
use stamp_base::{NoMemory, NodeNo, Setup, Store};

impl Lent<'_> {
    /// The setup of the script.
    pub(crate) fn setup(&self) -> Setup
        ensures { numbers_of result ≡ setup_of (seen self.now) }
    {
        self.plan.setup
    }

    /// Whether the lent record leases by the setup, which is that of the parts.
    pub(crate) fn leases_by(&self, setup: &Setup) -> bool
        requires { numbers_of setup.now ≡ setup_of (seen self.now) }
        ensures { IsTrue result ↔ LeasesBySetup (seen self.now) }
    {
        match &self.master {
            Some(part) => part.master.keeps(setup.lease, setup.skew, setup.range),
            None => true,
        }
    }

    /// The node that holds the lent record, or the first node where none does.
    fn holder(&self) -> NodeNo
        ensures { result ≡ holder_by (seen self.now).master }
    {
        match &self.master {
            Some(part) => part.holder(),
            None => NodeNo::FIRST,
        }
    }

    /// The node that an ask of the target is for, by the lent record.
    pub fn node_asked(&self, target: Target) -> NodeNo
        ensures { result ≡ node_asked (seen self.now) target }
    {
        node_for(self.holder(), target)
    }

    /// The event of the machine, at the readings of the nodes' clocks and the holder of the record.
    pub(crate) fn timed(&self, event: &Event) -> TimedEvent
        requires { ClockFits (seen self.now) event.now }
        ensures event { result ≡ timed_by (seen self.now) event.now }
        ensures leads { All (λ lead. lead ≤ 1000000) (seen self.now).plan.leads }
    {
        self.plan.tell_leads();
        timed(
            self.base(),
            self.plan.leads.as_slice(),
            self.holder(),
            event,
        )
    }

    /// The base clock.
    pub(crate) fn base(&self) -> u64
        ensures { result ≡ base_by (seen self.now).clock }
    {
        match &self.clock {
            Some(part) => part.base,
            None => 0,
        }
    }

    /// The planned fate of the next call on the store.
    pub(crate) fn fate(&self, store: Option<Store>) -> Fate
        requires { CallsFit (seen self.now) store }
        ensures { result ≡ fate_of (seen self.now) store }
    {
        match store {
            Some(Store::Cells) => match &self.cells {
                Some(part) => planned_fate(&self.plan.faults, Store::Cells, part.calls + 1),
                None => Fate::Works,
            },
            Some(Store::Table) => match &self.table {
                Some(part) => planned_fate(&self.plan.faults, Store::Table, part.calls + 1),
                None => Fate::Works,
            },
            Some(Store::Master) => match &self.master {
                Some(part) => planned_fate(&self.plan.faults, Store::Master, part.calls + 1),
                None => Fate::Works,
            },
            None => Fate::Works,
        }
    }

    /// A call on the store was made.
    pub(crate) fn count(&mut self, store: Option<Store>)
        requires { CallsFit (seen self.old) store }
        ensures parts { seen self.new ≡ called store (seen self.old) }
        ensures names { behind posted_of self.new.names ≡ behind posted_of self.old.names }
    {
        match store {
            Some(Store::Cells) => {
                if let Some(place) = &mut self.cells {
                    let part = &mut **place;
                    part.calls += 1;
                }
            }
            Some(Store::Table) => {
                if let Some(place) = &mut self.table {
                    let part = &mut **place;
                    part.calls += 1;
                }
            }
            Some(Store::Master) => {
                if let Some(place) = &mut self.master {
                    let part = &mut **place;
                    part.calls += 1;
                }
            }
            None => {}
        }
    }

    /// The engine, which the parts fill up, makes the event under the fate that is planned for its store call, which is counted.
    pub(crate) fn make(
        &mut self,
        engine: &mut ClusterState,
        event: &TimedEvent,
    ) -> Result<(), Stopped>
        requires calls { CallsFit (seen self.old) (asks engine.old.state event.now) }
        requires can { CanMake engine.old.state event.now }
        ensures made { MakesStep (stepped engine.old.state event.now (fate_of (seen self.old) (asks engine.old.state event.now))) engine.old engine.new result }
        ensures parts { seen self.new ≡ called_after (asks engine.old.state event.now) result (seen self.old) }
        ensures names { behind posted_of self.new.names ≡ behind posted_of self.old.names }
    {
        let store = engine.store_of(event);
        engine.make_ready(event)?;
        let made = engine.make(&mut OneFate::new(self.fate(store)), event);
        if !matches!(made, Err(Stopped::NoMemory)) {
            self.count(store);
        }
        made
    }

    /// Makes room for the name that the event posts, and gives it, if it is new.
    pub(crate) fn new_name(&mut self, event: &TimedEvent) -> Result<Option<Vec<u8>>, NoMemory>
        ensures parts { seen self.new ≡ seen self.old }
        ensures name { IfOk result (λ name. AddsIf (behind posted_of self.new.names) event.now (option_map (λ n. n.items) name)) }
    {
        match &mut self.names {
            Some(place) => {
                let part = &mut **place;
                part.names.make_room(event)
            }
            None => Ok(None),
        }
    }

    /// The clock stands where the event has it, and the name that it posts is posted.
    pub(crate) fn note(&mut self, event: &TimedEvent, name: Option<Vec<u8>>)
        requires { AddsIf (behind posted_of self.old.names) event.now (option_map (λ n. n.items) name) }
        ensures { seen self.new ≡ noted event.now (seen self.old) }
    {
        match event {
            TimedEvent::Tick { to } => {
                if let Some(place) = &mut self.clock {
                    let part = &mut **place;
                    part.base = *to;
                }
            }
            TimedEvent::Note { .. } => {
                if let Some(place) = &mut self.names {
                    let part = &mut **place;
                    part.names.add(name);
                }
            }
            _ => {}
        }
    }
}
