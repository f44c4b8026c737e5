// What was recorded of a store, and how a name or a number is added to it.
ghost use Rattle.std.specs.Prelude.{◌≡◌, IfOk, OnOk, length, option_map, slice_get};
ghost use Rattle.serde_json.specs.View.{view};
ghost use Rattle.trace_reading.specs.Steps.{Finds, Takes, Leaves};
ghost use Rattle.trace_reading.specs.Names.{number_of};
ghost use Rattle.trace_reading.specs.Operations.{named, whole_or_none};
ghost use Rattle.trace_reading.specs.Recording.{nothing_recorded, with_name, with_listed, with_operation, with_event};

use crate::event::Event;
use crate::names::Names;
use crate::operation::Operation;
use crate::want::{Stop, Want};
use serde_json::Value;
use std::alloc::Global;
use std::marker::Model;

/// What was recorded: events in their order, with their operations, and names of keys, values and processes by their numbers.
#[derive(Drop)]
pub struct Recording {
    names: Names,
    events: Vec<Event>,
    operations: Vec<Operation>,
    listed: Vec<u64>,
}

impl Model for Recording {
    ghost use Rattle.trace_reading.specs.Recording.{Recorded};

    ghost Value = { Recorded };

    ghost view = { λ r. record { names = r.names; events = r.events.items; operations = r.operations.items; listed = r.listed.items } };
}

impl Recording {
    /// Nothing.
    pub fn new(alloc: Global) -> Recording
        ensures { result ≡ nothing_recorded }
    {
        Recording {
            names: Names::new(alloc),
            events: Vec::new(alloc),
            operations: Vec::new(alloc),
            listed: Vec::new(alloc),
        }
    }

    /// The events, in their order.
    pub fn events(&self) -> &[Event]
        ensures { result.now ≡ self.now.events }
    {
        &self.events
    }

    /// The operations of all events, one behind another.
    pub fn operations(&self) -> &[Operation]
        ensures { result.now ≡ self.now.operations }
    {
        &self.operations
    }

    /// The values of all reads of lists, one behind another.
    pub fn listed(&self) -> &[u64]
        ensures { result.now ≡ self.now.listed }
    {
        &self.listed
    }

    /// The name of this number: of a key, a value or a process.
    pub fn name(&self, number: u64) -> Option<&[u8]>
        ensures { option_map (λ name. name.now) result ≡ slice_get self.now.names number }
    {
        self.names.get(number)
    }

    pub(crate) fn listed_len(&self) -> u64
        ensures { result ≡ length self.now.listed }
    {
        self.listed.len() as u64
    }

    pub(crate) fn operations_len(&self) -> u64
        ensures { result ≡ length self.now.operations }
    {
        self.operations.len() as u64
    }

    pub(crate) fn push_listed(&mut self, value: u64) -> Result<(), Stop>
        ensures { Leaves (Ok (with_listed value self.old)) self.new result }
    {
        self.listed.push(value)?;
        Ok(())
    }

    pub(crate) fn push_operation(&mut self, operation: Operation) -> Result<(), Stop>
        ensures { Leaves (Ok (with_operation operation self.old)) self.new result }
    {
        self.operations.extend_from_slice(&[operation])?;
        Ok(())
    }

    pub(crate) fn push_event(&mut self, event: Event) -> Result<(), Stop>
        ensures { Leaves (Ok (with_event event self.old)) self.new result }
    {
        self.events.extend_from_slice(&[event])?;
        Ok(())
    }

    /// The number of the name that the value is: a text, or the digits of a whole number.
    pub(crate) fn named(
        &mut self,
        alloc: Global,
        want: Want,
        value: Option<&Value>,
    ) -> Result<u64, Stop>
        ensures { Takes (named self.old want (option_map (λ v. view v.now) value.entry)) self.new result }
    {
        let Some(value) = value else {
            return Err(Stop::Wants(want));
        };
        if let Some(text) = value.as_str() {
            return self.numbered(alloc, text.as_bytes());
        }
        if let Some(number) = value.as_u64() {
            let mut buffer = itoa::Buffer::new();
            return self.numbered(alloc, buffer.format(number).as_bytes());
        }
        Err(Stop::Wants(want))
    }

    fn numbered(&mut self, alloc: Global, name: &[u8]) -> Result<u64, Stop>
        ensures { Takes (Ok (number_of name.now self.old.names, with_name name.now self.old)) self.new result }
    {
        Ok(self.names.number_of(alloc, name)?)
    }
}

/// A whole number, which may be left out or null.
pub(crate) fn whole_or_none(want: Want, value: Option<&Value>) -> Result<Option<u64>, Stop>
    ensures { Finds (whole_or_none want (option_map (λ v. view v.now) value.entry)) result }
{
    let Some(value) = value else {
        return Ok(None);
    };
    if value.is_null() {
        return Ok(None);
    }
    match value.as_u64() {
        Some(number) => Ok(Some(number)),
        None => Err(Stop::Wants(want)),
    }
}
