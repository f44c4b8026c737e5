// An event of a trace, read from its object.
ghost use Rattle.std.specs.Prelude.{◌≡◌, map, option_map};
ghost use Rattle.serde_json.specs.View.{view, items_view};
ghost use Rattle.std.specs.Str.{bytes_eq};
ghost use Rattle.trace_reading.specs.Words.{kind_of};
ghost use Rattle.trace_reading.specs.Steps.{Finds, Leaves, each_from};
ghost use Rattle.trace_reading.specs.Operations.{operation_step};
ghost use Rattle.trace_reading.specs.Events.{kind_in, moments_in, operations_in, event_step};

use crate::recording::{Recording, whole_or_none};
use crate::want::{Stop, Want};
use serde_json::Value;
use std::alloc::Global;

/// What an event says of its transaction.
#[derive(Clone, Copy, Debug, PartialEq, Eq)]
pub enum Kind {
    /// It was asked for.
    Invoke,
    /// It committed.
    Ok,
    /// It did not commit.
    Fail,
    /// Nobody knows whether it committed.
    Info,
}

/// The moments that an event tells, by one clock of the recorder's.
#[derive(Clone, Copy, Debug, PartialEq, Eq)]
pub struct Moments {
    /// When the event was noted.
    pub time: Option<u64>,
    /// When the snapshot was surely taken.
    pub began: Option<u64>,
    /// When the commit was asked for.
    pub committing: Option<u64>,
}

/// One event.
#[derive(Clone, Copy, Debug, PartialEq, Eq)]
pub struct Event {
    /// The number of its line, or of its object in an array, from 1 on.
    pub line: u64,
    /// What it tells of its transaction.
    pub kind: Kind,
    /// The number of the process's name.
    pub process: u64,
    /// The moments that it tells.
    pub moments: Moments,
    /// Its operations are those from this place
    pub first: u64,
    /// to before this one.
    pub end: u64,
}

/// What the event says of its transaction.
fn kind_in(value: Option<&Value>) -> Result<Kind, Stop>
    ensures { Finds (kind_in (option_map (λ v. view v.now) value.entry)) result }
{
    let Some(word) = value.and_then(Value::as_str) else {
        return Err(Stop::Wants(Want::Type));
    };
    match kind_of(word.as_bytes()) {
        Some(kind) => Ok(kind),
        None => Err(Stop::Wants(Want::Type)),
    }
}

fn is_word(bytes: &[u8], word: &[u8]) -> bool
    ensures { result ≡ bytes_eq bytes.now word.now }
{
    bytes == word
}

#[tactic(auto, unfolding(crate::specs::Words::kind_of))]
fn kind_of(word: &[u8]) -> Option<Kind>
    ensures { result ≡ kind_of word.now }
{
    if is_word(word, b"invoke") {
        return Some(Kind::Invoke);
    }
    if is_word(word, b"ok") {
        return Some(Kind::Ok);
    }
    if is_word(word, b"fail") {
        return Some(Kind::Fail);
    }
    if is_word(word, b"info") {
        return Some(Kind::Info);
    }
    None
}

/// The moments that the event tells.
fn moments_in(event: &Value) -> Result<Moments, Stop>
    ensures { Finds (moments_in (view event.now)) result }
{
    let time = whole_or_none(Want::Time, event.get("time"))?;
    let began = whole_or_none(Want::Began, event.get("began"))?;
    let committing = whole_or_none(Want::Committing, event.get("committing"))?;
    Ok(Moments {
        time,
        began,
        committing,
    })
}

impl Recording {
    /// Adds the event that the object of this number is, with its operations.
    pub(crate) fn add_event(&mut self, alloc: Global, line: u64, event: &Value) -> Result<(), Stop>
        ensures { Leaves (event_step self.old line (view event.now)) self.new result }
    {
        if !event.is_object() {
            return Err(Stop::Wants(Want::Object));
        }
        let kind = kind_in(event.get("type"))?;
        let process = self.named(alloc, Want::Process, event.get("process"))?;
        let moments = moments_in(event)?;
        match event.get("value").and_then(Value::as_array) {
            Some(operations) => self.add_operations_of(
                alloc, line, kind, process, moments, operations,
            ),
            None => Err(Stop::Wants(Want::Operations)),
        }
    }

    /// Adds the event's operations, and the event.
    #[tactic(auto, using(crate::proofs::EachLemmas::in_order_view))]
    fn add_operations_of(
        &mut self,
        alloc: Global,
        line: u64,
        kind: Kind,
        process: u64,
        moments: Moments,
        values: &[Value],
    ) -> Result<(), Stop>
        ensures { Leaves (operations_in self.old line kind process moments (items_view values.now)) self.new result }
    {
        let first = self.operations_len();
        self.add_operations(alloc, values)?;
        let end = self.operations_len();
        self.push_event(Event {
            line,
            kind,
            process,
            moments,
            first,
            end,
        })
    }

    fn add_operations(&mut self, alloc: Global, values: &[Value]) -> Result<(), Stop>
        ensures { Leaves (each_from operation_step self.old 0 (map view values.now)) self.new result }
    {
        for place in 0..values.len() {
            self.add_operation(alloc, place as u64, &values[place])?;
        }
        Ok(())
    }
}
