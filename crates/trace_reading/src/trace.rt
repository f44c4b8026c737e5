// Reading a trace: lines of JSON, or one array.
ghost use Rattle.std.specs.Prelude.{◌≡◌, map, IfErr, IfOk, Ok, Some};
ghost use Rattle.history_reading.specs.History.{lines_of};
ghost use Rattle.serde_json.specs.View.{view};
ghost use Rattle.trace_reading.specs.Json.{read_json};
ghost use Rattle.trace_reading.specs.Recording.{nothing_recorded};
ghost use Rattle.trace_reading.specs.Steps.{FindsValue, Leaves, each_from};
ghost use Rattle.trace_reading.specs.Events.{event_step};
ghost use Rattle.trace_reading.specs.Trace.{IsFaultOf, LeavesAt, at_line, fault_at, is_array, line_behind, line_step, object_behind, objects_of, trace_of};

use crate::recording::Recording;
use crate::want::{Stop, Want};
use history_reading::cut_line;
use serde_json::Value;
use std::alloc::Global;

/// Why bytes were not read as a trace.
#[derive(Clone, Copy, Debug, PartialEq, Eq)]
pub enum TraceFault {
    /// The line, or the object of an array, of this number, counted from 1, wants this first. Line 0 stands for bytes that
    /// begin with a bracket and are no array.
    At { line: u64, want: Want },
    /// Memory was refused.
    NoMemory,
}

/// What the bytes tell: lines of JSON, each an event, or one array of events where they begin with a bracket. A line of no bytes
/// tells nothing, and the last line may end without a line feed. At, with the number of the first line or object that is no event,
/// from 1, and what it wants first, or with line 0 where the array is none; NoMemory where memory is refused.
pub fn read_trace(alloc: Global, bytes: &[u8]) -> Result<Recording, TraceFault>
    ensures read { IfOk result (λ recorded. trace_of bytes.now ≡ Ok recorded) }
    ensures bad { IfErr result (IsFaultOf (trace_of bytes.now)) }
{
    let mut recording = Recording::new(alloc);
    match recording.add_all(alloc, bytes) {
        Ok(()) => Ok(recording),
        Err(fault) => Err(fault),
    }
}

/// Whether the bytes begin with a bracket.
fn is_array(bytes: &[u8]) -> bool
    ensures { result ≡ is_array bytes.now }
{
    match bytes {
        [first, ..] => *first == b'[',
        [] => false,
    }
}

/// The value of JSON that the bytes are.
fn read_json(alloc: Global, bytes: &[u8]) -> Result<Value, Stop>
    ensures { FindsValue (read_json bytes.now) result }
{
    match Value::from_slice(alloc, bytes) {
        Ok(value) => Ok(value),
        Err(error) if error.is_memory() => Err(Stop::NoMemory),
        Err(_) => Err(Stop::Wants(Want::Json)),
    }
}

/// Why the line of this number was not read.
fn fault_at(line: u64, stop: Stop) -> TraceFault
    ensures { result ≡ fault_at line stop }
{
    match stop {
        Stop::Wants(want) => TraceFault::At { line, want },
        Stop::NoMemory => TraceFault::NoMemory,
    }
}

impl Recording {
    fn add_all(&mut self, alloc: Global, bytes: &[u8]) -> Result<(), TraceFault>
        requires { self.old ≡ nothing_recorded }
        ensures { LeavesAt (trace_of bytes.now) self.new result }
    {
        if is_array(bytes) {
            self.add_array(alloc, bytes)
        } else {
            self.add_lines(alloc, bytes)
        }
    }

    fn add_lines(&mut self, alloc: Global, bytes: &[u8]) -> Result<(), TraceFault>
        ensures { LeavesAt (each_from line_behind self.old 0 (lines_of bytes.now)) self.new result }
    {
        let mut rest = bytes;
        let mut before = 0;
        while let Some((line, more)) = cut_line(rest) {
            self.add_line_at(alloc, before + 1, line)?;
            rest = more;
            before += 1;
        }
        // What follows the last line feed is a line too, and mostly an empty one.
        self.add_line_at(alloc, before + 1, rest)
    }

    fn add_line_at(&mut self, alloc: Global, number: u64, line: &[u8]) -> Result<(), TraceFault>
        ensures { LeavesAt (at_line number (line_step self.old number line.now)) self.new result }
    {
        match self.add_line(alloc, number, line) {
            Ok(()) => Ok(()),
            Err(stop) => Err(fault_at(number, stop)),
        }
    }

    /// Adds the event that the line is, where it says something.
    fn add_line(&mut self, alloc: Global, number: u64, line: &[u8]) -> Result<(), Stop>
        ensures { Leaves (line_step self.old number line.now) self.new result }
    {
        if line.is_empty() {
            return Ok(());
        }
        let event = read_json(alloc, line)?;
        self.add_event(alloc, number, &event)
    }

    fn add_array(&mut self, alloc: Global, bytes: &[u8]) -> Result<(), TraceFault>
        ensures { LeavesAt (objects_of self.old (read_json bytes.now)) self.new result }
    {
        match read_json(alloc, bytes) {
            Ok(value) => self.add_objects_of(alloc, &value),
            Err(stop) => Err(fault_at(0, stop)),
        }
    }

    #[tactic(auto, using(crate::proofs::EachLemmas::in_order_view))]
    fn add_objects_of(&mut self, alloc: Global, array: &Value) -> Result<(), TraceFault>
        ensures { LeavesAt (objects_of self.old (Some (view array.now))) self.new result }
    {
        match array.as_array() {
            Some(objects) => self.add_objects(alloc, objects),
            None => Err(TraceFault::At {
                line: 0,
                want: Want::Json,
            }),
        }
    }

    fn add_objects(&mut self, alloc: Global, objects: &[Value]) -> Result<(), TraceFault>
        ensures { LeavesAt (each_from object_behind self.old 0 (map view objects.now)) self.new result }
    {
        for before in 0..objects.len() {
            self.add_event_at(alloc, before as u64 + 1, &objects[before])?;
        }
        Ok(())
    }

    fn add_event_at(&mut self, alloc: Global, number: u64, event: &Value) -> Result<(), TraceFault>
        ensures { LeavesAt (at_line number (event_step self.old number (view event.now))) self.new result }
    {
        match self.add_event(alloc, number, event) {
            Ok(()) => Ok(()),
            Err(stop) => Err(fault_at(number, stop)),
        }
    }
}
