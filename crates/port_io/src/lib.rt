//! The outside, as contracts can name it: bytes that come and go, and what becomes of a store call.
#![tactic(auto)]

mod memory;
mod planned;
mod sink;
mod source;
mod standard;
mod weather;

pub use memory::{MemSink, MemSource};
pub use planned::PlannedWeather;
pub use sink::{Sink, SinkStop, SinkWhy, write_all_of};
pub use source::{ReadStop, Source, read_up_to};
pub use stamp_base::Store;
pub use standard::{StdSink, StdSource};
pub use weather::{CalmWeather, Fate, OneFate, Weather};

/// A read or a write that the outside did not carry out.
#[derive(Clone, Copy, Debug, PartialEq, Eq)]
pub struct Failed;
