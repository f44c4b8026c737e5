//! Traces of any store, in JSON: the events that the bytes tell, with the operations of each, or what is wanted first.
#![tactic(auto)]

mod event;
mod fault_text;
mod names;
mod operation;
mod recording;
mod text;
mod trace;
mod want;

pub use event::{Event, Kind, Moments};
pub use fault_text::fault_line;
pub use operation::Operation;
pub use recording::Recording;
pub use text::{push_number, push_words};
pub use trace::{TraceFault, read_trace};
pub use want::Want;
