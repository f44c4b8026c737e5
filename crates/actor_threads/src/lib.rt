//! The threads that carry a script out: one for each actor with lines, and at each node one for each stage of its pipeline. They
//! make their steps at a board, which says what each step does. `docs/PIPELINE.md` says what they promise.
#![tactic(auto)]

mod actors;
mod asking;
mod awaiting;
mod before;
mod crew;
mod lines;
mod marked;
mod masters;
mod playing;
mod quiet;
mod sending;
mod sent;
mod shared;
mod stages;
mod starting;
mod waking;

pub use playing::play;
