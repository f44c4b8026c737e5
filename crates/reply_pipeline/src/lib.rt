//! The stages of a node's pipeline: they serve the requests of sessions, make what was decided durable, and answer.
//! `docs/PIPELINE.md` says what they promise.
#![tactic(auto)]

mod desk;
mod ending;
mod gate;
mod persist;
mod reply;
mod request;
mod said;
mod taken;
mod tickets;
mod told;

pub use ending::StageEnd;
pub use gate::{Gate, GatePlace, GateWay, OpenGate, WaitsFor};
pub use persist::persist_worker;
pub use reply::reply_stage;
pub use request::request_stage;
pub use thread_steps::{StageStep, Steps};
pub use tickets::offer_ticket;
