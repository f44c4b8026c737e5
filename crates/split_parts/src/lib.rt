//! The parts of the system, which are lent to one event at a time: whether those that are lent agree, and what the event makes of
//! them.
#![tactic(auto)]

mod accessing;
mod acting;
mod agreeing;
mod deciding;
mod direct;
mod event;
mod fates;
mod leaving;
mod lending;
mod lent;
mod making;
mod noting;
mod parts;
mod plan;
mod recording;
mod requesting;
mod stepping;
mod swapping;
mod sweeping;
mod taking;
mod timing;

pub use acting::{Acted, act};
pub use agreeing::agrees;
pub use event::Event;
pub use lent::Lent;
pub use parts::{
    CellsPart, ClockPart, JanitorPart, MasterPart, NamesPart, NodePart, SessionPart, TablePart,
};
pub use plan::Plan;
pub use timing::timed;
