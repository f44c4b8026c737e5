//! The system in parts, each behind a lock of its own, that are lent to one event at a time; and the logs of its actors, which are
//! settled into one history.
#![tactic(auto)]

mod ending;
mod gate;
mod inside;
mod laws;
mod locking;
mod made;
mod merging;
mod opening;
mod searching;
mod seat;
mod seen;
mod settling;
mod split;
mod telling;

pub use gate::{OpenPartGate, PartGate};
pub use laws::{settled_by_plans, settled_is_ordered, settled_is_planned};
pub use made::Made;
pub use searching::{HeldRequest, SeenRequest};
pub use seat::{ActorSeat, Entry};
pub use seen::{SeenDoing, SeenSweep};
pub use settling::SettleStop;
pub use split::Split;
pub use split_parts::{
    Acted, CellsPart, ClockPart, Event, JanitorPart, Lent, MasterPart, NamesPart, NodePart, Plan,
    SessionPart, TablePart, act, agrees,
};
