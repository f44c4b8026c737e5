//! The queues between the stages of each node's pipeline, the passes by which threads use them, the pools of batches, and the
//! places where threads wait. The accounts of the queues are clauses of these calls; `docs/PIPELINE.md` says what they promise.
#![tactic(auto)]

mod batch_queue;
mod bell;
mod buffers;
mod gathering;
mod giving_way;
mod laws;
mod node;
mod node_pass;
mod opening;
mod pass;
mod queues;
mod request_queue;
mod rings;
mod settled_queue;
mod sizes;
mod spot;
mod waiting;

pub use batch_queue::BatchQueue;
pub use bell::Rung;
pub use giving_way::{GivesWay, KeepsProcessor};
pub use laws::{actors_wait_apart, settled_once};
pub use node_pass::NodePass;
pub use pass::StagePass;
pub use queues::Queues;
pub use request_queue::RequestQueue;
pub use request_rule::Ticket;
pub use rings::{Heard, Rungs};
pub use settled_queue::SettledQueue;
pub use spot::{Row, Spot, Whom};
pub use waiting::Waiter;
