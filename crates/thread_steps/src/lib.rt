//! What the threads of actors and of stages ask of the board, and what they are told; and how many lines of each actor are done,
//! counted twice: by a cursor for each actor, which lies behind a lock, and by a share that the actor's thread has.
#![tactic(auto)]

mod actors;
mod cursor;
mod cursors;
mod share;
mod stages;

pub use actors::{ActorStep, ActorSteps};
pub use cursor::Cursor;
pub use cursors::Cursors;
pub use share::ActorShare;
pub use stages::{StageStep, Steps};
