//! The texts of histories: each item's line, the line that sums a history up, and how they are printed.
#![tactic(auto)]

mod line;
mod printing;
mod summary;

pub use line::LineBuf;
pub use printing::{
    print_body, print_item, push_actor, push_cause, push_ending, push_key, push_node, push_session,
    push_stage, push_step, push_store,
};
pub use summary::Summary;
