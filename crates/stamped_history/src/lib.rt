//! The history of a trace with the stamps that were found, as the items of a history have them: which of its limits is not met, or
//! the items in the order of the stamps.
#![tactic(auto)]

mod groups;
mod items;
mod keys;
mod limits;
mod order;
mod placed;
mod seats;
mod text;
mod told;

pub use items::history_of;
pub use limits::{Limit, NoHistory};
pub use text::text_of;
