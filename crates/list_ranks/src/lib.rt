//! The order of versions that lists tell, checked against the trace; or which list no stamps give.
#![tactic(auto)]

mod building;
mod dirty;
mod hints;
mod homes;
mod laws;
mod listings;
mod ranks;
mod steps;
mod told;
mod writes;
mod wrong;

pub use dirty::dirty_list;
pub use laws::{told_lists_decide, wrong_lists_have_no_stamps};
pub use told::{Told, told_by_lists};
pub use wrong::{Flaw, WrongList};
