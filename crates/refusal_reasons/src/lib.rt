//! Why refusals came, in words, with the items that show them: as the definitions of the causes ask for them, and no others.
#![tactic(auto)]

mod clue;
mod explain;
mod laws;
mod request;
mod shown;
mod sought;

pub use clue::Clue;
pub use explain::{explain_refusals, print_named};
pub use laws::refusals_are_decided;
pub use shown::{Places, shown_by};
pub use sought::seek;
