//! Why a list that was read is as good as a read of its last member, with the order that it tells.
#![tactic(auto)]

mod laws;
mod listing;

pub use laws::{appends_are_listed_in_turn, lists_tell_orders, wrong_lists_refuse};
pub use listing::{Listing, listed_between};
