//! The ring of settled batches, and the rule that it keeps: no batch is taken more often than it was put.
#![tactic(auto)]

mod account;
mod ring;
mod rule;

pub use account::SettledAccount;
pub use ring::{SettledPass, SettledRing};
