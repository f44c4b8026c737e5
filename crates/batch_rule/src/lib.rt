//! The ring of batches on their way to the persist workers, and the rule that it keeps: the batches that were taken are the
//! first that were sent, each once.
#![tactic(auto)]

mod account;
mod ring;
mod rule;

pub use account::BatchAccount;
pub use ring::{BatchPass, BatchRing};
