//! What the events' code shares: how a call stops, the client with what it has under way, and how an event tells its items.
#![tactic(auto)]

mod client;
pub mod ledger;
mod recalling;
mod stopped;
mod working;

pub use client::Client;
pub use stopped::Stopped;
