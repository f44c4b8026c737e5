//! The ring of tickets, and the rule that it keeps: what was taken of each sender is what that sender put first.
#![tactic(auto)]

mod account;
mod ring;
mod rule;

pub use account::{RequestAccount, SenderRow, TakenTicket, Ticket};
pub use ring::{RequestPass, RequestRing};
