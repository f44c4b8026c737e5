//! The items of a history, and what isolation and serial order mean over a list of them.
#![tactic(auto)]

mod book;
mod cause;
mod item;

pub use book::Book;
pub use cause::Cause;
pub use item::{Actor, Ending, Found, Item, Note, Seen, StoreStep};
