//! Histories as JSON: the object that an item is, as a line of its own and as its members; and histories of both formats read back.
#![tactic(auto)]

mod comparing;
mod glance;
mod history;
mod item;
mod laws;
mod line;
mod members;
mod objects;
mod rows;
mod templates;
mod texts;
mod words;

pub use history::{Format, format_of, read_history};
pub use item::item_of;
pub use laws::one_history;
pub use line::{from_line, print_line, printed_line, to_line};
pub use rows::{Row, row_of};
