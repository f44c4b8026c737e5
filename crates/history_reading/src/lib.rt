//! Histories read back: the lines that bytes are, and the item that a line is.
#![tactic(auto)]

mod history;
mod laws;
mod reading;

pub use history::{HistoryFault, cut_line};
pub use laws::texts_differ;
pub use reading::{
    actor, after, cause, ending, field, is_word, key_of, letter, name, node_of, number, read_item,
    session_of, stage, stamp_of, step, store, term_of, two_fields, value,
};
