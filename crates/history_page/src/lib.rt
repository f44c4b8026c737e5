//! A page to explore a history: one HTML document that holds the history, its bars and what is told of it, and the script that
//! draws them. What is proved is the document's text; what a browser makes of its style and script is no part of that.
#![tactic(auto)]

mod html;
mod page;

pub use page::print_history_page;
