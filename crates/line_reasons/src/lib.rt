//! Why a line of a history is no item, in words: what is wrong in it, in either format.
#![tactic(auto)]

mod broken;
mod fault;
mod members;
mod object;
mod reason;
mod text_line;
mod value;
mod wants;

pub use fault::LineFault;
pub use reason::print_reason;
pub use wants::Wants;
