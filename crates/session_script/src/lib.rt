//! Scripts: what a session's bytes ask for, line by line and word by word, or the first bad line and why it is bad.
#![tactic(auto)]

mod arguments;
mod cause;
mod checked;
mod cutting;
mod fault;
mod form;
mod line;
mod lines;
mod mode;
mod names;
mod posted;
mod read_so_far;
mod reading;
mod script;
mod setting;
mod tables;
mod words;

pub use arguments::actor_of;
pub use cause::ScriptCause;
pub use checked::{flag_at, kind_at, node_at, number_at, setup_number_at, store_at};
pub use cutting::{cut_line, is_silent};
pub use fault::ScriptFault;
pub use form::SetupForm;
pub use line::verb_at;
pub use mode::Mode;
pub use names::PostedNames;
pub use reading::read_script;
pub use script::Script;
pub use script_data::{FAULT_LIMIT, Line, Target, Verb};
pub use tables::setup_form;
pub use words::Words;
