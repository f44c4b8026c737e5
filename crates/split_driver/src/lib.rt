//! A script carried out over split stores, on threads: one for each actor with lines, which are carried out so that its log follows
//! them: which event comes next, and what the log shows of it.
#![tactic(auto)]

mod account;
mod choosing;
mod driver;
mod ending;
mod jobs;
mod later;
mod laws;
mod looking;
mod naming;
mod opening;
mod owing;
mod plain;
mod play_stop;
mod player;
mod playing;
mod posting;
mod stop;
mod threads;
mod waits;

pub use driver::run_split;
pub use laws::split_scripts_may_split;
pub use opening::first_event;
pub use play_stop::PlayStop;
pub use playing::play_lines;
pub use posting::Posting;
pub use stop::SplitStop;
