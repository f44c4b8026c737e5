//! Who is master, for any number of threads: one publisher tells it term by term, and passes see it without a lock.
//! A pass never sees a list go back. That it sees the newest pair, or a master that still serves, is not promised.
#![tactic(auto)]

mod beacon;
mod desk;
mod pass;
mod publisher;
mod rule;
mod worked;

pub use beacon::Beacon;
pub use desk::{Desk, announce};
pub use pass::BeaconPass;
pub use publisher::Publisher;
pub use rule::{Announced, BeaconView};
pub use worked::looks_go_on;
