//! Why the histories of scripts keep what users rely on beside isolation, in file order, on threads and in any other order of
//! events.
#![tactic(auto)]

mod service;

pub use service::{orders_keep_service, scripts_keep_service, turns_keep_service};
