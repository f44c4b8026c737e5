//! How long a request takes: how many turns of its node serve it from its acceptance on.
#![tactic(auto)]

mod laws;
mod worked;

pub use laws::{requests_end_within, requests_keep_to_what_is_left, runs_serve_within};
pub use worked::two_requests_at_the_bound;
