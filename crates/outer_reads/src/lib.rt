//! Who wrote the versions of a trace, and what its transactions read of others.
#![tactic(auto)]

mod readings;
mod sources;
mod values;
mod writings;

pub use readings::Reading;
pub use sources::{Sources, sources_of};
pub use writings::Writing;
