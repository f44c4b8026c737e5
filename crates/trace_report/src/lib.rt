//! The words in which it is told what was found of a trace, and what the field calls a cycle of transactions or a wrong read.
#![tactic(auto)]

mod cycle;
mod lists;
mod name;
mod parts;
mod step;
mod verdict;
mod wrong;

pub use cycle::push_cycle;
pub use lists::{flaw_name, push_wrong_list};
pub use name::{Anomaly, name_of};
pub use step::{Step, Way};
pub use verdict::{push_holds, push_refused, push_unclear, push_undecided, push_wrong_read};
pub use wrong::{Wrong, wrong_at};
