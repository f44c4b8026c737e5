//! A script that is carried out turn by turn, in whatever order the turns come, and the lock round it: what stands after the turns
//! is what their list makes of the script, and by the shares of the actors it is known in the end that every line was made.
#![tactic(auto)]

mod answers;
mod board;
mod laws;
mod making;
mod marks;
mod play;
mod reading;
mod run;
mod seated;
mod sessions;
mod steps;
mod stretch;
mod through;

pub use answers::Advance;
pub use board::Board;
pub use cluster_core::Cluster;
pub use laws::{
    advances_go_further, ended_runs_are_whole, others_stay_seated, stage_steps_go_further,
};
pub use play::Play;
pub use run::ScriptRun;
pub use thread_scripts::parts_of;
pub use thread_steps::{ActorShare, StageStep};
pub use turn_rules::{Turn, Why};
