//! The program `omid`: what `omid_top` does with the words behind its name, standard input and output.
#![tactic(auto)]

use omid_top::program;
use std::process::ExitCode;

fn main(rt: HostRuntime) -> ExitCode {
    ExitCode::from(program(&rt, rt.stdin(), rt.stdout(), rt.stderr()).code)
}
