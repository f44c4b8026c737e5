//! The program `omid_check`: what `omid_check_top` does with the words behind its name, standard input and output.
#![tactic(auto)]

use omid_check_top::{NO_MEMORY, last_status, omid_check, words_behind};
use port_io::{StdSink, StdSource};
use stamp_base::NoMemory;
use std::process::ExitCode;

fn main(rt: HostRuntime) -> ExitCode {
    let mut source = StdSource::new(rt.stdin());
    let mut sink = StdSink::new(rt.stdout());
    let code = match words_behind(&rt, rt.alloc()) {
        Ok(words) => omid_check(rt.alloc(), &words, &mut source, &mut sink),
        Err(NoMemory) => NO_MEMORY,
    };
    ExitCode::from(last_status(code, sink.finish()))
}
