// Showing what a line of a run waits for.
use run_driver::WaitsFor;
use stamp_base::{Name, NodeNo, Stage};
use std::io::Stderr;

/// Writes that the line waits, and for what.
pub fn show_wait(errors: &Stderr, line: u64, on: WaitsFor) {
    match on {
        WaitsFor::Name(name) => show_name(errors, line, &name),
        WaitsFor::Reply { node, held } => show_reply(errors, line, node, held),
    }
}

fn show_name(errors: &Stderr, line: u64, name: &Name) {
    let name = str::from_utf8(name.as_slice()).unwrap_or("");
    let _ = print!(errors; "omid: line {line} waits for a post of {name}\n");
}

fn show_reply(errors: &Stderr, line: u64, node: NodeNo, held: Option<Stage>) {
    let letter = [b'a' + node.value() as u8];
    let node = str::from_utf8(&letter).unwrap_or("");
    let _ = match held {
        Some(stage) => {
            let stage = stage_word(stage);
            print!(errors; "omid: line {line} waits for {node}, whose {stage} stage is held\n")
        }
        None => print!(errors; "omid: line {line} waits for {node}\n"),
    };
}

fn stage_word(stage: Stage) -> &'static str {
    match stage {
        Stage::Request => "request",
        Stage::Persist => "persist",
        Stage::Reply => "reply",
    }
}
