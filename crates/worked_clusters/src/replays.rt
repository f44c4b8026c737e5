// A script that is carried out in file order, by one call.
use crate::texts::tells;
use replay_driver::replay;
use session_script::{Mode, read_script};
use std::alloc::{AllocError, Global};
use std::test::Fail;
use worked_texts::commits::{PLAIN_HISTORY, PLAIN_PATH};

/// Whether the script's history is this. False where it is no script.
fn is_replayed(alloc: Global, script: &str, history: &str) -> Result<bool, AllocError> {
    let Ok(script) = read_script(alloc, script.as_bytes(), Mode::Replay) else {
        return Ok(false);
    };
    match replay(alloc, &script) {
        Ok(cluster) => tells(alloc, &cluster, history),
        Err(_) => Err(AllocError),
    }
}

#[test]
fn a_script_is_replayed(rt: HostRuntime) -> Result<(), Fail> {
    assert!(rt; is_replayed(rt.alloc(), PLAIN_PATH, PLAIN_HISTORY)?);
    Ok(())
}
