// A script under each fault that can be planned for it: all is carried out, and what is written is isolated.
use crate::calls::is_carried_out;
use crate::told::first_untold;
use std::alloc::{AllocError, Global};
use std::test::Fail;
use worked_texts::hostile::{HOSTILE, replays};

/// The calls that the script makes on each store, carried out in file order. On threads it may make fewer.
const CALLS: [(&str, u64); 3] = [("cells", 11), ("table", 6), ("master", 2)];

const KINDS: [&str; 2] = ["unchanged", "applied"];

/// In file order, and on threads in whatever order.
const WAYS: [&str; 2] = ["replay", "run"];

/// A setup line for each call and each way in which it can fail.
fn faults(alloc: Global) -> Result<Vec<String>, AllocError> {
    let mut faults = Vec::new(alloc);
    for (store, calls) in CALLS {
        for made in 0..calls {
            let call = made + 1;
            for kind in KINDS {
                faults.push(format!(in alloc; "fault {store} {call} {kind}\n")?)?;
            }
        }
    }
    Ok(faults)
}

#[test]
fn each_fault_leaves_an_isolated_history(rt: HostRuntime) -> Result<(), Fail> {
    for fault in &faults(rt.alloc())? {
        for way in WAYS {
            assert!(rt;
                is_carried_out(&rt, rt.alloc(), &[way], fault, &[HOSTILE], &["audit"])?,
                "{way} {fault}"
            );
        }
    }
    Ok(())
}

#[test]
fn faults_are_told(rt: HostRuntime) -> Result<(), Fail> {
    assert_eq!(rt;
        first_untold(&rt, rt.alloc(), &["replay"], replays())?,
        None
    );
    Ok(())
}
