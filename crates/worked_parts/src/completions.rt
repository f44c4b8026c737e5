// What is left to do once a transaction has ended.
use crate::numbers::{key, keys, stamp};
use shadow_cells::Completion;
use system_parts::Ask;

/// The next step, which is then done.
fn step(completion: &mut Completion) -> Option<Ask> {
    let ask = completion.next()?;
    completion.done();
    Some(ask)
}

/// What sets the shadow of a key.
fn shadow(number: u64, start: u64, commit: u64) -> Ask {
    Ask::Shadow(key(number), stamp(start), stamp(commit))
}

#[test]
fn plain_path(rt: HostRuntime) {
    let mut finish = Completion::finish(stamp(1), stamp(2), keys(&[0, 1]));
    assert_eq!(rt; step(&mut finish), Some(shadow(0, 1, 2)));
    assert_eq!(rt; step(&mut finish), Some(shadow(1, 1, 2)));
    assert_eq!(rt; step(&mut finish), Some(Ask::Remove(stamp(1))));
    assert_eq!(rt; step(&mut finish), None);
}

#[test]
fn conflict(rt: HostRuntime) {
    let mut undo = Completion::undo(stamp(1), keys(&[0]));
    assert_eq!(rt; step(&mut undo), Some(Ask::Erase(key(0), stamp(1))));
    assert_eq!(rt; step(&mut undo), None);
}
