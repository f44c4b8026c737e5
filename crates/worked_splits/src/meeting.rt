// Two events that have no part in common are made beside each other.
use crate::reading::read;
use split_driver::run_split;
use split_stores::{Event, PartGate};
use std::sync::Wait;
use std::test::Fail;
use worked_texts::Meeting;

/// A gate at which the write of `k1`, under the locks of its session and the cells, meets a step, under those of another session
/// and the table.
#[derive(Drop)]
struct MeetingGate {
    meeting: Meeting,
}

impl PartGate for MeetingGate {
    fn inside<R: Wait>(&self, _rt: &R, event: &Event) {
        match event {
            Event::Write { key, .. } if key.value() == 1 => self.meeting.meet_from_left(),
            Event::Step { .. } => self.meeting.meet_from_right(),
            _ => {}
        }
    }
}

/// A reader that has fetched the cell of an open transaction, and asks the table of it while this transaction writes again.
const MEETING: &str = "\
a take
a post p1
s0 await p1
s0 begin a
s0 write k0 v
s0 post p2
s1 await p2
s1 begin a
s1 fetch k0
s1 post p3
s1 step
s0 await p3
s0 write k1 w
";

/// No single thread passes this gate, nor do threads behind one lock.
#[test]
fn two_stores_meet(rt: HostRuntime) -> Result<(), Fail> {
    let gate = MeetingGate {
        meeting: Meeting::new(),
    };
    if let Ok(script) = read(rt.alloc(), MEETING) {
        let split = run_split(&rt, rt.alloc(), &script, &gate);
        assert!(rt; split.is_ok());
    }
    assert!(rt; gate.meeting.have_met());
    Ok(())
}
