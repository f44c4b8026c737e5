// Two threads that wait for each other.
use std::sync::atomic::{AtomicBool, Ordering};
use std::thread;

/// The most turns that one waits for the other.
const TURNS: usize = 10_000_000;

/// Whether one has come, and whether it has seen the other.
#[derive(Drop)]
struct Side {
    came: AtomicBool,
    met: AtomicBool,
}

impl Side {
    fn new() -> Side {
        Side {
            came: AtomicBool::new(false),
            met: AtomicBool::new(false),
        }
    }

    /// Comes, and waits for the other.
    fn meet(&self, other: &Side) {
        self.came.store(true, Ordering::SeqCst);
        for _ in 0..TURNS {
            if other.came.load(Ordering::SeqCst) {
                self.met.store(true, Ordering::SeqCst);
                return;
            }
            thread::yield_now();
        }
    }
}

/// A meeting of two, each of which goes on once the other has come. No single thread passes it.
#[derive(Drop)]
pub struct Meeting {
    left: Side,
    right: Side,
}

impl Meeting {
    pub fn new() -> Meeting {
        Meeting {
            left: Side::new(),
            right: Side::new(),
        }
    }

    pub fn meet_from_left(&self) {
        self.left.meet(&self.right);
    }

    pub fn meet_from_right(&self) {
        self.right.meet(&self.left);
    }

    /// Whether each has seen the other.
    pub fn have_met(&self) -> bool {
        self.left.met.load(Ordering::SeqCst) && self.right.met.load(Ordering::SeqCst)
    }
}
