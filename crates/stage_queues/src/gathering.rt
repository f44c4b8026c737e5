// When a request stage takes the tickets that wait for it: once enough are there, or nobody is at work who could send more.
use std::sync::atomic::{AtomicBool, AtomicUsize, Ordering};

/// How many actors' threads are at work, which alone send tickets.
#[derive(Drop)]
pub struct AtWork {
    count: AtomicUsize,
}

impl AtWork {
    /// So many.
    pub fn all(count: usize) -> AtWork {
        AtWork {
            count: AtomicUsize::new(count),
        }
    }

    /// One less. Whether none is left.
    pub fn leave(&self) -> bool {
        self.count.fetch_sub(1, Ordering::SeqCst) == 1
    }

    /// One more.
    pub fn enter(&self) {
        self.count.fetch_add(1, Ordering::SeqCst);
    }

    /// Whether none is.
    pub fn is_none(&self) -> bool {
        self.count.load(Ordering::SeqCst) == 0
    }

    /// Whether none is but the one who asks.
    pub fn is_alone(&self) -> bool {
        self.count.load(Ordering::SeqCst) <= 1
    }
}

/// A ticket is counted, and not sent yet. It can't be let go.
pub struct Counted {
    sent: bool,
}

impl Counted {
    /// The ticket is sent.
    pub fn sent(self) {
        let Counted { sent: _sent } = self;
    }
}

/// The tickets that wait for a request stage.
#[derive(Drop)]
pub struct Gathered {
    // A ticket is counted before it is sent, so that none is left out.
    count: AtomicUsize,
    // From so many on they are taken.
    enough: usize,
    due: AtomicBool,
}

impl Gathered {
    /// None, of which so many are enough.
    pub fn none(enough: usize) -> Gathered {
        Gathered {
            count: AtomicUsize::new(0),
            enough,
            due: AtomicBool::new(false),
        }
    }

    /// One more, which is to be sent.
    pub fn add(&self) -> Counted {
        self.count.fetch_add(1, Ordering::SeqCst);
        Counted { sent: false }
    }

    /// One less, which found no room.
    pub fn give_up(&self, counted: Counted) {
        counted.sent();
        self.remove();
    }

    /// One less, which was taken.
    pub fn remove(&self) {
        self.count.fetch_sub(1, Ordering::SeqCst);
    }

    /// Whether there is one.
    pub fn is_some(&self) -> bool {
        self.count.load(Ordering::SeqCst) != 0
    }

    /// Whether there are enough.
    pub fn is_enough(&self) -> bool {
        self.count.load(Ordering::SeqCst) >= self.enough
    }

    /// They are to be taken, however few they are.
    pub fn press(&self) {
        self.due.store(true, Ordering::SeqCst);
    }

    /// Whether they are to be taken since `press` was last called.
    pub fn is_pressed(&self) -> bool {
        self.due.load(Ordering::SeqCst) && self.due.swap(false, Ordering::SeqCst)
    }
}
