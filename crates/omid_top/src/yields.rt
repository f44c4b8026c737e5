// Giving the processor away between two looks, as long as that costs little.
use std::hint::spin_loop;
use std::sync::atomic::{AtomicU64, Ordering};
use std::thread::yield_now;
use std::time::{Clock, Instant};

/// A yield takes a microsecond where no other process wants the processor. One of more nanoseconds than these shows that some do.
const LONG: u64 = 200_000;

/// So many times as long as such a yield took, nobody yields behind it: so yields take a tenth of the time at most.
const REST: u64 = 10;

/// Yields that are timed. At rest they let the thread work that is waited for; beside busy processes each would take milliseconds.
#[derive(Drop)]
pub(crate) struct Yields {
    start: Option<Instant>,
    // Nobody yields before this moment, in nanoseconds from the start.
    rest_until: AtomicU64,
}

impl Yields {
    pub(crate) fn new<C: Clock>(clock: &C) -> Yields {
        Yields {
            start: Instant::now(clock).ok(),
            rest_until: AtomicU64::new(0),
        }
    }

    /// Yields, unless that took long a short while ago, or the clock cannot be read.
    pub(crate) fn give_way<C: Clock>(&self, clock: &C) {
        match self.free_since(clock) {
            Some(before) => {
                yield_now();
                self.heed(before, self.now(clock));
            }
            None => spin_loop(),
        }
    }

    /// Whether it would yield now.
    pub(crate) fn may<C: Clock>(&self, clock: &C) -> bool {
        self.free_since(clock).is_some()
    }

    // The moment that it is, if one may yield now.
    fn free_since<C: Clock>(&self, clock: &C) -> Option<u64> {
        let now = self.now(clock)?;
        if now < self.rest_until.load(Ordering::SeqCst) {
            return None;
        }
        Some(now)
    }

    // Nanoseconds from the start.
    fn now<C: Clock>(&self, clock: &C) -> Option<u64> {
        let passed = self.start?.elapsed(clock).ok()?;
        u64::try_from(passed.as_nanos()).ok()
    }

    fn heed(&self, before: u64, after: Option<u64>) {
        let Some(after) = after else { return };
        let took = after.saturating_sub(before);
        if took > LONG {
            let until = after.saturating_add(took.saturating_mul(REST));
            self.rest_until.store(until, Ordering::SeqCst);
        }
    }
}
