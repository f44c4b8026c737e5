// Where a thread waits until it is rung for, and looks for a while before it parks.
ghost use Rattle.std.specs.Prelude.{◌≡◌};

use crate::giving_way::GivesWay;
use crate::spot::Spot;
use std::sync::Wait;
use std::sync::atomic::{AtomicBool, AtomicUsize, Ordering};
use std::thread::Parker;
use std::time::Duration;

/// How often a thread looks at its bell before it parks. One stage hands a request to the next in some three microseconds, and a
/// look takes less than one: with three times as many nothing was faster.
const LOOKS: u64 = 100;

/// How many threads at once may look at their bells. A request goes through four, its session's and those of three stages: where
/// two may look, a session alone takes twice the time. Where all may, they keep processors from those that work: sixteen sessions
/// on a loaded machine took twice the time.
const MOST: usize = 4;

/// A parker, and a mark that shows its thread whether it was rung for. The parker alone decides whether a wait lasts, and keeps a
/// ring that comes before the wait. The mark only ends a look: where it is wrong, a thread parks too early, or looks in vain.
#[derive(Drop)]
pub struct Bell {
    spot: Spot,
    parker: Parker,
    rung: AtomicBool,
}

/// A bell was rung. Nobody but that bell makes one.
#[derive(Drop)]
pub struct Rung {
    pub(crate) spot: Spot,
}

impl Bell {
    /// Nobody has rung.
    pub fn at(spot: Spot) -> Bell
        ensures { result.spot ≡ spot }
    {
        Bell {
            spot,
            parker: Parker::new(),
            rung: AtomicBool::new(false),
        }
    }

    /// Which bell it is.
    pub fn spot(&self) -> Spot
        ensures { result ≡ self.now.spot }
    {
        self.spot
    }

    /// Ends the present wait of the bell's thread, or else the next one. The mark is set last, so that who sees it finds the parker
    /// told.
    pub fn ring(&self) -> Rung
        ensures { result.spot ≡ self.now.spot }
    {
        self.parker.unpark();
        self.rung.store(true, Ordering::SeqCst);
        Rung { spot: self.spot }
    }

    // Gives way to other threads until the bell is rung, for a while.
    fn watch<W: GivesWay>(&self, way: &W) {
        for _look in 0..LOOKS {
            if self.rung.load(Ordering::SeqCst) {
                return;
            }
            way.give_way();
        }
    }

    /// Waits until the bell is rung. The mark is cleared behind the wait, so that it does not stand when the next one begins.
    pub fn wait<R: Wait>(&self, rt: &R) {
        self.parker.park(rt);
        self.rung.store(false, Ordering::SeqCst);
    }

    /// Waits until the bell is rung, but no longer than this.
    pub fn wait_a_while<R: Wait>(&self, rt: &R, most: Duration) {
        self.parker.park_timeout(rt, most);
        self.rung.store(false, Ordering::SeqCst);
    }
}

/// How many threads look at their bells.
#[derive(Drop)]
pub struct Watchers {
    count: AtomicUsize,
}

impl Watchers {
    /// None does.
    pub fn none() -> Watchers {
        Watchers {
            count: AtomicUsize::new(0),
        }
    }

    /// Looks at the bell for a while, unless enough threads do so.
    pub fn watch<W: GivesWay>(&self, bell: &Bell, way: &W) {
        if self.count.fetch_add(1, Ordering::SeqCst) < MOST {
            bell.watch(way);
        }
        self.count.fetch_sub(1, Ordering::SeqCst);
    }
}
