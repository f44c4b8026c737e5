// Where actors wait for names.
use std::sync::{Condvar, Mutex, Wait};

/// How many names were posted, and whether an actor has stopped before the end of its lines.
#[derive(Drop)]
struct Posts {
    count: u64,
    closed: bool,
}

/// Where actors wait for names that others post. No clause says that one is woken.
#[derive(Drop)]
pub struct Posting {
    posts: Mutex<Posts>,
    changed: Condvar,
}

impl Posting {
    /// Nothing is posted.
    pub fn new() -> Posting {
        Posting {
            posts: Mutex::new(Posts {
                count: 0,
                closed: false,
            }),
            changed: Condvar::new(),
        }
    }

    /// A name was posted: all that wait look again.
    pub fn post<R: Wait>(&self, rt: &R) {
        let mut posts = self.posts.lock(rt);
        posts.count = posts.count.wrapping_add(1);
        drop(posts);
        self.changed.notify_all();
    }

    /// An actor has stopped before the end of its lines: nobody waits from now on.
    pub fn close<R: Wait>(&self, rt: &R) {
        let mut posts = self.posts.lock(rt);
        posts.closed = true;
        drop(posts);
        self.changed.notify_all();
    }

    /// How many names were posted by now. None where nobody is to wait.
    pub fn count<R: Wait>(&self, rt: &R) -> Option<u64> {
        let posts = self.posts.lock(rt);
        if posts.closed {
            None
        } else {
            Some(posts.count)
        }
    }

    /// Waits while no more than so many names are posted, and waiting goes on.
    pub fn wait_past<R: Wait>(&self, rt: &R, seen: u64) {
        let _posts = self.changed.wait_while(
            rt,
            self.posts.lock(rt),
            |posts| posts.count == seen && !posts.closed,
        );
    }
}
