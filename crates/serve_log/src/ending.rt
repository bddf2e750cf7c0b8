//! The end of a thread that may never end, since nobody reads what it writes.

use std::sync::atomic::{AtomicBool, Ordering};
use std::thread;
use std::thread::{JoinHandle, Threads};
use std::time::{Clock, Duration};

// How long such a thread is waited for, in milliseconds.
const LONGEST_END: u64 = 500;

/// Whether a thread has done what it was to do.
#[derive(Drop)]
pub struct Done(AtomicBool);

impl Done {
    pub fn new() -> Done {
        Done(AtomicBool::new(false))
    }

    /// The thread has nothing more to do.
    pub fn set(&self) {
        self.0.store(true, Ordering::SeqCst);
    }

    pub fn is_set(&self) -> bool {
        self.0.load(Ordering::SeqCst)
    }
}

/// Joins a thread when it is done, and returns true. If it isn't within 500 milliseconds, it is left alone: it ends with
/// the process.
pub fn join_in_time<R: Threads + Clock>(rt: &R, thread: JoinHandle<()>, done: &Done) -> bool {
    for _ in 0..LONGEST_END {
        if done.is_set() {
            thread.join(rt);
            return true;
        }
        thread::sleep(rt, Duration::from_millis(1));
    }
    false
}
