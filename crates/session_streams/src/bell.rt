//! The bell of a session's thread.

use mio::Waker;
use std::sync::atomic::{AtomicBool, AtomicU64, Ordering};

// The thread doesn't wait, and the bell wasn't rung.
const EMPTY: u64 = 0;

// The bell was rung, and the thread hasn't seen it yet.
const RUNG: u64 = 1;

// The thread waits.
const WAITING: u64 = 2;

/// A bell for a thread that waits in a `Poll`. It keeps one ring, so none is lost between a look and a wait. A ring
/// makes a system call only if the thread waits.
#[derive(Drop)]
pub struct Bell {
    state: AtomicU64,
    stopped: AtomicBool,
    hurried: AtomicBool,
    abandoned: AtomicBool,
    waker: Waker,
}

impl Bell {
    pub fn new(waker: Waker) -> Bell {
        Bell {
            state: AtomicU64::new(EMPTY),
            stopped: AtomicBool::new(false),
            hurried: AtomicBool::new(false),
            abandoned: AtomicBool::new(false),
            waker,
        }
    }

    /// Wakes the thread, or ends its next wait at once.
    pub fn ring(&self) {
        if self.state.swap(RUNG, Ordering::SeqCst) == WAITING {
            // If the waker fails, the thread wakes after its longest wait.
            let _ = self.waker.wake();
        }
    }

    /// Begins a wait. Returns false if the bell was rung since the last wait; then the thread mustn't wait.
    pub(crate) fn begin_wait(&self) -> bool {
        let state = &self.state;
        state
            .compare_exchange(EMPTY, WAITING, Ordering::SeqCst, Ordering::SeqCst)
            .is_ok()
    }

    /// Ends a wait, and clears the ring that ended it.
    pub(crate) fn end_wait(&self) {
        self.state.store(EMPTY, Ordering::SeqCst);
    }

    /// Has the session end: its reader is at the end of the stream from now on.
    pub fn stop(&self) {
        self.stopped.store(true, Ordering::SeqCst);
        self.ring();
    }

    /// Tells the session that it is to close: it waits only a short time for a peer that doesn't read.
    pub fn hurry(&self) {
        self.hurried.store(true, Ordering::SeqCst);
        self.ring();
    }

    /// Has the session end while no thread takes what it sends.
    pub fn abandon(&self) {
        self.abandoned.store(true, Ordering::SeqCst);
        self.stop();
    }

    pub fn is_stopped(&self) -> bool {
        self.stopped.load(Ordering::SeqCst)
    }

    pub(crate) fn is_hurried(&self) -> bool {
        self.hurried.load(Ordering::SeqCst)
    }

    pub(crate) fn is_abandoned(&self) -> bool {
        self.abandoned.load(Ordering::SeqCst)
    }
}
