//! What the one who logs and the thread that writes the log have in common.

use crate::ending::Done;
use std::sync::Wait;
use std::sync::atomic::{AtomicBool, AtomicU64, Ordering};
use std::thread::Parker;
use std::time::Duration;

// The longest wait for a line, in milliseconds; a wake that is lost costs no more than this.
const LONGEST_WAIT: u64 = 1000;

/// How much waits to be written, and whether more is to come. No contract speaks of it.
#[derive(Drop)]
pub struct Backlog {
    // The bytes of the lines that wait.
    bytes: AtomicU64,
    is_closed: AtomicBool,
    is_given_up: AtomicBool,
    /// Whether the thread has written what it was to write.
    pub done: Done,
    parker: Parker,
}

impl Backlog {
    pub fn new() -> Backlog {
        Backlog {
            bytes: AtomicU64::new(0),
            is_closed: AtomicBool::new(false),
            is_given_up: AtomicBool::new(false),
            done: Done::new(),
            parker: Parker::new(),
        }
    }

    /// The bytes of the lines that wait.
    pub fn bytes(&self) -> u64 {
        self.bytes.load(Ordering::SeqCst)
    }

    /// A line of so many bytes is put next.
    pub fn came(&self, bytes: u64) {
        self.bytes.fetch_add(bytes, Ordering::SeqCst);
    }

    /// A line of so many bytes was taken.
    pub fn went(&self, bytes: u64) {
        self.bytes.fetch_sub(bytes, Ordering::SeqCst);
    }

    /// Wakes the thread if it waits; otherwise its next wait ends at once.
    pub fn ring(&self) {
        self.parker.unpark();
    }

    /// Waits for a ring. It may return early.
    pub fn wait<R: Wait>(&self, rt: &R) {
        self.parker
            .park_timeout(rt, Duration::from_millis(LONGEST_WAIT));
    }

    /// No line is put any more.
    pub fn close(&self) {
        self.is_closed.store(true, Ordering::SeqCst);
        self.ring();
    }

    /// Whether no line is put any more: what waits then is all that is left.
    pub(crate) fn is_closed(&self) -> bool {
        self.is_closed.load(Ordering::SeqCst)
    }

    /// What waits isn't to be written any more.
    pub fn give_up(&self) {
        self.is_given_up.store(true, Ordering::SeqCst);
    }

    pub fn is_given_up(&self) -> bool {
        self.is_given_up.load(Ordering::SeqCst)
    }
}
