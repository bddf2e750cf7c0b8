//! Counts of packets, and of how long answers took.

use server_words::Latency;
use std::sync::atomic::{AtomicU64, Ordering};

/// Counts that threads share.
#[derive(Drop)]
pub(crate) struct Counts {
    received: AtomicU64,
    sent: AtomicU64,
    // The frames that aren't answered.
    owed: AtomicU64,
    // How many answers were timed, and how long they took, in microseconds. The least is the greatest number while there
    // is none.
    timed: AtomicU64,
    total: AtomicU64,
    least: AtomicU64,
    most: AtomicU64,
}

impl Counts {
    pub fn new() -> Counts {
        Counts {
            received: AtomicU64::new(0),
            sent: AtomicU64::new(0),
            owed: AtomicU64::new(0),
            timed: AtomicU64::new(0),
            total: AtomicU64::new(0),
            least: AtomicU64::new(u64::MAX),
            most: AtomicU64::new(0),
        }
    }

    /// Counts frames that were sent on.
    pub fn receive(&self, frames: u64) {
        self.received.fetch_add(frames, Ordering::SeqCst);
        self.owed.fetch_add(frames, Ordering::SeqCst);
    }

    /// Counts frames that aren't waited for any more.
    pub fn settle(&self, frames: u64) {
        self.owed.fetch_sub(frames, Ordering::SeqCst);
    }

    /// Counts packets that were sent.
    pub fn send(&self, packets: u64) {
        self.sent.fetch_add(packets, Ordering::SeqCst);
    }

    /// Counts a word and its answer.
    pub fn note_word(&self) {
        self.received.fetch_add(1, Ordering::SeqCst);
        self.sent.fetch_add(1, Ordering::SeqCst);
    }

    /// Counts an answer that took so many microseconds.
    pub fn time(&self, took: u64) {
        self.timed.fetch_add(1, Ordering::SeqCst);
        self.total.fetch_add(took, Ordering::SeqCst);
        if took < self.least.load(Ordering::SeqCst) {
            self.least.fetch_min(took, Ordering::SeqCst);
        }
        if took > self.most.load(Ordering::SeqCst) {
            self.most.fetch_max(took, Ordering::SeqCst);
        }
    }

    /// Counts anew. What isn't answered yet still isn't.
    pub fn reset(&self) {
        self.received.store(0, Ordering::SeqCst);
        self.sent.store(0, Ordering::SeqCst);
        self.timed.store(0, Ordering::SeqCst);
        self.total.store(0, Ordering::SeqCst);
        self.least.store(u64::MAX, Ordering::SeqCst);
        self.most.store(0, Ordering::SeqCst);
    }

    pub fn received(&self) -> u64 {
        self.received.load(Ordering::SeqCst)
    }

    pub fn sent(&self) -> u64 {
        self.sent.load(Ordering::SeqCst)
    }

    pub fn owed(&self) -> u64 {
        self.owed.load(Ordering::SeqCst)
    }

    pub fn latency(&self) -> Latency {
        let least = self.least.load(Ordering::SeqCst);
        Latency {
            count: self.timed.load(Ordering::SeqCst),
            total: self.total.load(Ordering::SeqCst),
            least: if least == u64::MAX { 0 } else { least },
            most: self.most.load(Ordering::SeqCst),
        }
    }
}
