//! Places for reads that are sent on before the leader has answered.

ghost use Rattle.std.specs.Prelude.{◌≡◌, ◌≤◌, ◌+◌, ◌-◌, ◌^◌, min};

use std::alloc::Global;
use std::sync::Arc;
use std::sync::atomic::{AtomicUsize, Ordering};

// How many places a connection has at most.
const MOST_PLACES: usize = 32;

/// Places for the reads of all clients that the engine may hold: one packet of the leader releases no more answers to
/// reads than these.
#[derive(Drop)]
pub struct ReadsAhead {
    free: AtomicUsize,
}

impl ReadsAhead {
    pub fn new(places: usize) -> ReadsAhead {
        ReadsAhead {
            free: AtomicUsize::new(places),
        }
    }
}

/// The places of one connection.
#[derive(Drop)]
pub struct OwnReadsAhead {
    // None for a connection that has no places.
    pool: Option<Arc<ReadsAhead, Global>>,
    held: usize,
    used: usize,
}

impl OwnReadsAhead {
    /// No place yet.
    pub fn new(pool: Option<Arc<ReadsAhead, Global>>) -> OwnReadsAhead
        ensures { (result.held ≡ 0) × (result.used ≡ 0) }
    {
        OwnReadsAhead {
            pool,
            held: 0,
            used: 0,
        }
    }

    /// How many frames may be sent on ahead. It takes the places that the connection may have besides; while another
    /// thread takes some, there may be none.
    pub fn left(&mut self) -> usize
        ensures left { result ≡ self.new.held - self.new.used }
        ensures most { self.old.held ≤ 32 → self.new.held ≤ 32 }
        ensures kept { (self.old.held ≤ self.new.held) × (self.new.used ≡ self.old.used) }
    {
        if let Some(pool) = &self.pool {
            let free = pool.free.load(Ordering::SeqCst);
            let wanted = free.min(MOST_PLACES.saturating_sub(self.held));
            let left = free.saturating_sub(wanted);
            let taken = pool
                .free
                .compare_exchange(free, left, Ordering::SeqCst, Ordering::SeqCst)
                .is_ok();
            if taken {
                self.held = self.held.saturating_add(wanted);
            }
        }
        self.held.saturating_sub(self.used)
    }

    /// Counts frames that are sent on ahead.
    pub fn fill(&mut self, frames: usize)
        ensures used { self.new.used ≡ min (self.old.used + frames) (2 ^ 64 - 1) }
        ensures held { self.new.held ≡ self.old.held }
    {
        self.used = self.used.saturating_add(frames);
    }

    /// While so many frames of the connection aren't answered, no more of those that went ahead are: gives the other
    /// places back.
    pub(crate) fn give_back(&mut self, owed: usize)
        ensures used { self.new.used ≡ min self.old.used owed }
        ensures held { self.new.held ≡ self.new.used }
    {
        self.used = self.used.min(owed);
        let free = self.held.saturating_sub(self.used);
        if free > 0 {
            if let Some(pool) = &self.pool {
                pool.free.fetch_add(free, Ordering::SeqCst);
            }
        }
        self.held = self.used;
    }
}
