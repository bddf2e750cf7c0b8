//! How long something takes, each time.

use server_metrics::{Bucket, Times};
use std::alloc::Global;
use std::sync::atomic::{AtomicU64, Ordering};
use values::{Listed, NoMemory};

// The bounds of the buckets, in microseconds.
const BOUNDS: [u64; 10] = [
    100, 500, 1000, 5000, 10_000, 50_000, 100_000, 500_000, 1_000_000, 5_000_000,
];

/// Counts times by their length. Threads share it.
#[derive(Drop)]
pub(crate) struct Histogram {
    // How many times there were, and how long they took together.
    count: AtomicU64,
    total: AtomicU64,
    // Those that are in each bucket and in none before it.
    buckets: [AtomicU64; 10],
}

impl Histogram {
    pub fn new() -> Histogram {
        Histogram {
            count: AtomicU64::new(0),
            total: AtomicU64::new(0),
            buckets: [
                AtomicU64::new(0),
                AtomicU64::new(0),
                AtomicU64::new(0),
                AtomicU64::new(0),
                AtomicU64::new(0),
                AtomicU64::new(0),
                AtomicU64::new(0),
                AtomicU64::new(0),
                AtomicU64::new(0),
                AtomicU64::new(0),
            ],
        }
    }

    /// Counts a time of so many microseconds.
    pub fn add(&self, took: u64) {
        self.count.fetch_add(1, Ordering::SeqCst);
        self.total.fetch_add(took, Ordering::SeqCst);
        for (bound, bucket) in BOUNDS.iter().zip(self.buckets.iter()) {
            if took <= *bound {
                bucket.fetch_add(1, Ordering::SeqCst);
                break;
            }
        }
    }

    /// The counts. Each bucket has the times of those before it, too. They are read before the number of all, which is
    /// counted first, so that none has more.
    pub fn times(&self, alloc: Global) -> Result<Times, NoMemory> {
        let mut buckets = Vec::with_capacity(alloc, BOUNDS.len())?;
        let mut so_far: u64 = 0;
        for (bound, bucket) in BOUNDS.iter().zip(self.buckets.iter()) {
            so_far = so_far.saturating_add(bucket.load(Ordering::SeqCst));
            buckets.push(Bucket {
                bound: *bound,
                count: so_far,
            })?;
        }
        Ok(Times {
            buckets: Listed::from_vec(buckets),
            count: self.count.load(Ordering::SeqCst),
            total: self.total.load(Ordering::SeqCst),
        })
    }
}
