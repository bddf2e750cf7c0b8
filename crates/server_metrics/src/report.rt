//! What the metrics are made of.

use server_words::ServerFigures;
use values::Listed;

/// How many of some times were at most so long.
#[derive(Clone, Copy, Debug, PartialEq, Eq)]
pub struct Bucket {
    /// The bound, in microseconds.
    pub bound: u64,
    /// How many were at most as long.
    pub count: u64,
}

/// How long something took, each time.
#[derive(Drop)]
pub struct Times {
    /// In ascending order of their bounds.
    pub buckets: Listed<Bucket>,
    /// How many times there were in all.
    pub count: u64,
    /// How long they took together, in microseconds.
    pub total: u64,
}

/// What a server knows of itself.
#[derive(Drop)]
pub struct MetricsReport {
    pub figures: ServerFigures,
    /// The transactions that were applied since the start.
    pub transactions: u64,
    /// The transactions that are kept since the base.
    pub log: u64,
    /// The microseconds since the leader was last heard.
    pub silence: u64,
    /// The bytes of memory that the process has, if the system tells.
    pub memory: Option<u64>,
    /// The answers to clients whose time was taken.
    pub answers: Times,
    /// The turns of the thread that has the engine.
    pub turns: Times,
}
