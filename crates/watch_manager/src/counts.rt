//! Counts of watches.

/// How much is watched, and by how many connections. Each is a sum over tables, and may not fit a `usize`.
#[derive(Drop)]
pub struct WatchCounts {
    /// The connections that watch something.
    pub connections: u128,
    /// The paths that are watched.
    pub paths: u128,
    /// The watches of all tables.
    pub watches: u128,
}
