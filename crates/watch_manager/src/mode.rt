//! The modes of lasting watches.

/// What a lasting watch is on.
#[derive(Clone, Copy)]
pub enum WatchMode {
    /// A path.
    Persistent,
    /// A path and all below it.
    Recursive,
}
