//! The kinds of watches, as a client asks for one that it has.

/// Which of a connection's watches on a path.
#[derive(Clone, Copy)]
pub enum WatchKind {
    /// The child watch.
    Child,
    /// The data watch.
    Data,
    /// All of them.
    Any,
    /// The lasting watch on the path alone.
    Persistent,
    /// The lasting watch on the path and all below it.
    Recursive,
}
