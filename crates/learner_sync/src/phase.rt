//! The phases between a learner and its leader.

/// The phase between a learner and its leader.
#[derive(Clone, Copy, Debug, PartialEq, Eq)]
pub enum Phase {
    /// There is no leader.
    Down,
    /// The leader's epoch is awaited.
    Hello,
    /// A DIFF, TRUNC or SNAP is awaited: the leader says how it brings the learner up to date.
    Sync,
    /// An image is awaited, which a SNAP packet of this zxid has announced.
    Image(i64),
    /// The image was loaded, and the transactions that the leader made while it wrote the image are awaited. The zxid
    /// is that of the last transaction applied since the image, or 0.
    ReplayOnImage(i64),
    /// The transactions that the learner lacks are awaited.
    Replay,
    /// The learner is up to date, and clients are served.
    Serving,
}
