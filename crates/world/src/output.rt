//! The outputs that an observer gives.

use values::{Blob, Fault};

/// An output.
#[derive(Debug, Drop, PartialEq, Eq)]
pub enum Output {
    /// One whole packet.
    ToLeader(Blob),
    /// One whole frame, or the answer to a four-letter word.
    ToClient(u64, Blob),
    CloseLeader(Fault),
    CloseClient(u64),
}
