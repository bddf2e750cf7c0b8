//! The messages that go into a port.

use thiserror::Error;
use values::{Blob, Text};

/// A message from the thread of a port to the hub.
#[derive(Debug, Drop, PartialEq, Eq)]
pub enum Message {
    /// The connection is open. That of a client has the client's address, a text such as `127.0.0.1`.
    Up(Option<Text>),
    Bytes(Blob),
    /// The connection has ended.
    End,
    /// The tree becomes the base and the log is emptied, while clients are served.
    Checkpoint,
    /// The session with this id has expired.
    Expire(i64),
}

/// There is no room for the message, which is returned.
#[derive(Debug, Drop)]
pub struct Full(pub Message);

/// The reason why a port wasn't added.
#[derive(Clone, Copy, Debug, PartialEq, Eq, Error)]
pub enum AddPortError {
    #[error("a port has room for 1 to 1024 messages")]
    BadCapacity,
    #[error("no memory")]
    NoMemory,
}
