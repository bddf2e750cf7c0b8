//! The lines of a script.

use settings::{Dialect, Epochs, FirstCounter, Secret, ServerId, TimeoutBounds};
use values::{Blob, Text};

/// An event of a script. A connection is named by its number.
#[derive(Debug, Drop)]
pub enum ScriptEvent {
    /// `leader up`
    LeaderUp,
    /// `leader HEX`
    LeaderBytes(Blob),
    /// `leader end`
    LeaderEnd,
    /// `client N up`, or `client N up ADDRESS` with the address of the client.
    ClientUp(u64, Option<Text>),
    /// `client N HEX`
    ClientBytes(u64, Blob),
    /// `client N end`
    ClientEnd(u64),
    /// `expire HEX`: the session with this id has expired.
    Expire(i64),
    /// `checkpoint`
    Checkpoint,
}

/// A header line.
#[derive(Debug, Drop)]
pub enum Setting {
    /// `server N`
    Server(ServerId),
    /// `counter N`: the counter after which session ids begin.
    Counter(FirstCounter),
    /// `epochs N N`: the accepted and the current epoch.
    Epochs(Epochs),
    /// `timeouts N N`: the least and the greatest timeout of a session, in milliseconds.
    Timeouts(TimeoutBounds),
    /// `secret HEX`
    Secret(Secret),
    /// `dialect 3.4` or `dialect 3.8`: that of ZooKeeper 3.4, or of 3.5 to 3.9.
    Dialect(Dialect),
    /// `super TEXT`: the digest that makes a super user of a client.
    Super(Text),
    /// `primed`
    Primed,
}

/// A line of a script.
#[derive(Debug, Drop)]
pub enum Line {
    /// An empty line, or one that begins with `#`.
    Blank,
    Header(Setting),
    Happening(ScriptEvent),
}

/// The word that a line begins with.
#[derive(Clone, Copy)]
pub enum Keyword {
    Server,
    Counter,
    Epochs,
    Timeouts,
    Secret,
    Dialect,
    Super,
    Primed,
    Leader,
    Client,
    Expire,
    Checkpoint,
}

/// What comes from a peer: its connection opens, sends bytes, or ends.
#[derive(Drop)]
pub enum Coming {
    Up,
    Bytes(Blob),
    End,
}
