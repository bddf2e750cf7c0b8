//! What a server tells of itself.

use settings::Dialect;
use values::{Listed, Str};

/// How many answers were timed, and how long they took, in microseconds.
#[derive(Clone, Copy, Debug, PartialEq, Eq)]
pub struct Latency {
    pub count: u64,
    pub total: u64,
    pub least: u64,
    pub most: u64,
}

/// How many descriptors a process has open, and how many it may have.
#[derive(Clone, Copy, Debug, PartialEq, Eq)]
pub struct Descriptors {
    pub count: u64,
    pub most: u64,
}

/// What has gone through a server, and what it holds.
#[derive(Drop)]
pub struct ServerFigures {
    /// Whether clients are served.
    pub serving: bool,
    pub latency: Latency,
    /// The packets that came from clients.
    pub received: u64,
    /// The packets that went to clients.
    pub sent: u64,
    /// The open connections of clients, with a session or without.
    pub connections: u64,
    /// The connections that were closed at once, for want of a place.
    pub rejected: u64,
    /// The requests that aren't answered yet.
    pub outstanding: u64,
    /// The last zxid.
    pub zxid: i64,
    /// The paths in the tree.
    pub paths: u64,
    pub watches: u64,
    /// The pairs of a session and an ephemeral node.
    pub pairs: u64,
    /// The sessions of all clients of the ensemble.
    pub sessions: u64,
    /// The milliseconds since the server was started.
    pub uptime: u64,
    /// The descriptors of the process, if the system tells.
    pub descriptors: Option<Descriptors>,
}

/// How a server is set.
#[derive(Clone, Copy, Debug, PartialEq, Eq)]
pub struct ServerSettings {
    pub client_port: u64,
    /// The milliseconds of a tick.
    pub tick: u64,
    /// How many clients of one address may be connected; 0: any number.
    pub per_address: u64,
    /// The bounds of a session's timeout, in milliseconds.
    pub least_timeout: u64,
    pub greatest_timeout: u64,
    pub server_id: u64,
    /// The ticks that a leader may be silent, at first and afterwards.
    pub init_limit: u64,
    pub sync_limit: u64,
}

/// What has gone through a client's connection.
#[derive(Drop)]
pub struct ClientFigures<'a> {
    /// Its address and port.
    pub address: Str<'a>,
    /// The requests that aren't answered yet.
    pub queued: u64,
    pub received: u64,
    pub sent: u64,
}

/// All that the answers are made of.
#[derive(Drop)]
pub struct Report<'a> {
    /// The version of ZooKeeper that the server answers for, and its own.
    pub version: Str<'a>,
    pub dialect: Dialect,
    pub figures: ServerFigures,
    pub settings: ServerSettings,
    /// The open connections. The answer of a word that doesn't list them is the same without them.
    pub clients: Listed<ClientFigures<'a>>,
}
