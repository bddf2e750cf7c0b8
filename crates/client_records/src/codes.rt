//! The numbers in a client's frames, besides those of `jute::codes`.

/// No error.
pub const OK: i32 = 0;

/// The error of a request whose body can't be read, for later clients.
pub const MARSHALLING_ERROR: i32 = -5;

/// The error of a request with an unknown operation.
pub const UNIMPLEMENTED: i32 = -6;

/// The error of an auth packet whose scheme or data is refused.
pub const AUTH_FAILED: i32 = -115;

/// The error of a write whose session another server has by now.
pub const SESSION_MOVED: i32 = -118;

/// The error of a request that would change the tree.
pub const NOT_READ_ONLY: i32 = -119;

/// The error of a request to find or to remove a watch that isn't there.
pub const NO_WATCHER: i32 = -121;

/// The state in each event: the client is connected.
pub const SYNC_CONNECTED: i32 = 3;

/// The mode of an addWatch that asks for a persistent watch, on one path.
pub const PERSISTENT: i32 = 0;

/// The mode of an addWatch that asks for a recursive watch, on a path and all paths below it.
pub const RECURSIVE: i32 = 1;

/// The xid of an event's frame, which answers no request.
pub const NOTIFICATION_XID: i32 = -1;

/// The xid of a ping and of its answer.
pub const PING_XID: i32 = -2;

/// The xid of an auth packet.
pub const AUTH_XID: i32 = -4;

/// The xid of a setWatches.
pub const SET_WATCHES_XID: i32 = -8;
