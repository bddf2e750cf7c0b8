//! Bytes that were worked out by hand. They come from functions, so that no proof knows them.

use settings::Dialect;

/// The first packet of an observer with this server id.
pub fn observer_info() -> &'static [u8] {
    b"\0\0\0\x10\0\0\0\0\0\0\0\0\0\0\0\x0c\0\0\0\0\0\0\0\x01\0\x01\0\0\xff\xff\xff\xff"
}

/// The answer of a leader of epoch 1.
pub fn leader_info() -> &'static [u8] {
    b"\0\0\0\x11\0\0\0\x01\0\0\0\0\0\0\0\x04\0\x01\0\0\xff\xff\xff\xff"
}

/// The observer's acknowledgement of the epoch.
pub fn ack_epoch() -> &'static [u8] {
    b"\0\0\0\x12\0\0\0\0\0\0\0\0\0\0\0\x04\0\0\0\0\xff\xff\xff\xff"
}

/// An empty DIFF, and the packet that ends it.
pub fn diff_and_new_leader() -> &'static [u8] {
    b"\0\0\0\x0d\0\0\0\0\0\0\0\0\xff\xff\xff\xff\xff\xff\xff\xff\
    \0\0\0\x0a\0\0\0\x01\0\0\0\0\xff\xff\xff\xff\xff\xff\xff\xff"
}

/// From this packet on clients are served.
pub fn up_to_date() -> &'static [u8] {
    b"\0\0\0\x0c\0\0\0\x01\0\0\0\0\xff\xff\xff\xff\xff\xff\xff\xff"
}

/// The observer's acknowledgement of the last two packets.
pub fn ack() -> &'static [u8] {
    b"\0\0\0\x03\0\0\0\x01\0\0\0\0\xff\xff\xff\xff\xff\xff\xff\xff"
}

/// An INFORM of a create of /a with the data "hi" and the zxid 0x100000001.
pub fn create() -> &'static [u8] {
    b"\0\0\0\x08\0\0\0\x01\0\0\0\x01\0\0\0\x4c\0\0\0\0\0\0\0\x07\0\0\0\x01\
    \0\0\0\x01\0\0\0\x01\0\0\0\0\0\0\x03\xe8\0\0\0\x01\0\0\0\x02/a\0\0\0\x02hi\
    \0\0\0\x01\0\0\0\x1f\0\0\0\x05world\0\0\0\x06anyone\0\0\0\0\x01\xff\xff\xff\xff"
}

/// A client's connect for a new session.
pub fn connect() -> &'static [u8] {
    b"\0\0\0\x2d\0\0\0\0\0\0\0\0\0\0\0\0\0\0\x27\x10\0\0\0\0\0\0\0\0\0\0\0\x10\
    \0\0\0\0\0\0\0\0\0\0\0\0\0\0\0\0\0"
}

/// The observer's request for the session, which is its first one.
pub fn session_request() -> &'static [u8] {
    b"\0\0\0\x01\xff\xff\xff\xff\xff\xff\xff\xff\0\0\0\x14\x01\0\0\0\0\0\0\x01\
    \0\0\0\0\xff\xff\xff\xf6\0\0\x27\x10\xff\xff\xff\xff"
}

/// An INFORM of the createSession, with the zxid 0x100000002.
pub fn create_session() -> &'static [u8] {
    b"\0\0\0\x08\0\0\0\x01\0\0\0\x02\0\0\0\x24\x01\0\0\0\0\0\0\x01\0\0\0\0\
    \0\0\0\x01\0\0\0\x02\0\0\0\0\0\0\x03\xe8\xff\xff\xff\xf6\0\0\x27\x10\xff\xff\xff\xff"
}

/// The answer to the connect, with the session's password: in the later dialect the one that any ZooKeeper server gives
/// it.
pub fn connected(dialect: Dialect) -> &'static [u8] {
    match dialect {
        Dialect::Zk34 => {
            b"\0\0\0\x25\0\0\0\0\0\0\x27\x10\x01\0\0\0\0\0\0\x01\0\0\0\x10\
            \xb2\x55\x6e\x64\x8a\xf6\x0c\x50\x3e\x95\xb6\x7c\x11\x24\x61\x8e\0"
        }
        Dialect::Zk38 => {
            b"\0\0\0\x25\0\0\0\0\0\0\x27\x10\x01\0\0\0\0\0\0\x01\0\0\0\x10\
            \x05\x4c\xc7\x4a\x37\x32\x7d\xb2\x15\xe7\x02\xe2\x0c\x73\xf0\x05\0"
        }
    }
}

/// A client's getData of /a, with xid 1 and without a watch.
pub fn get() -> &'static [u8] {
    b"\0\0\0\x0f\0\0\0\x01\0\0\0\x04\0\0\0\x02/a\0"
}

/// The reply to it after the create.
pub fn got() -> &'static [u8] {
    b"\0\0\0\x5a\0\0\0\x01\0\0\0\x01\0\0\0\x01\0\0\0\0\0\0\0\x02hi\0\0\0\x01\0\0\0\x01\
    \0\0\0\x01\0\0\0\x01\0\0\0\0\0\0\x03\xe8\0\0\0\0\0\0\x03\xe8\0\0\0\0\0\0\0\0\
    \0\0\0\0\0\0\0\0\0\0\0\0\0\0\0\x02\0\0\0\0\0\0\0\x01\0\0\0\x01"
}

/// The reply to it after the createSession.
pub fn got_with_session() -> &'static [u8] {
    b"\0\0\0\x5a\0\0\0\x01\0\0\0\x01\0\0\0\x02\0\0\0\0\0\0\0\x02hi\0\0\0\x01\0\0\0\x01\
    \0\0\0\x01\0\0\0\x01\0\0\0\0\0\0\x03\xe8\0\0\0\0\0\0\x03\xe8\0\0\0\0\0\0\0\0\
    \0\0\0\0\0\0\0\0\0\0\0\0\0\0\0\x02\0\0\0\0\0\0\0\x01\0\0\0\x01"
}
