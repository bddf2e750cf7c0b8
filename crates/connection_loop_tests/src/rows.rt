//! Bytes that were worked out by hand. They come from functions, so that no proof knows them.

/// What a leader of epoch 1 sends until clients are served.
pub fn led() -> &'static [u8] {
    b"\0\0\0\x11\0\0\0\x01\0\0\0\0\0\0\0\x04\0\x01\0\0\xff\xff\xff\xff\
    \0\0\0\x0d\0\0\0\0\0\0\0\0\xff\xff\xff\xff\xff\xff\xff\xff\
    \0\0\0\x0a\0\0\0\x01\0\0\0\0\xff\xff\xff\xff\xff\xff\xff\xff\
    \0\0\0\x0c\0\0\0\x01\0\0\0\0\xff\xff\xff\xff\xff\xff\xff\xff"
}

/// An INFORM of a create of /a with the data "hi" and the zxid 0x100000001.
pub fn create() -> &'static [u8] {
    b"\0\0\0\x08\0\0\0\x01\0\0\0\x01\0\0\0\x4c\0\0\0\0\0\0\0\x07\0\0\0\x01\
    \0\0\0\x01\0\0\0\x01\0\0\0\0\0\0\x03\xe8\0\0\0\x01\0\0\0\x02/a\0\0\0\x02hi\
    \0\0\0\x01\0\0\0\x1f\0\0\0\x05world\0\0\0\x06anyone\0\0\0\0\x01\xff\xff\xff\xff"
}

/// How many bytes the observer sends to the leader for that: its first packet, what acknowledges the epoch, the DIFF and
/// the UPTODATE, and the request for a session.
pub fn asked_len() -> usize {
    32 + 24 + 20 + 20 + 40
}

/// A client's connect for a new session.
pub fn connect() -> &'static [u8] {
    b"\0\0\0\x2d\0\0\0\0\0\0\0\0\0\0\0\0\0\0\x27\x10\0\0\0\0\0\0\0\0\0\0\0\x10\
    \0\0\0\0\0\0\0\0\0\0\0\0\0\0\0\0\0"
}

/// An INFORM of the createSession of the observer's session with this counter, with the zxid 0x100000002.
pub fn create_session(counter: u8) -> [u8; 56] {
    let mut bytes = *b"\0\0\0\x08\0\0\0\x01\0\0\0\x02\0\0\0\x24\x01\0\0\0\0\0\0\x01\0\0\0\0\
        \0\0\0\x01\0\0\0\x02\0\0\0\0\0\0\x03\xe8\xff\xff\xff\xf6\0\0\x27\x10\xff\xff\xff\xff";
    bytes[23] = counter;
    bytes
}

/// A client's getData of /a, with xid 1 and without a watch.
pub fn get() -> &'static [u8] {
    b"\0\0\0\x0f\0\0\0\x01\0\0\0\x04\0\0\0\x02/a\0"
}

/// A packet of the leader whose length is out of bounds.
pub fn refused() -> &'static [u8] {
    b"\0\0\0\x08\0\0\0\x01\0\0\0\x03\xff\xff\xff\0"
}
