//! Bytes that were worked out by hand. They come from functions, so that no proof knows them.

/// An INFORM of a create of /a with the data "hi" and the zxid 0x100000001.
pub fn create() -> &'static [u8] {
    b"\0\0\0\x08\0\0\0\x01\0\0\0\x01\0\0\0\x4c\0\0\0\0\0\0\0\x07\0\0\0\x01\
    \0\0\0\x01\0\0\0\x01\0\0\0\0\0\0\x03\xe8\0\0\0\x01\0\0\0\x02/a\0\0\0\x02hi\
    \0\0\0\x01\0\0\0\x1f\0\0\0\x05world\0\0\0\x06anyone\0\0\0\0\x01\xff\xff\xff\xff"
}

/// A client's getData of /a, with xid 1 and without a watch.
pub fn get() -> &'static [u8] {
    b"\0\0\0\x0f\0\0\0\x01\0\0\0\x04\0\0\0\x02/a\0"
}

/// The reply to it after the create.
pub fn reply_of_create() -> &'static [u8] {
    b"\0\0\0\x5a\0\0\0\x01\0\0\0\x01\0\0\0\x01\0\0\0\0\0\0\0\x02hi\0\0\0\x01\0\0\0\x01\
    \0\0\0\x01\0\0\0\x01\0\0\0\0\0\0\x03\xe8\0\0\0\0\0\0\x03\xe8\0\0\0\0\0\0\0\0\
    \0\0\0\0\0\0\0\0\0\0\0\0\0\0\0\x02\0\0\0\0\0\0\0\x01\0\0\0\x01"
}

/// An INFORM of a setData of /a to null at version 1, with the zxid 0x100000002.
pub fn set() -> &'static [u8] {
    b"\0\0\0\x08\0\0\0\x01\0\0\0\x02\0\0\0\x2e\0\0\0\0\0\0\0\x07\0\0\0\x02\
    \0\0\0\x01\0\0\0\x02\0\0\0\0\0\0\x07\xd0\0\0\0\x05\0\0\0\x02/a\xff\xff\xff\xff\
    \0\0\0\x01\xff\xff\xff\xff"
}

/// The reply to the getData after the setData.
pub fn reply_of_set() -> &'static [u8] {
    b"\0\0\0\x58\0\0\0\x01\0\0\0\x01\0\0\0\x02\0\0\0\0\xff\xff\xff\xff\
    \0\0\0\x01\0\0\0\x01\0\0\0\x01\0\0\0\x02\0\0\0\0\0\0\x03\xe8\0\0\0\0\0\0\x07\xd0\
    \0\0\0\x01\0\0\0\0\0\0\0\0\0\0\0\0\0\0\0\0\0\0\0\0\0\0\0\0\0\0\0\x01\0\0\0\x01"
}

/// The OBSERVERINFO of server 3, which has accepted no epoch yet.
pub fn introduction() -> &'static [u8] {
    b"\0\0\0\x10\0\0\0\0\0\0\0\0\0\0\0\x0c\0\0\0\0\0\0\0\x03\0\x01\0\0\xff\xff\xff\xff"
}
