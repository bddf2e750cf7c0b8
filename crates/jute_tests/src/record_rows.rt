//! The records of client frames, and lists of ACLs.

use jute::codes::open_list;
use jute::{
    Acl, Id, ReadRecord, Reader, ReplyHeader, RequestHeader, Stat, StatPersisted, WriteRecord,
    put_bool, put_bytes, put_frame, put_int, put_items, put_string, put_vector, read_frame,
    read_vector,
};
use std::alloc::Global;
use std::test::Fail;
use values::{Blob, Listed, NoMemory, ReadError};

/// The frame of the reply to getData: header, data and Stat of a node that was created with two bytes.
const REPLY: [u8; 94] = *b"\x00\x00\x00\x5a\
    \x00\x00\x00\x01\x00\x00\x00\x01\x00\x00\x00\x01\x00\x00\x00\x00\
    \x00\x00\x00\x02hi\
    \x00\x00\x00\x01\x00\x00\x00\x01\x00\x00\x00\x01\x00\x00\x00\x01\
    \x00\x00\x00\x00\x00\x00\x03\xe8\x00\x00\x00\x00\x00\x00\x03\xe8\
    \x00\x00\x00\x00\x00\x00\x00\x00\x00\x00\x00\x00\
    \x00\x00\x00\x00\x00\x00\x00\x00\x00\x00\x00\x02\x00\x00\x00\x00\
    \x00\x00\x00\x01\x00\x00\x00\x01";

/// The frame of the request for it.
const REQUEST: [u8; 19] =
    *b"\x00\x00\x00\x0f\x00\x00\x00\x01\x00\x00\x00\x04\x00\x00\x00\x02/a\x00";

/// A StatPersisted with the numbers 1 to 9.
const PERSISTED: [u8; 60] = *b"\x00\x00\x00\x00\x00\x00\x00\x01\x00\x00\x00\x00\x00\x00\x00\x02\
    \x00\x00\x00\x00\x00\x00\x00\x03\x00\x00\x00\x00\x00\x00\x00\x04\
    \x00\x00\x00\x05\x00\x00\x00\x06\x00\x00\x00\x07\
    \x00\x00\x00\x00\x00\x00\x00\x08\x00\x00\x00\x00\x00\x00\x00\x09";

/// The list of one ACL that grants every client everything.
const OPEN: [u8; 27] =
    *b"\x00\x00\x00\x01\x00\x00\x00\x1f\x00\x00\x00\x05world\x00\x00\x00\x06anyone";

const LIMIT: u32 = 4_194_304;

fn stat() -> Stat {
    Stat {
        czxid: 0x1_0000_0001,
        mzxid: 0x1_0000_0001,
        ctime: 1000,
        mtime: 1000,
        version: 0,
        cversion: 0,
        aversion: 0,
        ephemeral_owner: 0,
        data_length: 2,
        num_children: 0,
        pzxid: 0x1_0000_0001,
    }
}

fn reply_header() -> ReplyHeader {
    ReplyHeader {
        xid: 1,
        zxid: 0x1_0000_0001,
        err: 0,
    }
}

// The reply, after its frame's length.
#[tactic(auto, unfolding(jute::specs::Records::reply_header, jute::specs::Records::stat_format))]
fn reply_written(alloc: Global) -> Result<Vec<u8>, NoMemory> {
    let mut out = Vec::new(alloc);
    put_int(&mut out, 90)?;
    reply_header().write(&mut out)?;
    put_bytes(&mut out, b"hi")?;
    stat().write(&mut out)?;
    Ok(out)
}

// The bytes of the single frame.
fn framed(bytes: &[u8]) -> Option<&[u8]> {
    let mut frames = Reader::new(bytes);
    let found = read_frame(&mut frames, LIMIT).ok();
    if frames.rest().is_empty() {
        found
    } else {
        None
    }
}

// Whether the reply is read to its end.
fn is_reply(alloc: Global, bytes: &[u8]) -> Result<bool, ReadError> {
    let mut reader = Reader::new(bytes);
    let header = ReplyHeader::read(alloc, &mut reader)?;
    let bytes = reader.read_buffer()?;
    let shown = Stat::read(alloc, &mut reader)?;
    Ok(
        header == reply_header()
            && bytes == Some(b"hi")
            && shown == stat()
            && reader.rest().is_empty(),
    )
}

#[test]
fn reply_is_read_and_written(rt: HostRuntime) -> Result<(), Fail> {
    let bytes = framed(&REPLY).ok_or("a frame")?;
    assert!(rt; is_reply(rt.alloc(), bytes)?);
    assert_eq!(rt; reply_written(rt.alloc())?.as_slice(), REPLY.as_slice());
    Ok(())
}

// The request, after its frame's length.
#[tactic(auto, unfolding(jute::specs::Records::request_header))]
fn request_written(alloc: Global) -> Result<Vec<u8>, NoMemory> {
    let mut out = Vec::new(alloc);
    put_int(&mut out, 15)?;
    RequestHeader { xid: 1, kind: 4 }.write(&mut out)?;
    put_string(&mut out, "/a")?;
    put_bool(&mut out, false)?;
    Ok(out)
}

// Whether the request is read to its end.
fn is_request(alloc: Global, bytes: &[u8]) -> Result<bool, ReadError> {
    let mut reader = Reader::new(bytes);
    let header = RequestHeader::read(alloc, &mut reader)?;
    let path = reader.read_string()?;
    let watch = reader.read_bool()?;
    Ok(
        header == RequestHeader { xid: 1, kind: 4 }
            && path == Some("/a")
            && !watch
            && reader.rest().is_empty(),
    )
}

#[test]
fn request_is_read_and_written(rt: HostRuntime) -> Result<(), Fail> {
    let bytes = framed(&REQUEST).ok_or("a frame")?;
    assert!(rt; is_request(rt.alloc(), bytes)?);
    assert_eq!(rt; request_written(rt.alloc())?.as_slice(), REQUEST.as_slice());
    Ok(())
}

// A header in a frame of its own, and two ints after it.
#[tactic(auto, unfolding(jute::specs::Records::request_header, jute::specs::Format::number_bytes))]
fn frame_and_items(alloc: Global) -> Result<Vec<u8>, NoMemory> {
    let mut out = Vec::new(alloc);
    put_frame(&mut out, &RequestHeader { xid: 1, kind: 4 })?;
    put_items(&mut out, &[5i32, -2])?;
    Ok(out)
}

#[test]
fn frames_and_items_are_written(rt: HostRuntime) -> Result<(), Fail> {
    let bytes = b"\x00\x00\x00\x08\x00\x00\x00\x01\x00\x00\x00\x04\x00\x00\x00\x05\xff\xff\xff\xfe";
    assert_eq!(rt; frame_and_items(rt.alloc())?.as_slice(), bytes.as_slice());
    Ok(())
}

// Numbers that are all different.
fn persisted() -> StatPersisted {
    StatPersisted {
        czxid: 1,
        mzxid: 2,
        ctime: 3,
        mtime: 4,
        version: 5,
        cversion: 6,
        aversion: 7,
        ephemeral_owner: 8,
        pzxid: 9,
    }
}

#[tactic(auto, unfolding(jute::specs::Records::stat_persisted))]
fn persisted_written(alloc: Global) -> Result<Vec<u8>, NoMemory> {
    let mut out = Vec::new(alloc);
    persisted().write(&mut out)?;
    Ok(out)
}

// Whether the numbers are read to their end.
fn is_persisted(alloc: Global, bytes: &[u8]) -> Result<bool, ReadError> {
    let mut reader = Reader::new(bytes);
    let found = StatPersisted::read(alloc, &mut reader)?;
    Ok(found == persisted() && reader.rest().is_empty())
}

#[test]
fn persisted_stat_is_read_and_written(rt: HostRuntime) -> Result<(), Fail> {
    assert!(rt; is_persisted(rt.alloc(), &PERSISTED)?);
    assert_eq!(rt;
        persisted_written(rt.alloc())?.as_slice(),
        PERSISTED.as_slice()
    );
    Ok(())
}

// Whether the list has one entry, which grants every client everything.
fn is_open(alloc: Global, acls: &Option<Listed<Acl>>) -> Result<bool, NoMemory> {
    let Some(acls) = acls else {
        return Ok(false);
    };
    if acls.is_empty() || acls.len() != 1 {
        return Ok(false);
    }
    let id = Id {
        scheme: Blob::new(alloc, b"world")?,
        id: Blob::new(alloc, b"anyone")?,
    };
    Ok(acls.as_slice()[0] == Acl { perms: 31, id })
}

// The next list.
fn next_acls(alloc: Global, reader: &mut Reader<'_>) -> Result<Option<Listed<Acl>>, ReadError> {
    read_vector::<Acl>(alloc, reader)
}

#[test]
fn acls_are_read(rt: HostRuntime) -> Result<(), Fail> {
    let mut reader = Reader::new(&OPEN);
    assert!(rt; is_open(rt.alloc(), &next_acls(rt.alloc(), &mut reader)?)?);
    assert!(rt; reader.rest().is_empty());
    let mut null = Reader::new(b"\xff\xff\xff\xff\x07");
    assert!(rt; next_acls(rt.alloc(), &mut null)?.is_none());
    assert_eq!(rt; null.rest(), b"\x07".as_slice());
    Ok(())
}

// The list of the open entry.
#[tactic(auto, unfolding(jute::specs::Owned::acl_in, jute::specs::Owned::id_in))]
fn acls_written(alloc: Global) -> Result<Vec<u8>, NoMemory> {
    let mut out = Vec::new(alloc);
    put_vector(&mut out, &Some(open_list(alloc)?))?;
    Ok(out)
}

#[test]
fn acls_are_written(rt: HostRuntime) -> Result<(), Fail> {
    assert_eq!(rt; acls_written(rt.alloc())?.as_slice(), OPEN.as_slice());
    Ok(())
}

// Whether an id is read whose texts are empty.
fn is_empty_id(alloc: Global, bytes: &[u8]) -> Result<bool, ReadError> {
    let id = Id::read(alloc, &mut Reader::new(bytes))?;
    Ok(id.scheme.as_slice().is_empty() && id.id.as_slice().is_empty())
}

#[tactic(auto, unfolding(jute::specs::Owned::id_in))]
fn empty_id_written(alloc: Global) -> Result<Vec<u8>, NoMemory> {
    let id = Id {
        scheme: Blob::new(alloc, b"")?,
        id: Blob::new(alloc, b"")?,
    };
    let mut out = Vec::new(alloc);
    id.write(&mut out)?;
    Ok(out)
}

/// Null texts of an Id are read as empty, and written with the length 0.
#[test]
fn null_texts_of_an_id(rt: HostRuntime) -> Result<(), Fail> {
    assert!(rt; is_empty_id(rt.alloc(), b"\xff\xff\xff\xff\xff\xff\xff\xff")?);
    let written = b"\x00\x00\x00\x00\x00\x00\x00\x00";
    assert_eq!(rt;
        empty_id_written(rt.alloc())?.as_slice(),
        written.as_slice()
    );
    Ok(())
}
