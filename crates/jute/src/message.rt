//! The headers of a client's frames.

ghost use Rattle.jute.specs.Records.{request_header, reply_header};

use crate::reader::Reader;
use crate::record::ReadRecord;
use crate::writer::WriteRecord;
use std::alloc::Global;
use values::{NoMemory, ReadError};

/// The RequestHeader of zookeeper.jute.
#[derive(Clone, Copy, Debug, PartialEq, Eq)]
pub struct RequestHeader {
    /// The client's number for the request.
    pub xid: i32,
    /// The number of the operation.
    pub kind: i32,
}

impl<'a> ReadRecord<'a> for RequestHeader {
    ghost read_of = { request_header.read };

    #[tactic(auto, unfolding(crate::specs::Records::request_header))]
    fn read(_alloc: Global, reader: &mut Reader<'a>) -> Result<RequestHeader, ReadError> {
        let mut ahead = reader.ahead();
        let xid = ahead.read_int()?;
        let kind = ahead.read_int()?;
        *reader = ahead;
        Ok(RequestHeader { xid, kind })
    }
}

impl WriteRecord for RequestHeader {
    ghost format = { request_header };

    #[tactic(auto, unfolding(crate::specs::Records::request_header, crate::specs::Format::number_bytes))]
    fn written_len(&self) -> usize {
        8
    }

    #[tactic(auto, unfolding(crate::specs::Records::request_header))]
    fn write(&self, out: &mut Vec<u8>) -> Result<(), NoMemory> {
        self.xid.write(out)?;
        self.kind.write(out)
    }
}

/// The ReplyHeader of zookeeper.jute.
#[derive(Clone, Copy, Debug, PartialEq, Eq)]
pub struct ReplyHeader {
    /// The number of the request that is answered.
    pub xid: i32,
    /// The last zxid that the server has applied.
    pub zxid: i64,
    /// The error code, or 0.
    pub err: i32,
}

impl<'a> ReadRecord<'a> for ReplyHeader {
    ghost read_of = { reply_header.read };

    #[tactic(auto, unfolding(crate::specs::Records::reply_header))]
    fn read(_alloc: Global, reader: &mut Reader<'a>) -> Result<ReplyHeader, ReadError> {
        let mut ahead = reader.ahead();
        let xid = ahead.read_int()?;
        let zxid = ahead.read_long()?;
        let err = ahead.read_int()?;
        *reader = ahead;
        Ok(ReplyHeader { xid, zxid, err })
    }
}

impl WriteRecord for ReplyHeader {
    ghost format = { reply_header };

    #[tactic(auto, unfolding(crate::specs::Records::reply_header, crate::specs::Format::number_bytes))]
    fn written_len(&self) -> usize {
        16
    }

    #[tactic(auto, unfolding(crate::specs::Records::reply_header))]
    fn write(&self, out: &mut Vec<u8>) -> Result<(), NoMemory> {
        self.xid.write(out)?;
        self.zxid.write(out)?;
        self.err.write(out)
    }
}
