//! The first frames of a connection. A byte after either record is about read-only servers; it isn't part of the
//! records.

ghost use Rattle.client_records.specs.Requests.{connect_request};
ghost use Rattle.client_records.specs.Responses.{connect_response};

use crate::fields::{buffer_len, put_buffer};
use jute::{ReadRecord, Reader, WriteRecord, blob_len, put_blob, read_blob};
use std::alloc::Global;
use values::{Blob, Bytes, NoMemory, ReadError};

/// The ConnectRequest of zookeeper.jute.
#[derive(Drop, PartialEq)]
pub struct ConnectRequest<'a> {
    pub protocol_version: i32,
    /// The greatest zxid that the client has seen.
    pub last_zxid_seen: i64,
    /// The timeout that the client asks for, in milliseconds.
    pub time_out: i32,
    /// The session that the client has, or 0.
    pub session_id: i64,
    /// That session's password; `None` is null.
    pub passwd: Option<Bytes<'a>>,
}

impl<'a> ReadRecord<'a> for ConnectRequest<'a> {
    ghost read_of = { connect_request.read };

    #[tactic(auto, unfolding(crate::specs::Requests::connect_request))]
    fn read(_alloc: Global, reader: &mut Reader<'a>) -> Result<ConnectRequest<'a>, ReadError> {
        let mut ahead = reader.ahead();
        let request = ConnectRequest {
            protocol_version: ahead.read_int()?,
            last_zxid_seen: ahead.read_long()?,
            time_out: ahead.read_int()?,
            session_id: ahead.read_long()?,
            passwd: ahead.read_buffer()?.map(Bytes::new),
        };
        *reader = ahead;
        Ok(request)
    }
}

impl<'a> WriteRecord for ConnectRequest<'a> {
    ghost format = { connect_request };

    #[tactic(auto, unfolding(crate::specs::Requests::connect_request, jute::specs::Format::number_bytes))]
    fn written_len(&self) -> usize {
        24 + buffer_len(&self.passwd)
    }

    #[tactic(auto, unfolding(crate::specs::Requests::connect_request), using(values::proofs::Gaining::puts_behind, values::proofs::Gaining::gains_behind, values::proofs::Gaining::gains_first))]
    fn write(&self, out: &mut Vec<u8>) -> Result<(), NoMemory> {
        self.protocol_version.write(out)?;
        self.last_zxid_seen.write(out)?;
        self.time_out.write(out)?;
        self.session_id.write(out)?;
        put_buffer(out, &self.passwd)
    }
}

/// The ConnectResponse of zookeeper.jute.
#[derive(Drop, PartialEq)]
pub struct ConnectResponse {
    pub protocol_version: i32,
    /// The timeout of the session, in milliseconds.
    pub time_out: i32,
    /// The session, or 0 for a refusal.
    pub session_id: i64,
    /// Its password; `None` is null.
    pub passwd: Option<Blob>,
}

impl<'a> ReadRecord<'a> for ConnectResponse {
    ghost read_of = { connect_response.read };

    #[tactic(auto, unfolding(crate::specs::Responses::connect_response))]
    fn read(alloc: Global, reader: &mut Reader<'a>) -> Result<ConnectResponse, ReadError> {
        let mut ahead = reader.ahead();
        let response = ConnectResponse {
            protocol_version: ahead.read_int()?,
            time_out: ahead.read_int()?,
            session_id: ahead.read_long()?,
            passwd: read_blob(alloc, &mut ahead)?,
        };
        *reader = ahead;
        Ok(response)
    }
}

impl WriteRecord for ConnectResponse {
    ghost format = { connect_response };

    #[tactic(auto, unfolding(crate::specs::Responses::connect_response, jute::specs::Format::number_bytes))]
    fn written_len(&self) -> usize {
        16 + blob_len(&self.passwd)
    }

    #[tactic(auto, unfolding(crate::specs::Responses::connect_response), using(values::proofs::Gaining::puts_behind, values::proofs::Gaining::gains_behind, values::proofs::Gaining::gains_first))]
    fn write(&self, out: &mut Vec<u8>) -> Result<(), NoMemory> {
        self.protocol_version.write(out)?;
        self.time_out.write(out)?;
        self.session_id.write(out)?;
        put_blob(out, &self.passwd)
    }
}
