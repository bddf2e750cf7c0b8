//! The first frame of a connection, and its answer.

ghost use Rattle.std.specs.Prelude.{◌≡◌, IfOk, OnOk, length};
ghost use Rattle.jute.specs.Reads.{ReadsOwnedWhole};
ghost use Rattle.client_frames.specs.Connect.{connecting_in, session_request_of, response_of, answer_to_connect};

use client_records::{ConnectRequest, ConnectResponse};
use jute::{ReadRecord, Reader, WriteRecord, put_frame, put_int};
use sessions::{SessionRequest, SessionResponse};
use std::alloc::Global;
use values::{Blob, Bytes, NoMemory, ReadError};

// The length of the answer's frame body, its last byte included.
const LONGER_ANSWER_LEN: i32 = 37;

// The length of that frame.
const FRAME_LEN: usize = 41;

/// A client that asks for a session.
#[derive(Drop)]
pub struct Connecting<'a> {
    pub request: ConnectRequest<'a>,
    /// Whether a byte follows the request; with it a client says that it accepts a read-only server.
    pub has_byte: bool,
}

/// Reads a first frame. Fails with a fault if it can't be read, and with `NoMemory` if an allocation is refused.
pub fn read_connecting<'a>(alloc: Global, frame: &'a [u8]) -> Result<Connecting<'a>, ReadError>
    ensures { ReadsOwnedWhole (connecting_in frame.now) result }
{
    let mut reader = Reader::new(frame);
    let request = ConnectRequest::read(alloc, &mut reader)?;
    let has_byte = !reader.rest().is_empty();
    Ok(Connecting { request, has_byte })
}

/// The session that the client asks for.
pub fn session_request_of<'a>(request: &ConnectRequest<'a>) -> SessionRequest<'a>
    ensures { result ≡ session_request_of request.now }
{
    let password = request.passwd.as_ref().map(Bytes::as_slice);
    SessionRequest {
        time_out: request.time_out,
        session_id: request.session_id,
        password: password.map(Bytes::new),
    }
}

fn response_of(alloc: Global, response: &SessionResponse) -> Result<ConnectResponse, NoMemory>
    ensures answer { IfOk result (λ answer. answer ≡ response_of response.now) }
    ensures short { OnOk result (length response.now.password ≡ 16) }
{
    Ok(ConnectResponse {
        protocol_version: 0,
        time_out: response.time_out,
        session_id: response.session_id,
        passwd: Some(Blob::new(alloc, &response.password)?),
    })
}

/// The frame of the answer, with a last byte exactly if the request had one. Fails only if an allocation is refused.
pub fn answer_to_connect(
    alloc: Global,
    response: &SessionResponse,
    has_byte: bool,
) -> Result<Blob, NoMemory>
    ensures { IfOk result (λ frame. frame ≡ answer_to_connect response.now has_byte) }
{
    let answer = response_of(alloc, response)?;
    let mut frame = Vec::with_capacity(alloc, FRAME_LEN)?;
    if !has_byte {
        put_frame(&mut frame, &answer)?;
        return Ok(Blob::from_vec(frame));
    }
    put_int(&mut frame, LONGER_ANSWER_LEN)?;
    answer.write(&mut frame)?;
    frame.push(0)?;
    Ok(Blob::from_vec(frame))
}
