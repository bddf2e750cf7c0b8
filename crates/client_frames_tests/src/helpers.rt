//! Helpers of the tests.

use client_frames::{
    CallBody, Connecting, LocalCall, answer_to_connect, read_call, read_connecting,
    session_request_of,
};
use client_records::codes::{PERSISTENT, RECURSIVE};
use client_records::{AddWatch, ReadKind};
use forwarding::WriteKind;
use read_processor::{Request, may_watch};
use sessions::{SessionRequest, SessionResponse};
use settings::Dialect;
use std::alloc::Global;
use values::ReadError;

// A read of /a, in a word; of the kinds whose requests say so, one that asks for a watch.
fn read_word(request: &Request<'_>) -> &'static str {
    let is_of_a = match &request.path {
        None => false,
        Some(path) => path.as_str() == "/a",
    };
    if !is_of_a || request.watch != may_watch(request.kind) {
        return "another read";
    }
    match request.kind {
        ReadKind::Exists => "exists",
        ReadKind::GetData => "getData",
        ReadKind::GetAcl => "getACL",
        ReadKind::GetChildren => "getChildren",
        ReadKind::GetChildren2 => "getChildren2",
    }
}

// A watch on /a that isn't used up, in a word for its mode.
fn watch_word(asked: &AddWatch<'_>) -> &'static str {
    let is_of_a = match &asked.path {
        None => false,
        Some(path) => path.as_str() == "/a",
    };
    match asked.mode {
        RECURSIVE if is_of_a => "recursive watch",
        PERSISTENT if is_of_a => "persistent watch",
        _ => "another watch",
    }
}

// A request that isn't forwarded, in a word.
fn local_word(call: &LocalCall<'_>) -> &'static str {
    match call {
        LocalCall::Read(request) => read_word(request),
        LocalCall::SetWatches(_) => "setWatches",
        LocalCall::SetWatches2(_) => "setWatches2",
        LocalCall::AddWatch(asked) => watch_word(asked),
        LocalCall::CheckWatches(_) => "checkWatches",
        LocalCall::RemoveWatches(_) => "removeWatches",
        LocalCall::MultiRead(_) => "multiRead",
        LocalCall::GetEphemerals(_) => "getEphemerals",
        LocalCall::GetAllChildrenNumber(_) => "getAllChildrenNumber",
        LocalCall::WhoAmI => "whoAmI",
        LocalCall::Sasl(_) => "sasl",
        LocalCall::Unreadable => "unreadable",
        LocalCall::InvalidPath => "invalid path",
        LocalCall::Ping => "ping",
        LocalCall::Refused => "refused",
        LocalCall::Unknown => "unknown",
    }
}

// A write that is forwarded, in a word.
fn write_word(kind: WriteKind) -> &'static str {
    match kind {
        WriteKind::Create => "create",
        WriteKind::Delete => "delete",
        WriteKind::SetData => "setData",
        WriteKind::SetAcl => "setACL",
        WriteKind::CloseSession => "closeSession",
        WriteKind::Create2 => "create2",
        WriteKind::Reconfig => "reconfig",
        WriteKind::CreateContainer => "createContainer",
        WriteKind::DeleteContainer => "deleteContainer",
        WriteKind::CreateTtl => "createTTL",
        WriteKind::Multi => "multi",
    }
}

// The request of a body.
fn word(body: &CallBody<'_>) -> &'static str {
    match body {
        CallBody::Forward(kind) => write_word(*kind),
        CallBody::Sync(path) if path.as_str() == "/" => "sync of the root",
        CallBody::Sync(_) => "another sync",
        CallBody::Auth(None) => "unreadable auth",
        CallBody::Auth(Some(_)) => "auth",
        CallBody::Local(call) => local_word(call),
    }
}

/// The request of a frame in a dialect, in a word, if it has this xid.
pub fn asked_in(alloc: Global, dialect: Dialect, xid: i32, frame: &[u8]) -> &'static str {
    match read_call(alloc, dialect, frame) {
        Ok(call) if call.xid == xid => word(&call.body),
        Ok(_) => "another xid",
        Err(ReadError::NoMemory) => "no memory",
        Err(ReadError::Fault(_)) => "no header",
    }
}

/// The request of a frame of ZooKeeper 3.4, in a word, if its xid is 7.
pub fn asked(alloc: Global, frame: &[u8]) -> &'static str {
    asked_in(alloc, Dialect::Zk34, 7, frame)
}

// Whether the password is "secret".
fn has_secret(request: &SessionRequest<'_>) -> bool {
    match &request.password {
        None => false,
        Some(password) => password.as_slice() == b"secret".as_slice(),
    }
}

// Whether a client asks for session 5, and has seen zxid 9.
fn is_fifth(connecting: Connecting<'_>, has_byte: bool) -> bool {
    if connecting.has_byte != has_byte || connecting.request.last_zxid_seen != 9 {
        return false;
    }
    let request = session_request_of(&connecting.request);
    request.time_out == 10_000 && request.session_id == 5 && has_secret(&request)
}

/// Whether a first frame asks for session 5 with the password "secret" and a timeout of 10 seconds, has seen zxid 9,
/// and has a last byte or not.
pub fn is_connect(alloc: Global, frame: &[u8], has_byte: bool) -> bool {
    match read_connecting(alloc, frame) {
        Ok(connecting) => is_fifth(connecting, has_byte),
        Err(_) => false,
    }
}

/// Whether a first frame can't be read.
pub fn is_no_connect(alloc: Global, frame: &[u8]) -> bool {
    match read_connecting(alloc, frame) {
        Err(ReadError::Fault(_)) => true,
        _ => false,
    }
}

/// Whether the answer with this session is the frame.
pub fn is_answer(alloc: Global, response: &SessionResponse, has_byte: bool, frame: &[u8]) -> bool {
    match answer_to_connect(alloc, response, has_byte) {
        Ok(answer) => answer.as_slice() == frame,
        Err(_) => false,
    }
}
