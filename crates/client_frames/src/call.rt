//! The requests in a client's frames.

ghost use Rattle.std.specs.Prelude.{◌≡◌, IfOk};
ghost use Rattle.jute.specs.Reads.{ReadsOwnedWhole};
ghost use Rattle.client_records.specs.Multi.{multi_read};
ghost use Rattle.client_records.specs.Requests.{path_alone, auth_packet};
ghost use Rattle.client_frames.specs.Call.{value_if_read, call_or_unreadable, call_of_read, sync_of, sync_of_path, multi_call, call_body, call_in};

use client_records::{
    AddWatch, AuthPacket, Boxed, PathAlone, PathAndKind, PathAndWatch, ReadKind, ReadPart,
    RequestKind, SaslRequest, SetWatches, SetWatches2, read_parts,
};
use forwarding::WriteKind;
use jute::{ReadRecord, Reader, RequestHeader};
use read_processor::{Request, is_readable_path, may_watch};
use settings::Dialect;
use std::alloc::Global;
use values::{Fault, Listed, NoMemory, ReadError, Str};

/// A request that this server answers from what it has.
#[derive(Drop)]
pub enum LocalCall<'a> {
    Read(Request<'a>),
    SetWatches(Boxed<SetWatches<'a>>),
    SetWatches2(Boxed<SetWatches2<'a>>),
    AddWatch(AddWatch<'a>),
    CheckWatches(PathAndKind<'a>),
    RemoveWatches(PathAndKind<'a>),
    MultiRead(Listed<ReadPart<'a>>),
    GetEphemerals(PathAlone<'a>),
    GetAllChildrenNumber(PathAlone<'a>),
    WhoAmI,
    Sasl(SaslRequest<'a>),
    /// The body isn't one of the header's type.
    Unreadable,
    /// A sync of a path that no node can have.
    InvalidPath,
    Ping,
    /// A check, or a multi where multis aren't forwarded.
    Refused,
    /// The header's type is unknown.
    Unknown,
}

/// The body of a frame after its header.
#[derive(Drop)]
pub enum CallBody<'a> {
    /// A write, for the leader. Its body isn't read.
    Forward(WriteKind),
    /// A sync of a path, for the leader.
    Sync(Str<'a>),
    /// An auth; `None` if its body can't be read. It is answered at once, whatever waits.
    Auth(Option<AuthPacket<'a>>),
    Local(LocalCall<'a>),
}

/// A frame of a client.
#[derive(Drop)]
pub struct Call<'a> {
    /// The client's number for the request.
    pub xid: i32,
    pub body: CallBody<'a>,
}

// The record at the front, if it can be read.
fn read_or_none<'a, T: ReadRecord<'a>>(
    alloc: Global,
    reader: &mut Reader<'a>,
) -> Result<Option<T>, NoMemory>
    ensures { IfOk result (λ found. found ≡ value_if_read (T.read_of reader.old)) }
{
    match T::read(alloc, reader) {
        Ok(record) => Ok(Some(record)),
        Err(ReadError::NoMemory) => Err(NoMemory),
        Err(ReadError::Fault(_)) => Ok(None),
    }
}

// The record at the front in a box, if it can be read.
fn read_boxed<'a, T: ReadRecord<'a> + Drop>(
    alloc: Global,
    reader: &mut Reader<'a>,
) -> Result<Option<Boxed<T>>, NoMemory>
    ensures { IfOk result (λ found. found ≡ value_if_read (T.read_of reader.old)) }
{
    match read_or_none(alloc, reader)? {
        None => Ok(None),
        Some(record) => Ok(Some(Boxed::new(alloc, record)?)),
    }
}

fn read_multi_read<'a>(alloc: Global, reader: &mut Reader<'a>) -> Result<LocalCall<'a>, NoMemory>
    ensures { IfOk result
        (λ call. call ≡ call_or_unreadable LocalCall.MultiRead (value_if_read (multi_read reader.old))) }
{
    match read_parts(alloc, reader) {
        Ok(parts) => Ok(LocalCall::MultiRead(parts)),
        Err(ReadError::NoMemory) => Err(NoMemory),
        Err(ReadError::Fault(_)) => Ok(LocalCall::Unreadable),
    }
}

// The call that was read, or that its body can't be read.
fn local<'a>(call: Option<LocalCall<'a>>) -> CallBody<'a>
    ensures { result ≡ CallBody.Local (call_or_unreadable (λ c. c) call.entry) }
{
    CallBody::Local(call.unwrap_or(LocalCall::Unreadable))
}

// A path and, where a client may ask for a watch, whether it does.
fn read_request<'a>(
    alloc: Global,
    dialect: Dialect,
    kind: ReadKind,
    reader: &mut Reader<'a>,
) -> Result<LocalCall<'a>, NoMemory>
    ensures { IfOk result (λ call. call ≡ call_of_read dialect kind reader.old) }
{
    let rules = dialect;
    if may_watch(kind) {
        return match read_or_none(alloc, reader)? {
            None => Ok(LocalCall::Unreadable),
            Some(PathAndWatch { path, watch }) => {
                Ok(LocalCall::Read(Request {
                    kind,
                    path,
                    watch,
                    rules,
                }))
            }
        };
    }
    match read_or_none(alloc, reader)? {
        None => Ok(LocalCall::Unreadable),
        Some(PathAlone { path }) => {
            let watch = false;
            Ok(LocalCall::Read(Request {
                kind,
                path,
                watch,
                rules,
            }))
        }
    }
}

// A sync is forwarded only for a path that a read may have.
fn sync_of_path<'a>(path: Option<Str<'a>>) -> CallBody<'a>
    ensures { result ≡ sync_of_path path.entry }
{
    let Some(path) = path else {
        return CallBody::Local(LocalCall::InvalidPath);
    };
    if !is_readable_path(path.as_str().as_bytes()) {
        return CallBody::Local(LocalCall::InvalidPath);
    }
    CallBody::Sync(path)
}

fn read_sync<'a>(alloc: Global, reader: &mut Reader<'a>) -> Result<CallBody<'a>, NoMemory>
    ensures { IfOk result (λ body. body ≡ sync_of (value_if_read (path_alone.read reader.old))) }
{
    match read_or_none(alloc, reader)? {
        None => Ok(CallBody::Local(LocalCall::Unreadable)),
        Some(PathAlone { path }) => Ok(sync_of_path(path)),
    }
}

fn read_auth<'a>(alloc: Global, reader: &mut Reader<'a>) -> Result<CallBody<'a>, NoMemory>
    ensures { IfOk result (λ body. body ≡ CallBody.Auth (value_if_read (auth_packet.read reader.old))) }
{
    Ok(CallBody::Auth(read_or_none(alloc, reader)?))
}

// A multi is forwarded where its answer can be read.
fn multi_call<'a>(dialect: Dialect) -> CallBody<'a>
    ensures { result ≡ multi_call dialect }
{
    if dialect.reads().later_requests {
        return CallBody::Forward(WriteKind::Multi);
    }
    CallBody::Local(LocalCall::Refused)
}

fn read_body<'a>(
    alloc: Global,
    dialect: Dialect,
    kind: Option<RequestKind>,
    reader: &mut Reader<'a>,
) -> Result<CallBody<'a>, NoMemory>
    ensures { IfOk result (λ body. body ≡ call_body dialect kind reader.old) }
{
    let Some(kind) = kind else {
        return Ok(CallBody::Local(LocalCall::Unknown));
    };
    match kind {
        RequestKind::Read(kind) => Ok(CallBody::Local(read_request(alloc, dialect, kind, reader)?)),
        RequestKind::SetWatches => Ok(local(read_boxed(alloc, reader)?.map(LocalCall::SetWatches))),
        RequestKind::SetWatches2 => Ok(local(read_boxed(alloc, reader)?.map(
            LocalCall::SetWatches2,
        ))),
        RequestKind::AddWatch => Ok(local(read_or_none(alloc, reader)?.map(LocalCall::AddWatch))),
        RequestKind::CheckWatches => Ok(local(read_or_none(alloc, reader)?.map(
            LocalCall::CheckWatches,
        ))),
        RequestKind::RemoveWatches => Ok(local(read_or_none(alloc, reader)?.map(
            LocalCall::RemoveWatches,
        ))),
        RequestKind::MultiRead => Ok(CallBody::Local(read_multi_read(alloc, reader)?)),
        RequestKind::GetEphemerals => Ok(local(read_or_none(alloc, reader)?.map(
            LocalCall::GetEphemerals,
        ))),
        RequestKind::GetAllChildrenNumber => Ok(local(read_or_none(alloc, reader)?.map(
            LocalCall::GetAllChildrenNumber,
        ))),
        RequestKind::WhoAmI => return Ok(CallBody::Local(LocalCall::WhoAmI)),
        RequestKind::Sasl => Ok(local(read_or_none(alloc, reader)?.map(LocalCall::Sasl))),
        RequestKind::Create => return Ok(CallBody::Forward(WriteKind::Create)),
        RequestKind::Delete => return Ok(CallBody::Forward(WriteKind::Delete)),
        RequestKind::SetData => return Ok(CallBody::Forward(WriteKind::SetData)),
        RequestKind::SetAcl => return Ok(CallBody::Forward(WriteKind::SetAcl)),
        RequestKind::CloseSession => return Ok(CallBody::Forward(WriteKind::CloseSession)),
        RequestKind::Create2 => return Ok(CallBody::Forward(WriteKind::Create2)),
        RequestKind::Reconfig => return Ok(CallBody::Forward(WriteKind::Reconfig)),
        RequestKind::CreateContainer => return Ok(CallBody::Forward(WriteKind::CreateContainer)),
        RequestKind::DeleteContainer => return Ok(CallBody::Forward(WriteKind::DeleteContainer)),
        RequestKind::CreateTtl => return Ok(CallBody::Forward(WriteKind::CreateTtl)),
        RequestKind::Sync => read_sync(alloc, reader),
        RequestKind::Auth => read_auth(alloc, reader),
        RequestKind::Ping => return Ok(CallBody::Local(LocalCall::Ping)),
        RequestKind::Check => return Ok(CallBody::Local(LocalCall::Refused)),
        RequestKind::Multi => return Ok(multi_call(dialect)),
    }
}

/// Reads a frame in a dialect. Fails with a fault if it has no whole header, and with `NoMemory` if an allocation is
/// refused.
pub fn read_call<'a>(
    alloc: Global,
    dialect: Dialect,
    frame: &'a [u8],
) -> Result<Call<'a>, ReadError>
    ensures { ReadsOwnedWhole (call_in dialect frame.now) result }
{
    let mut reader = Reader::new(frame);
    let header = RequestHeader::read(alloc, &mut reader)?;
    let xid = header.xid;
    let kind = RequestKind::from_code(dialect, header.kind);
    let body = read_body(alloc, dialect, kind, &mut reader)?;
    Ok(Call { xid, body })
}

/// The call of a frame in a dialect, or why its header can't be read. Fails only if an allocation is refused.
pub fn call_in<'a>(
    alloc: Global,
    dialect: Dialect,
    frame: &'a [u8],
) -> Result<Result<Call<'a>, Fault>, NoMemory>
    ensures { IfOk result (λ read. read ≡ call_in dialect frame.now) }
{
    match read_call(alloc, dialect, frame) {
        Ok(call) => Ok(Ok(call)),
        Err(ReadError::NoMemory) => Err(NoMemory),
        Err(ReadError::Fault(fault)) => Ok(Err(fault)),
    }
}
