//! The bytes of a leader's messages and of a client's requests.

ghost use Rattle.std.specs.Prelude.{◌≤◌, length, IfOk};
ghost use Rattle.txn_codec.specs.Spelling.{body_format};

use anyhow::{Result, ensure};
use client_records::codes::PING_XID;
use client_records::{ConnectRequest, PathAndWatch, ReadKind, RequestKind};
use jute::codes::ALL;
use jute::{RequestHeader, WriteRecord, put_bytes, put_int, put_string};
use paths_and_acls::{AclField, Path};
use quorum_packet::{PacketKind, QuorumPacket, write_packet};
use std::alloc::Global;
use txn_codec::{Body, Create, Operation, Owner, SetData, Txn, encode_txn};
use values::{Blob, Str};

/// The longest path here, in bytes.
pub const PATH_LIMIT: usize = 64;

// The longest data of a node here, in bytes.
const CONTENT_LIMIT: usize = 1_048_576;

// The longest transaction of a message here, in bytes.
const TXN_LIMIT: usize = 4_194_304;

// The longest request of a message here, in bytes.
const REQUEST_LIMIT: usize = 1024;

// The longest frame of a client, in bytes.
const FRAME_LIMIT: usize = 1_048_575;

/// The timeout of sessions, in milliseconds.
pub const TIMEOUT: i32 = 10_000;

/// The default data of a node.
pub const CONTENT: &[u8] = b"0123456789abcdef";

/// 100 bytes of data.
pub const LONG_CONTENT: &[u8; 100] = &[b'x'; 100];

/// The path of a text, if it is a short one.
pub fn short_path(alloc: Global, text: &str) -> Result<Path>
    ensures { IfOk result (λ p. length p ≤ PATH_LIMIT) }
{
    ensure!(text.len() <= PATH_LIMIT, "a path is too long");
    Ok(Path::new(alloc, text)?)
}

/// The path of a node below the root.
pub fn parent_path(alloc: Global, parent: u32) -> Result<Path>
    ensures { IfOk result (λ p. length p ≤ PATH_LIMIT) }
{
    let text = format!(in alloc; "/p{parent}")?;
    short_path(alloc, text.as_str())
}

/// The path of a node below such a node.
pub fn child_path(alloc: Global, parent: u32, child: u32) -> Result<Path>
    ensures { IfOk result (λ p. length p ≤ PATH_LIMIT) }
{
    let text = format!(in alloc; "/p{parent}/n{child}")?;
    short_path(alloc, text.as_str())
}

/// The path of a node that a connection watches: 20 bytes, if the numbers are below 10,000,000.
pub fn watched_path(alloc: Global, connection: u64, watch: u32) -> Result<Path>
    ensures { IfOk result (λ p. length p ≤ PATH_LIMIT) }
{
    let text = format!(in alloc; "/c{connection:07}/w{watch:09}")?;
    short_path(alloc, text.as_str())
}

/// A create of a node that every client may change.
#[tactic(auto, unfolding(jute::specs::Owned::acl_in, jute::specs::Owned::id_in))]
pub fn create(alloc: Global, path: Path, content: &[u8]) -> Result<Body>
    requires { length path ≤ PATH_LIMIT }
    ensures { IfOk result body_format.Writable }
{
    ensure!(content.len() <= CONTENT_LIMIT, "a node's data is too long");
    let bytes = Blob::new(alloc, content)?;
    Ok(Body::Single(Operation::Create(Create {
        path,
        bytes: Some(bytes),
        acl: AclField::open(),
        owner: Owner::Nobody,
        asks_stat: false,
        parent_cversion: -1,
    })))
}

/// A setData of a node.
pub fn set_data(alloc: Global, path: Path, content: &[u8]) -> Result<Body>
    requires { length path ≤ PATH_LIMIT }
    ensures { IfOk result body_format.Writable }
{
    ensure!(content.len() <= CONTENT_LIMIT, "a node's data is too long");
    let bytes = Blob::new(alloc, content)?;
    Ok(Body::Single(Operation::SetData(SetData {
        path,
        bytes: Some(bytes),
        version: 1,
        is_reconfig: false,
    })))
}

/// Appends the packet by which a leader sends a transaction. An error may leave a prefix of it appended.
#[tactic(auto, unfolding(quorum_packet::specs::Packet::packet_format))]
pub fn write_inform(alloc: Global, txn: &Txn, out: &mut Vec<u8>) -> Result<()>
    requires { body_format.Writable txn.now.body }
{
    let mut bytes = Vec::new(alloc);
    encode_txn(txn, &mut bytes)?;
    ensure!(bytes.len() <= TXN_LIMIT, "a transaction is too long");
    let informing = QuorumPacket {
        kind: PacketKind::Inform.code(),
        zxid: txn.header.zxid,
        bytes: Some(Blob::from_vec(bytes)),
        authinfo: None,
    };
    Ok(write_packet(&informing, out)?)
}

/// Appends the frame by which a client reads a node and may watch it. An error may leave a prefix of it appended.
#[tactic(auto, unfolding(jute::specs::Records::request_header, client_records::specs::Requests::path_and_watch))]
pub fn write_read(
    alloc: Global,
    kind: ReadKind,
    path: &Path,
    watch: bool,
    out: &mut Vec<u8>,
) -> Result<()>
    requires { length path.now ≤ PATH_LIMIT }
{
    let mut frame = Vec::new(alloc);
    let header = RequestHeader {
        xid: 1,
        kind: RequestKind::Read(kind).code(),
    };
    header.write(&mut frame)?;
    let request = PathAndWatch {
        path: Some(Str::new(path.as_str())),
        watch,
    };
    request.write(&mut frame)?;
    ensure!(frame.len() <= REQUEST_LIMIT, "a request is too long");
    Ok(put_bytes(out, frame.as_slice())?)
}

// Begins the frame of a write: its header, the path and the data.
#[tactic(auto, unfolding(jute::specs::Records::request_header))]
fn begin_write(
    alloc: Global,
    xid: i32,
    kind: RequestKind,
    path: &Path,
    content: &[u8],
) -> Result<Vec<u8>>
    requires { length path.now ≤ PATH_LIMIT }
{
    ensure!(content.len() <= CONTENT_LIMIT, "a node's data is too long");
    let mut frame = Vec::new(alloc);
    let header = RequestHeader {
        xid,
        kind: kind.code(),
    };
    header.write(&mut frame)?;
    put_string(&mut frame, path.as_str())?;
    put_bytes(&mut frame, content)?;
    Ok(frame)
}

/// Appends the frame by which a client creates a node that every client may change: a CreateRequest of zookeeper.jute.
/// An error may leave a prefix of it appended.
pub fn write_create(
    alloc: Global,
    xid: i32,
    path: &Path,
    content: &[u8],
    out: &mut Vec<u8>,
) -> Result<()>
    requires { length path.now ≤ PATH_LIMIT }
{
    let mut frame = begin_write(alloc, xid, RequestKind::Create, path, content)?;
    // A list of one entry, and no flags.
    put_int(&mut frame, 1)?;
    put_int(&mut frame, ALL)?;
    put_string(&mut frame, "world")?;
    put_string(&mut frame, "anyone")?;
    put_int(&mut frame, 0)?;
    ensure!(frame.len() <= FRAME_LIMIT, "a request is too long");
    Ok(put_bytes(out, frame.as_slice())?)
}

/// Appends the frame by which a client sets a node's data, whatever its version: a SetDataRequest of zookeeper.jute. An
/// error may leave a prefix of it appended.
pub fn write_set_data(
    alloc: Global,
    xid: i32,
    path: &Path,
    content: &[u8],
    out: &mut Vec<u8>,
) -> Result<()>
    requires { length path.now ≤ PATH_LIMIT }
{
    let mut frame = begin_write(alloc, xid, RequestKind::SetData, path, content)?;
    put_int(&mut frame, -1)?;
    ensure!(frame.len() <= FRAME_LIMIT, "a request is too long");
    Ok(put_bytes(out, frame.as_slice())?)
}

/// Appends the frame by which a client asks for a new session. An error may leave a prefix of it appended.
#[tactic(auto, unfolding(client_records::specs::Requests::connect_request))]
pub fn write_connect(alloc: Global, out: &mut Vec<u8>) -> Result<()> {
    let mut frame = Vec::new(alloc);
    let request = ConnectRequest {
        protocol_version: 0,
        last_zxid_seen: 0,
        time_out: TIMEOUT,
        session_id: 0,
        passwd: None,
    };
    request.write(&mut frame)?;
    ensure!(frame.len() <= REQUEST_LIMIT, "a request is too long");
    Ok(put_bytes(out, frame.as_slice())?)
}

/// Appends the frame of a ping whose header is followed by as many meaningless bytes as a frame may have. An error may
/// leave a prefix of it appended.
#[tactic(auto, unfolding(jute::specs::Records::request_header))]
pub fn write_long_ping(alloc: Global, out: &mut Vec<u8>) -> Result<()> {
    let mut frame = Vec::new(alloc);
    let header = RequestHeader {
        xid: PING_XID,
        kind: RequestKind::Ping.code(),
    };
    header.write(&mut frame)?;
    frame.resize(FRAME_LIMIT, 0)?;
    ensure!(frame.len() <= FRAME_LIMIT, "a request is too long");
    Ok(put_bytes(out, frame.as_slice())?)
}
