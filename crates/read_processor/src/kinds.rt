//! The kinds of reads: what each needs, which watch it leaves, and the body that shows a node. Data, names and entries
//! may be longer than a frame holds, so their lengths are tested before anything is written.

ghost use Rattle.std.specs.Prelude.{◌≡◌, ◌<◌, ◌^◌, IfOk};
ghost use Rattle.node_map.specs.Stats.{length_or_zero};
ghost use Rattle.read_processor.specs.Limits.{fitting_body};
ghost use Rattle.read_processor.specs.Kinds.{read_row, guards_acl, may_watch, exists_body, get_data_body, acl_body, get_acl_body, get_children_body, get_children2_body, reply_body};

use crate::body::{BODY_LIMIT, Body};
use crate::counts::{acls_len, names_len, with_bytes};
use client_records::{Acls, ExistsResponse, GetAclResponse, GetDataResponse, ReadKind};
use data_tree::Node;
use jute::codes::open_list;
use jute::{Acl, WriteRecord};
use settings::Dialect;
use std::alloc::Global;
use values::{Blob, Bytes, NoMemory};

/// The watches of one kind.
#[derive(Clone, Copy)]
pub enum WatchTable {
    /// On nodes, or on nodes that aren't there yet.
    Data,
    /// On the names of nodes' children.
    Child,
}

/// What reads of one kind need and leave.
#[derive(Clone, Copy)]
pub struct ReadRow {
    /// Whether the client needs the READ permission on the node.
    pub needs_read: bool,
    /// The table of the watch that the client may ask for; `None` if the request has no place for one.
    pub watch: Option<WatchTable>,
    /// Whether the watch is left also if there is no node.
    pub watches_missing: bool,
}

/// What reads of this kind need and leave.
pub fn read_row(kind: ReadKind) -> ReadRow
    ensures { result ≡ read_row kind }
{
    match kind {
        ReadKind::Exists => ReadRow {
            needs_read: false,
            watch: Some(WatchTable::Data),
            watches_missing: true,
        },
        ReadKind::GetData => ReadRow {
            needs_read: true,
            watch: Some(WatchTable::Data),
            watches_missing: false,
        },
        ReadKind::GetAcl => ReadRow {
            needs_read: false,
            watch: None,
            watches_missing: false,
        },
        ReadKind::GetChildren | ReadKind::GetChildren2 => ReadRow {
            needs_read: true,
            watch: Some(WatchTable::Child),
            watches_missing: false,
        },
    }
}

/// Whether a read is a getACL of a later client, which needs a permission.
pub(crate) fn guards_acl(kind: ReadKind, rules: Dialect) -> bool
    ensures { result ≡ guards_acl kind rules }
{
    matches!((kind, rules), (ReadKind::GetAcl, Dialect::Zk38))
}

/// Whether a client may ask for a watch with a read of this kind, so that the request says whether it does.
pub fn may_watch(kind: ReadKind) -> bool
    ensures { result ≡ may_watch kind }
{
    match read_row(kind).watch {
        None => false,
        Some(_) => true,
    }
}

fn borrow_bytes(bytes: &Option<Blob>) -> Option<Bytes<'_>>
    ensures { result ≡ bytes.now }
{
    match bytes {
        None => None,
        Some(bytes) => Some(Bytes::new(bytes.as_slice())),
    }
}

// The length of borrowed bytes; 0 for null.
fn lent_len(bytes: &Option<Bytes<'_>>) -> usize
    ensures length { result ≡ length_or_zero bytes.now }
    ensures small { result < 2 ^ 63 }
{
    match bytes {
        None => 0,
        Some(bytes) => bytes.as_slice().len(),
    }
}

#[tactic(auto, unfolding(client_records::specs::Responses::exists_response, jute::specs::Records::stat_format, jute::specs::Format::number_bytes))]
fn exists(alloc: Global, node: &Node) -> Result<Option<Body>, NoMemory>
    ensures { IfOk result (λ body. body ≡ fitting_body (exists_body node.now)) }
{
    Body::of(alloc, &ExistsResponse { stat: node.shown() })
}

fn get_data(alloc: Global, node: &Node) -> Result<Option<Body>, NoMemory>
    ensures { IfOk result (λ body. body ≡ fitting_body (get_data_body node.now)) }
{
    let bytes = borrow_bytes(&node.bytes);
    if lent_len(&bytes) > BODY_LIMIT {
        return Ok(None);
    }
    Body::of(
        alloc,
        &GetDataResponse {
            bytes,
            stat: node.shown(),
        },
    )
}

/// A node's stat with these entries as its access control list.
pub(crate) fn acl_body(
    alloc: Global,
    entries: &[Acl],
    node: &Node,
) -> Result<Option<Body>, NoMemory>
    ensures { IfOk result (λ body. body ≡ fitting_body (acl_body entries.now node.now)) }
{
    let Some(_) = acls_len(entries) else {
        return Ok(None);
    };
    Body::of(
        alloc,
        &GetAclResponse {
            acl: Acls::new(entries),
            stat: node.shown(),
        },
    )
}

// The entries of the open list live only until they are written.
fn get_acl(alloc: Global, node: &Node) -> Result<Option<Body>, NoMemory>
    ensures { IfOk result (λ body. body ≡ fitting_body (get_acl_body node.now)) }
{
    match node.acl.listed() {
        None => acl_body(alloc, open_list(alloc)?.as_slice(), node),
        Some(entries) => acl_body(alloc, entries, node),
    }
}

fn get_children(alloc: Global, node: &Node) -> Result<Option<Body>, NoMemory>
    ensures { IfOk result (λ body. body ≡ fitting_body (get_children_body node.now)) }
{
    let Some(size) = names_len(&node.children) else {
        return Ok(None);
    };
    let body = Body::of_names(alloc, size, &node.children)?;
    Ok(Some(body))
}

fn get_children2(alloc: Global, node: &Node) -> Result<Option<Body>, NoMemory>
    ensures { IfOk result (λ body. body ≡ fitting_body (get_children2_body node.now)) }
{
    let stat = node.shown();
    let Some(names) = names_len(&node.children) else {
        return Ok(None);
    };
    let Some(size) = with_bytes(names, stat.written_len()) else {
        return Ok(None);
    };
    let body = Body::of_names(alloc, size, &node.children)?;
    Ok(Some(body.with_stat(&stat)?))
}

/// The body of the reply that shows the node; None if it is too long for a frame. Fails only if an allocation is
/// refused.
pub(crate) fn body_of(alloc: Global, kind: ReadKind, node: &Node) -> Result<Option<Body>, NoMemory>
    ensures { IfOk result (λ body. body ≡ fitting_body (reply_body kind node.now)) }
{
    match kind {
        ReadKind::Exists => exists(alloc, node),
        ReadKind::GetData => get_data(alloc, node),
        ReadKind::GetAcl => get_acl(alloc, node),
        ReadKind::GetChildren => get_children(alloc, node),
        ReadKind::GetChildren2 => get_children2(alloc, node),
    }
}
