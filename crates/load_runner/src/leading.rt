//! The bytes with which a leader accepts an observer, and those of an image.

ghost use Rattle.std.specs.Prelude.{◌≤◌, length, IfOk};

use crate::messages::{PATH_LIMIT, short_path};
use anyhow::{Result, ensure};
use jute::{StatPersisted, WriteRecord, put_bytes, put_long, put_string};
use paths_and_acls::Path;
use quorum_packet::{PacketKind, QuorumPacket, write_packet};
use std::alloc::Global;
use values::Blob;

// The protocol version that a leader sends with its epoch.
const PROTOCOL_VERSION: &[u8] = &[0, 1, 0, 0];

// The key of the list that grants every client everything.
const OPEN_KEY: i64 = -1;

// The longest data of a node, in bytes.
const DATA_LIMIT: usize = 4_194_304;

/// The path of a node of an image, below the root.
pub fn image_parent(alloc: Global, parent: u32) -> Result<Path>
    ensures { IfOk result (λ p. length p ≤ PATH_LIMIT) }
{
    let text = format!(in alloc; "/p{parent:08}")?;
    short_path(alloc, text.as_str())
}

/// The path of a node below such a node: 20 bytes, if the numbers are below 100,000,000.
pub fn image_child(alloc: Global, parent: u32, child: u32) -> Result<Path>
    ensures { IfOk result (λ p. length p ≤ PATH_LIMIT) }
{
    let text = format!(in alloc; "/p{parent:08}/n{child:08}")?;
    short_path(alloc, text.as_str())
}

/// Appends a packet without data. An error may leave a prefix of it appended.
#[tactic(auto, unfolding(quorum_packet::specs::Packet::packet_format))]
pub fn write_bare(kind: PacketKind, zxid: i64, out: &mut Vec<u8>) -> Result<()> {
    let bare = QuorumPacket {
        kind: kind.code(),
        zxid,
        bytes: None,
        authinfo: None,
    };
    Ok(write_packet(&bare, out)?)
}

/// Appends the packet by which a leader names its epoch. An error may leave a prefix of it appended.
#[tactic(auto, unfolding(quorum_packet::specs::Packet::packet_format))]
pub fn write_leader_info(alloc: Global, zxid: i64, out: &mut Vec<u8>) -> Result<()> {
    let naming = QuorumPacket {
        kind: PacketKind::LeaderInfo.code(),
        zxid,
        bytes: Some(Blob::new(alloc, PROTOCOL_VERSION)?),
        authinfo: None,
    };
    Ok(write_packet(&naming, out)?)
}

/// Appends a node of an image, which every client may change. An error may leave a prefix of it appended.
#[tactic(auto, unfolding(jute::specs::Records::stat_persisted))]
pub fn write_node(path: &str, content: &[u8], out: &mut Vec<u8>) -> Result<()>
    requires { length path.now ≤ PATH_LIMIT }
{
    ensure!(content.len() <= DATA_LIMIT, "a node's data is too long");
    put_string(out, path)?;
    put_bytes(out, content)?;
    put_long(out, OPEN_KEY)?;
    let stat = StatPersisted {
        czxid: 1,
        mzxid: 1,
        ctime: 1000,
        mtime: 1000,
        version: 0,
        cversion: 0,
        aversion: 0,
        ephemeral_owner: 0,
        pzxid: 1,
    };
    Ok(stat.write(out)?)
}
