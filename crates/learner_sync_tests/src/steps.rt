//! Items of a leader, and what a learner does for them.

use jute::{put_int, put_long};
use learner_sync::{Act, Learner};
use quorum_packet::{Item, LentItem, Packet, PacketKind, QuorumPacket};
use settings::{Dialect, Epochs, ServerId};
use std::alloc::Global;
use values::{Blob, Bytes, Fault, NoMemory, ReadError};

/// The zxid with this counter in epoch 1.
pub fn at(counter: u32) -> i64 {
    0x1_0000_0000 + i64::from(counter)
}

/// A packet without authinfo.
pub fn packet(kind: PacketKind, zxid: i64, bytes: Option<Blob>) -> Item {
    Item::Packet(QuorumPacket {
        kind: kind.code(),
        zxid,
        bytes,
        authinfo: None,
    })
}

/// The bytes of a transaction that ends session 7.
pub fn txn_bytes(alloc: Global, zxid: i64) -> Result<Blob, NoMemory> {
    let mut bytes = Vec::new(alloc);
    put_long(&mut bytes, 7)?;
    put_int(&mut bytes, 1)?;
    put_long(&mut bytes, zxid)?;
    put_long(&mut bytes, 1_000)?;
    put_int(&mut bytes, -11)?;
    Ok(Blob::from_vec(bytes))
}

/// A packet with a transaction, and the transaction's zxid.
pub fn with_txn(alloc: Global, kind: PacketKind, zxid: i64) -> Result<Item, NoMemory> {
    Ok(packet(kind, zxid, Some(txn_bytes(alloc, zxid)?)))
}

// Whether the act sends a packet with these fields and no ids.
fn is_packet(act: &Act, kind: i32, zxid: i64, bytes: Option<&[u8]>) -> bool {
    let Act::Send(packet) = act else {
        return false;
    };
    let are_bytes = match (&packet.bytes, bytes) {
        (None, None) => true,
        (Some(sent), Some(bytes)) => sent.as_slice() == bytes,
        _ => false,
    };
    are_bytes && packet.kind == kind && packet.zxid == zxid && packet.authinfo.is_none()
}

/// Whether there are this many acts, and one sends a packet with these fields and no ids.
pub fn sends(acts: &[Act], count: usize, kind: i32, zxid: i64, bytes: Option<&[u8]>) -> bool {
    for act in acts {
        if is_packet(act, kind, zxid, bytes) {
            return acts.len() == count;
        }
    }
    false
}

// The packet, without its ids, lent.
fn lend(packet: &QuorumPacket) -> LentItem<'_> {
    let bytes = match &packet.bytes {
        None => None,
        Some(bytes) => Some(Bytes::new(bytes.as_slice())),
    };
    LentItem::Packet(Packet::new(packet.kind, packet.zxid, bytes, None))
}

/// The acts of the item. It has no contract, so that a test's proof is short.
pub fn follow(alloc: Global, learner: &mut Learner, item: Item) -> Result<Vec<Act>, ReadError> {
    let acts = match item {
        Item::Packet(packet) => learner.step(alloc, lend(&packet))?,
        Item::Part(part) => learner.step(alloc, LentItem::Part(part))?,
    };
    Ok(acts.into_vec(alloc)?)
}

/// The acts of a leader that connects.
pub fn come(
    alloc: Global,
    learner: &mut Learner,
    server_id: ServerId,
) -> Result<Vec<Act>, NoMemory> {
    learner.start(alloc, server_id)?.into_vec(alloc)
}

/// The result of an item: a letter for each act, or the fault for which it is refused.
#[derive(Clone, Copy, PartialEq)]
pub enum Seen {
    Nothing,
    /// A PING with this zxid is to be answered.
    AnswerPing(i64),
    SettleSync,
    Apply,
    LoadPart,
    LoadImage,
    DropImage,
    Truncate(i64),
    /// One packet, or more acts.
    Sent(usize),
    Refused(Fault),
}

// The learner's result for the item.
fn see(alloc: Global, learner: &mut Learner, item: Item) -> Result<Seen, NoMemory> {
    let acts = match follow(alloc, learner, item) {
        Ok(acts) => acts,
        Err(ReadError::NoMemory) => return Err(NoMemory),
        Err(ReadError::Fault(fault)) => return Ok(Seen::Refused(fault)),
    };
    Ok(match acts.as_slice() {
        [] => Seen::Nothing,
        [Act::AnswerPing(ping)] => Seen::AnswerPing(ping.zxid),
        [Act::SettleSync] => Seen::SettleSync,
        [Act::Apply] => Seen::Apply,
        [Act::LoadPart(_)] => Seen::LoadPart,
        [Act::LoadImage] => Seen::LoadImage,
        [Act::DropImage] => Seen::DropImage,
        [Act::Truncate(zxid)] => Seen::Truncate(*zxid),
        others => Seen::Sent(others.len()),
    })
}

/// Whether the learner does this with the item.
pub fn does(
    alloc: Global,
    learner: &mut Learner,
    item: Item,
    wanted: Seen,
) -> Result<bool, NoMemory> {
    Ok(see(alloc, learner, item)? == wanted)
}

/// A protocol version, as a leader sends it.
pub fn version(alloc: Global) -> Result<Option<Blob>, NoMemory> {
    Ok(Some(Blob::new(alloc, b"\0\x01\0\0")?))
}

/// A learner after the handshake with a leader of epoch 1, in the dialect of ZooKeeper 3.4.
pub fn greeted(alloc: Global) -> Result<Learner, ReadError> {
    greeted_in(Dialect::Zk34, alloc)
}

/// The same, in this dialect.
pub fn greeted_in(dialect: Dialect, alloc: Global) -> Result<Learner, ReadError> {
    let mut learner = Learner::new(alloc, dialect, Epochs::default());
    come(alloc, &mut learner, ServerId::default())?;
    let info = packet(PacketKind::LeaderInfo, at(0), version(alloc)?);
    follow(alloc, &mut learner, info)?;
    Ok(learner)
}

/// The zxids of the transactions since the base as one number: each counter is a digit.
pub fn counters(learner: &Learner) -> i64 {
    let mut digits = 0i64;
    for txn in learner.since_base() {
        digits = digits.wrapping_mul(10).wrapping_add(txn.header.zxid & 0xf);
    }
    digits
}
