//! The events of a replica, and the view of it afterwards.

use data_tree::HashKey;
use jute::{StatPersisted, put_int, put_long};
use paths_and_acls::Path;
use quorum_packet::{Item, LentItem, Packet, PacketKind, QuorumPacket};
use replica::{ItemOutcome, LeaderNews, Replica};
use settings::{Dialect, Epochs, ServerId};
use snapshot_codec::{ImageNode, ImagePart, ImageSession, Loader};
use std::alloc::Global;
use std::hash::BuildHasher;
use values::{Blob, Bytes, Fault, NoMemory, ReadError};

/// An event of a replica. A zxid is given by its counter, and is of epoch 1.
#[derive(Clone, Copy)]
pub enum Event {
    /// A leader connects.
    Comes,
    /// It makes the handshake, in epoch 1.
    Greets,
    /// It leaves.
    Goes,
    /// The tree becomes the base.
    Checkpoint,
    /// A packet of this kind and zxid, without data.
    Packet(PacketKind, u32),
    /// An INFORM whose transaction creates this session, with this zxid.
    Session(i64, u32),
    /// An INFORM whose transaction sets the data of a node that isn't there, with this zxid.
    Missing(u32),
    /// An INFORM whose transaction has this type, these bytes behind it, and this zxid.
    Txn(i32, &'static [u8], u32),
    /// The same transaction, in an INFORMANDACTIVATE that names server 1.
    Activated(i32, &'static [u8], u32),
    /// A REVALIDATE with this data.
    Answer(&'static [u8]),
    /// A part of an image with this session.
    Part(i64),
    /// A part of an image with a node at this path, which has this owner.
    Node(&'static str, i64),
    /// The end of an image.
    End,
}

/// How a replica starts.
#[derive(Clone, Copy)]
pub enum Start {
    New,
    Primed,
    /// New, in the dialect of ZooKeeper 3.5 to 3.9.
    LaterNew,
    /// Primed, in that dialect.
    LaterPrimed,
}

/// The view of a replica after some events.
#[derive(Drop)]
pub struct Seen {
    /// The number of packets sent by each event that wasn't refused, and of things that it tells besides.
    pub sent: Vec<usize>,
    /// The error of each transaction whose application was told.
    pub errors: Vec<i32>,
    /// The answers of the leader for sessions.
    pub answers: Vec<(i64, bool)>,
    /// The fault of the last event that was refused.
    pub refused: Option<Fault>,
    pub is_serving: bool,
    pub last_zxid: i64,
    /// The number of transactions in the log.
    pub logged: usize,
    /// The number of nodes in the tree.
    pub nodes: usize,
    /// The number of nodes that a session owns.
    pub ephemerals: usize,
    /// The owner that "/c" shows.
    pub owner: Option<i64>,
    /// The tree's sessions, in their order.
    pub sessions: Vec<i64>,
    /// Whether its nodes are found by the key that it was given.
    pub has_key: bool,
}

/// The zxid with this counter in epoch 1.
pub fn at(counter: u32) -> i64 {
    0x1_0000_0000 + i64::from(counter)
}

// The packet, without its ids, lent.
fn lend(packet: &QuorumPacket) -> LentItem<'_> {
    let bytes = match &packet.bytes {
        None => None,
        Some(bytes) => Some(Bytes::new(bytes.as_slice())),
    };
    LentItem::Packet(Packet::new(packet.kind, packet.zxid, bytes, None))
}

// Takes the item, lent.
fn take(
    alloc: Global,
    replica: &mut Replica,
    loader: &mut Loader,
    item: Item,
) -> Result<ItemOutcome, ReadError> {
    match item {
        Item::Packet(packet) => replica.take(alloc, loader, lend(&packet)),
        Item::Part(part) => replica.take(alloc, loader, LentItem::Part(part)),
    }
}

// A packet without authinfo.
fn packet(kind: PacketKind, zxid: i64, bytes: Option<Blob>) -> Item {
    Item::Packet(QuorumPacket {
        kind: kind.code(),
        zxid,
        bytes,
        authinfo: None,
    })
}

// The header of a transaction of this session and type.
fn header(alloc: Global, session: i64, zxid: i64, code: i32) -> Result<Vec<u8>, NoMemory> {
    let mut bytes = Vec::new(alloc);
    put_long(&mut bytes, session)?;
    put_int(&mut bytes, 1)?;
    put_long(&mut bytes, zxid)?;
    put_long(&mut bytes, 1_000)?;
    put_int(&mut bytes, code)?;
    Ok(bytes)
}

// An INFORM whose transaction creates this session.
fn session_comes(alloc: Global, session: i64, zxid: i64) -> Result<Item, NoMemory> {
    let mut bytes = header(alloc, session, zxid, -10)?;
    put_int(&mut bytes, 5_000)?;
    Ok(packet(PacketKind::Inform, zxid, Some(Blob::from_vec(bytes))))
}

// An INFORM whose transaction sets the data of "/a" to null at version 1.
fn data_comes(alloc: Global, zxid: i64) -> Result<Item, NoMemory> {
    let mut bytes = header(alloc, 7, zxid, 5)?;
    bytes.extend_from_slice(b"\0\0\0\x02/a\xff\xff\xff\xff\0\0\0\x01")?;
    Ok(packet(PacketKind::Inform, zxid, Some(Blob::from_vec(bytes))))
}

// A packet with a transaction of session 7, behind these bytes.
fn txn_comes(
    alloc: Global,
    kind: PacketKind,
    front: &[u8],
    code: i32,
    body: &[u8],
    zxid: i64,
) -> Result<Item, NoMemory> {
    let mut bytes = Vec::new(alloc);
    bytes.extend_from_slice(front)?;
    bytes.extend_from_slice(&header(alloc, 7, zxid, code)?)?;
    bytes.extend_from_slice(body)?;
    Ok(packet(kind, zxid, Some(Blob::from_vec(bytes))))
}

// A part of an image with a node that has this owner.
fn node_comes(alloc: Global, path: &str, owner: i64) -> Result<Item, ReadError> {
    let stat = StatPersisted {
        czxid: 1,
        mzxid: 1,
        ctime: 1_000,
        mtime: 1_000,
        version: 0,
        cversion: 0,
        aversion: 0,
        ephemeral_owner: owner,
        pzxid: 1,
    };
    Ok(Item::Part(ImagePart::Node(ImageNode {
        path: Path::new(alloc, path)?,
        bytes: None,
        acl: -1,
        stat,
    })))
}

// A leader of epoch 1 names its epoch and the version of the protocol.
fn greeting(alloc: Global) -> Result<Item, NoMemory> {
    let version = Blob::new(alloc, b"\0\x01\0\0")?;
    Ok(packet(PacketKind::LeaderInfo, at(0), Some(version)))
}

// The number of packets sent for the event, and of things that it tells besides. Appends the error of a transaction, and
// an answer for a session.
fn happen(
    alloc: Global,
    replica: &mut Replica,
    loader: &mut Loader,
    event: Event,
    errors: &mut Vec<i32>,
    answers: &mut Vec<(i64, bool)>,
) -> Result<usize, ReadError> {
    let item = match event {
        Event::Comes => return Ok(replica.start(alloc, ServerId::default())?.len()),
        Event::Goes => {
            replica.end();
            return Ok(0);
        }
        Event::Checkpoint => {
            replica.checkpoint(alloc);
            return Ok(0);
        }
        Event::Greets => greeting(alloc)?,
        Event::Packet(kind, counter) => packet(kind, at(counter), None),
        Event::Session(session, counter) => session_comes(alloc, session, at(counter))?,
        Event::Missing(counter) => data_comes(alloc, at(counter))?,
        Event::Txn(code, body, counter) => {
            txn_comes(alloc, PacketKind::Inform, b"", code, body, at(counter))?
        }
        Event::Activated(code, body, counter) => {
            let kind = PacketKind::InformAndActivate;
            txn_comes(alloc, kind, b"\0\0\0\0\0\0\0\x01", code, body, at(counter))?
        }
        Event::Answer(data) => packet(PacketKind::Revalidate, -1, Some(Blob::new(alloc, data)?)),
        Event::Node(path, owner) => node_comes(alloc, path, owner)?,
        Event::Part(id) => Item::Part(ImagePart::Session(ImageSession { id, timeout: 5_000 })),
        Event::End => Item::Part(ImagePart::End),
    };
    let brought = take(alloc, replica, loader, item)?;
    match &brought.news {
        Some(LeaderNews::Applied { results, .. }) => errors.push(results.err)?,
        Some(LeaderNews::Revalidated { session, is_valid }) => {
            answers.push((*session, *is_valid))?;
        }
        _ => {}
    }
    Ok(brought.replies.len() + usize::from(brought.news.is_some()))
}

// The tree's sessions.
fn sessions(alloc: Global, replica: &Replica) -> Result<Vec<i64>, NoMemory> {
    let mut sessions = Vec::new(alloc);
    for (session, _) in replica.tree().sessions().iter() {
        sessions.push(*session)?;
    }
    Ok(sessions)
}

// Plays the events in order, and returns the view of the replica.
fn play(
    alloc: Global,
    replica: &mut Replica,
    loader: &mut Loader,
    events: &[Event],
) -> Result<Seen, NoMemory> {
    let mut sent = Vec::new(alloc);
    let mut errors = Vec::new(alloc);
    let mut answers = Vec::new(alloc);
    let mut refused = None;
    for event in events {
        match happen(alloc, replica, loader, *event, &mut errors, &mut answers) {
            Ok(count) => sent.push(count)?,
            Err(ReadError::Fault(fault)) => refused = Some(fault),
            Err(ReadError::NoMemory) => return Err(NoMemory),
        }
    }
    Ok(Seen {
        sent,
        errors,
        answers,
        refused,
        is_serving: replica.is_serving(),
        last_zxid: replica.learner().last_zxid(),
        logged: replica.learner().since_base().len(),
        nodes: replica.tree().paths(),
        ephemerals: replica.tree().ephemerals().count(),
        owner: replica
            .tree()
            .node("/c")
            .map(|node| node.shown().ephemeral_owner),
        sessions: sessions(alloc, replica)?,
        has_key: replica.tree().hash_key().hash_one("/a") == key().hash_one("/a"),
    })
}

// The key of the hash by which replicas find nodes.
fn key() -> HashKey {
    HashKey::new(3, 5)
}

/// The view of a replica that starts like this, after these events.
pub fn after(alloc: Global, start: Start, events: &[Event]) -> Result<Seen, NoMemory> {
    let key = key();
    let mut replica = match start {
        Start::New => Replica::new(alloc, key, Dialect::Zk34, Epochs::default())?,
        Start::Primed => Replica::primed(alloc, key, Dialect::Zk34, 4, 10_000)?,
        Start::LaterNew => Replica::new(alloc, key, Dialect::Zk38, Epochs::default())?,
        Start::LaterPrimed => Replica::primed(alloc, key, Dialect::Zk38, 4, 10_000)?,
    };
    let mut loader = Loader::with_key(replica.learner().dialect(), alloc, key);
    play(alloc, &mut replica, &mut loader, events)
}
