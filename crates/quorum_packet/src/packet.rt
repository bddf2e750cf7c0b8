//! One packet.

ghost use Rattle.std.specs.Prelude.{◌≡◌, IfOk};
ghost use Rattle.quorum_packet.specs.Items.{is_snap};
ghost use Rattle.quorum_packet.specs.Packet.{carried_bytes, packet_format};
ghost use Rattle.values.specs.Gains.{Puts};

use crate::kind::PacketKind;
use jute::{
    Id, ReadRecord, Reader, WriteRecord, blob_len, put_blob, put_vector, read_blob, read_vector,
    vector_len,
};
use std::alloc::Global;
use std::marker::Model;
use values::{Blob, Bytes, Listed, NoMemory, ReadError};

/// The QuorumPacket of zookeeper.jute, which a leader and its servers send to each other.
#[derive(Debug, Drop)]
pub struct QuorumPacket {
    /// The code of its kind; it may be an unknown one.
    pub kind: i32,
    pub zxid: i64,
    /// The data; `None` is null.
    pub bytes: Option<Blob>,
    /// The ids of the client whose request this is; `None` is null.
    pub authinfo: Option<Listed<Id>>,
}

/// A packet whose data is lent from the bytes that it was read from. Its model is the packet.
#[derive(Drop)]
pub struct Packet<'a> {
    kind: i32,
    zxid: i64,
    bytes: Option<Bytes<'a>>,
    authinfo: Option<Listed<Id>>,
}

impl<'a> Model for Packet<'a> {
    ghost use Rattle.quorum_packet.specs.declared.packet.QuorumPacket.{QuorumPacket as ThePacket};

    ghost Value = { ThePacket };

    ghost view = { λ p. record { kind = p.kind; zxid = p.zxid; bytes = p.bytes; authinfo = p.authinfo } };
}

impl<'a> Packet<'a> {
    pub fn new(
        kind: i32,
        zxid: i64,
        bytes: Option<Bytes<'a>>,
        authinfo: Option<Listed<Id>>,
    ) -> Packet<'a>
        ensures { result ≡ record { kind = kind; zxid = zxid; bytes = bytes.entry; authinfo = authinfo } }
    {
        Packet {
            kind,
            zxid,
            bytes,
            authinfo,
        }
    }

    /// The code of its kind; it may be an unknown one.
    pub fn kind(&self) -> i32
        ensures { result ≡ self.now.kind }
    {
        self.kind
    }

    pub fn zxid(&self) -> i64
        ensures { result ≡ self.now.zxid }
    {
        self.zxid
    }

    /// The data; null reads as empty.
    pub fn data(&self) -> Bytes<'a>
        ensures { result ≡ carried_bytes self.now.bytes }
    {
        match &self.bytes {
            None => Bytes::new(&[]),
            Some(bytes) => Bytes::new(bytes.as_slice()),
        }
    }

    /// The packet with a copy of the data. Fails only if an allocation is refused.
    pub fn into_owned(self, alloc: Global) -> Result<QuorumPacket, NoMemory>
        ensures { IfOk result (λ packet. packet ≡ self.entry) }
    {
        let Packet {
            kind,
            zxid,
            bytes: lent,
            authinfo,
        } = self;
        let bytes = match lent {
            None => None,
            Some(bytes) => Some(Blob::new(alloc, bytes.as_slice())?),
        };
        Ok(QuorumPacket {
            kind,
            zxid,
            bytes,
            authinfo,
        })
    }

    /// Whether an image follows the packet.
    pub(crate) fn is_snap(&self) -> bool
        ensures { result ≡ is_snap self.now }
    {
        self.kind == PacketKind::Snap.code()
    }
}

impl<'a> ReadRecord<'a> for Packet<'a> {
    ghost read_of = { packet_format.read };

    #[tactic(auto, unfolding(crate::specs::Packet::packet_format))]
    fn read(alloc: Global, reader: &mut Reader<'a>) -> Result<Packet<'a>, ReadError> {
        let mut ahead = reader.ahead();
        let kind = ahead.read_int()?;
        let zxid = ahead.read_long()?;
        let bytes = match ahead.read_buffer()? {
            None => None,
            Some(bytes) => Some(Bytes::new(bytes)),
        };
        let authinfo = read_vector(alloc, &mut ahead)?;
        *reader = ahead;
        Ok(Packet::new(kind, zxid, bytes, authinfo))
    }
}

impl<'a> ReadRecord<'a> for QuorumPacket {
    ghost read_of = { packet_format.read };

    fn read(alloc: Global, reader: &mut Reader<'a>) -> Result<QuorumPacket, ReadError> {
        let mut ahead = reader.ahead();
        let packet = Packet::read(alloc, &mut ahead)?.into_owned(alloc)?;
        *reader = ahead;
        Ok(packet)
    }
}

impl WriteRecord for QuorumPacket {
    ghost format = { packet_format };

    #[tactic(auto, unfolding(crate::specs::Packet::packet_format, jute::specs::Format::number_bytes))]
    fn written_len(&self) -> usize {
        12 + blob_len(&self.bytes) + vector_len(&self.authinfo)
    }

    #[tactic(auto, unfolding(crate::specs::Packet::packet_format))]
    fn write(&self, out: &mut Vec<u8>) -> Result<(), NoMemory> {
        self.kind.write(out)?;
        self.zxid.write(out)?;
        put_blob(out, &self.bytes)?;
        put_vector(out, &self.authinfo)
    }
}

/// Appends the packet to `out`. A refused allocation leaves a prefix of its bytes appended.
pub fn write_packet(packet: &QuorumPacket, out: &mut Vec<u8>) -> Result<(), NoMemory>
    requires { packet_format.Writable packet.now }
    ensures { Puts result out.old.items (packet_format.written packet.now) out.new.items }
{
    packet.write(out)
}
