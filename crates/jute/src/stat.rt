//! The stat of a node.

ghost use Rattle.std.specs.Prelude.{◌≡◌, length};
ghost use Rattle.jute.specs.Format.{int, long};
ghost use Rattle.jute.specs.Records.{stat_format, stat_persisted, four_longs, three_ints};
ghost use Rattle.values.specs.Gains.{Puts};

use crate::reader::Reader;
use crate::record::ReadRecord;
use crate::writer::WriteRecord;
use byteorder::{BigEndian, ByteOrder};
use std::alloc::Global;
use values::{NoMemory, ReadError};

/// The Stat of zookeeper.jute, 68 bytes.
#[derive(Clone, Copy, Debug, PartialEq, Eq)]
pub struct Stat {
    /// The zxid of the transaction that created the node.
    pub czxid: i64,
    /// The zxid of the last change of the node's data.
    pub mzxid: i64,
    /// The time of the node's creation, in milliseconds since 1970.
    pub ctime: i64,
    /// The time of the last change of the node's data, in milliseconds since 1970.
    pub mtime: i64,
    /// The number of changes of the node's data.
    pub version: i32,
    /// The number of changes of the node's children.
    pub cversion: i32,
    /// The number of changes of the node's ACL.
    pub aversion: i32,
    /// The session that owns an ephemeral node; 0 for any other node.
    pub ephemeral_owner: i64,
    /// The length of the node's data in bytes.
    pub data_length: i32,
    /// The number of the node's children.
    pub num_children: i32,
    /// The zxid of the last change of the node's children.
    pub pzxid: i64,
}

impl<'a> ReadRecord<'a> for Stat {
    ghost read_of = { stat_format.read };

    #[tactic(auto, unfolding(crate::specs::Records::stat_format))]
    fn read(_alloc: Global, reader: &mut Reader<'a>) -> Result<Stat, ReadError> {
        let mut ahead = reader.ahead();
        let stat = Stat {
            czxid: ahead.read_long()?,
            mzxid: ahead.read_long()?,
            ctime: ahead.read_long()?,
            mtime: ahead.read_long()?,
            version: ahead.read_int()?,
            cversion: ahead.read_int()?,
            aversion: ahead.read_int()?,
            ephemeral_owner: ahead.read_long()?,
            data_length: ahead.read_int()?,
            num_children: ahead.read_int()?,
            pzxid: ahead.read_long()?,
        };
        *reader = ahead;
        Ok(stat)
    }
}

impl WriteRecord for Stat {
    ghost format = { stat_format };

    #[tactic(auto, unfolding(crate::specs::Records::stat_format, crate::specs::Format::number_bytes))]
    fn written_len(&self) -> usize {
        68
    }

    #[tactic(auto, using(values::proofs::Gaining::gains_nothing))]
    fn write(&self, out: &mut Vec<u8>) -> Result<(), NoMemory> {
        Ok(out.extend_from_slice(&stat_bytes(self))?)
    }
}

/// A Stat as it is written. Its fields become bytes in an array, so that the vector that gets them grows once.
fn stat_bytes(stat: &Stat) -> [u8; 68]
    ensures { result ≡ stat_format.written stat.now }
{
    let mut bytes = [0; 68];
    let (czxid, rest) = bytes.split_at_mut(8);
    set_long(czxid, &stat.czxid);
    let (mzxid, rest) = rest.split_at_mut(8);
    set_long(mzxid, &stat.mzxid);
    let (ctime, rest) = rest.split_at_mut(8);
    set_long(ctime, &stat.ctime);
    let (mtime, rest) = rest.split_at_mut(8);
    set_long(mtime, &stat.mtime);
    let (version, rest) = rest.split_at_mut(4);
    set_int(version, &stat.version);
    let (cversion, rest) = rest.split_at_mut(4);
    set_int(cversion, &stat.cversion);
    let (aversion, rest) = rest.split_at_mut(4);
    set_int(aversion, &stat.aversion);
    let (ephemeral_owner, rest) = rest.split_at_mut(8);
    set_long(ephemeral_owner, &stat.ephemeral_owner);
    let (data_length, rest) = rest.split_at_mut(4);
    set_int(data_length, &stat.data_length);
    let (num_children, rest) = rest.split_at_mut(4);
    set_int(num_children, &stat.num_children);
    set_long(rest, &stat.pzxid);
    bytes
}

#[tactic(auto, using(crate::proofs::Writing::number_kept), unfolding(crate::specs::Format::number_bytes))]
fn set_long(place: &mut [u8], n: &i64)
    requires { length place.old ≡ 8 }
    ensures { place.new ≡ long.written n.now }
{
    BigEndian::write_i64(place, *n);
}

#[tactic(auto, using(crate::proofs::Writing::number_kept), unfolding(crate::specs::Format::number_bytes))]
fn set_int(place: &mut [u8], n: &i32)
    requires { length place.old ≡ 4 }
    ensures { place.new ≡ int.written n.now }
{
    BigEndian::write_i32(place, *n);
}

/// The StatPersisted of zookeeper.jute, 60 bytes: the stored part of a node's stat.
#[derive(Clone, Copy, Debug, PartialEq, Eq)]
pub struct StatPersisted {
    /// The zxid of the transaction that created the node.
    pub czxid: i64,
    /// The zxid of the last change of the node's data.
    pub mzxid: i64,
    /// The time of the node's creation, in milliseconds since 1970.
    pub ctime: i64,
    /// The time of the last change of the node's data, in milliseconds since 1970.
    pub mtime: i64,
    /// The number of changes of the node's data.
    pub version: i32,
    /// The number of creates of a child.
    pub cversion: i32,
    /// The number of changes of the node's ACL.
    pub aversion: i32,
    /// The session that owns an ephemeral node; 0 for any other node.
    pub ephemeral_owner: i64,
    /// The zxid of the last change of the node's children.
    pub pzxid: i64,
}

impl<'a> ReadRecord<'a> for StatPersisted {
    ghost read_of = { stat_persisted.read };

    #[tactic(auto, unfolding(crate::specs::Records::stat_persisted))]
    fn read(_alloc: Global, reader: &mut Reader<'a>) -> Result<StatPersisted, ReadError> {
        let mut ahead = reader.ahead();
        let stat = StatPersisted {
            czxid: ahead.read_long()?,
            mzxid: ahead.read_long()?,
            ctime: ahead.read_long()?,
            mtime: ahead.read_long()?,
            version: ahead.read_int()?,
            cversion: ahead.read_int()?,
            aversion: ahead.read_int()?,
            ephemeral_owner: ahead.read_long()?,
            pzxid: ahead.read_long()?,
        };
        *reader = ahead;
        Ok(stat)
    }
}

impl WriteRecord for StatPersisted {
    ghost format = { stat_persisted };

    #[tactic(auto, unfolding(crate::specs::Records::stat_persisted, crate::specs::Format::number_bytes))]
    fn written_len(&self) -> usize {
        60
    }

    #[tactic(auto, unfolding(crate::specs::Records::stat_persisted))]
    fn write(&self, out: &mut Vec<u8>) -> Result<(), NoMemory> {
        put_four_longs(out, &self.czxid, &self.mzxid, &self.ctime, &self.mtime)?;
        put_three_ints(out, &self.version, &self.cversion, &self.aversion)?;
        self.ephemeral_owner.write(out)?;
        self.pzxid.write(out)
    }
}

fn put_four_longs(out: &mut Vec<u8>, a: &i64, b: &i64, c: &i64, d: &i64) -> Result<(), NoMemory>
    ensures { Puts result out.old.items (four_longs a.now b.now c.now d.now) out.new.items }
{
    a.write(out)?;
    b.write(out)?;
    c.write(out)?;
    d.write(out)
}

fn put_three_ints(out: &mut Vec<u8>, a: &i32, b: &i32, c: &i32) -> Result<(), NoMemory>
    ensures { Puts result out.old.items (three_ints a.now b.now c.now) out.new.items }
{
    a.write(out)?;
    b.write(out)?;
    c.write(out)
}
